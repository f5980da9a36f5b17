// The same change over a book that is lent and altered in place: thin, over the book's own method. The wrapper has plain parameters, so that
// whoever calls it needs no reference to a struct.
#![tactic(auto)]

ghost use Rattle.std.specs.Prelude.{◌≡◌};
ghost use Rattle.types.specs.Answers.{reply_of};
ghost use Rattle.orderbook.specs.Apply.{change_of, applied};

use deltas::BookDelta;
use orderbook::{Applied, OrderBook};
use types::Refusal;

pub fn apply_delta(book: &mut OrderBook, delta: BookDelta) -> Result<(), Refusal>
    ensures { record { book = book.new; reply = reply_of result } ≡ applied book.old delta }
{
    book.apply(delta)
}

// The parameter is lent to the call above.
pub fn apply_delta_over(mut book: OrderBook, delta: BookDelta) -> Applied
    ensures { change_of result ≡ applied book delta }
{
    let outcome = apply_delta(&mut book, delta);
    Applied { book, outcome }
}

// Numbers and what they name, for callers that are not Rattle: a delta, a question and a listing by their numbers, and the number of a line's kind.
// Numbers that name nothing are 2, after 1 for a record that is no book. They are numbers because the C interface has no enums with values.
#![tactic(auto)]

ghost use Rattle.std.specs.Prelude.{◌≡◌};
ghost use Rattle.types.specs.Replies.{refuse};
ghost use Rattle.told.specs.Numbers.{tell, nothing};
ghost use Rattle.orderbook.specs.Book.{of_book};
ghost use Rattle.types.specs.Answers.{reply_of};
ghost use Rattle.orderbook.specs.Lent.{book_in};
ghost use Rattle.lines.specs.Read.{read_of};
ghost use Rattle.names.specs.Names.{delta_by, question_by, listing_by};
ghost use Rattle.names.specs.Kinds.{kind_of};

use deltas::{BookDelta, DeltaAction};
use lines::ReadFrame;
use listings::Listing;
use orderbook::lent::BookRows;
use questions::Question;
use told::Told;
use told::answers::Tells;
use types::{Refusal, Side};

// A delta: sides and actions are 0 and 1.
pub fn delta_of(
    side: u64,
    action: u64,
    price: u32,
    quantity: u32,
    sequence: u64,
) -> Result<BookDelta, Refusal>
    ensures { reply_of result ≡ delta_by side action price quantity sequence }
{
    Ok(BookDelta {
        side: Side::try_from(side)?,
        price,
        quantity,
        action: DeltaAction::try_from(action)?,
        sequence,
    })
}

// A question. `small` is its price or quantity, `large` its count or volume; a question takes what it needs.
pub fn question_of(number: u64, side: u64, small: u32, large: u64) -> Result<Question, Refusal>
    ensures { reply_of result ≡ question_by number side small large }
{
    questions::numbered::question_of(number, Side::try_from(side)?, small, large)
}

// A listing. `from` is its count, or the lower price of a range up to `to`.
pub fn listing_of(number: u64, side: u64, from: u64, to: u32) -> Result<Listing, Refusal>
    ensures { reply_of result ≡ listing_by number side from to }
{
    listings::numbered::listing_of(number, Side::try_from(side)?, from, to)
}

// The refusal of numbers that name nothing, after 1 if the rows make no book.
pub fn refused(book: BookRows<'_>, why: Refusal) -> Told
    ensures { result ≡ tell nothing (of_book (book_in book.entry) (refuse why)) }
{
    if book.is_book() {
        return Told::from(why);
    }
    Told::from(Refusal::NotARecord)
}

// A frame's kind, or the refusal.
pub fn kind_told(read: Result<ReadFrame, Refusal>) -> Told
    ensures { result ≡ tell kind_of (read_of read).reply }
{
    match read {
        Ok(ReadFrame::Delta(_)) => 1u64.told(),
        Ok(ReadFrame::Snapshot(_)) => 2u64.told(),
        Err(why) => Told::from(why),
    }
}

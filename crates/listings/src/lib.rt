// Any listing of a book's levels as one value, written as price, quantity, price, quantity to the front of one lent buffer. The book is lent as
// its rows, and the calls that take the record by value, which docs/PROMISES.md promises, are thin over those. The rest of the buffer keeps its
// numbers; on a refusal all of it does.
#![tactic(auto)]

ghost use Rattle.std.specs.Prelude.{◌≡◌, length};
ghost use Rattle.types.specs.Replies.{map_reply};
ghost use Rattle.types.specs.Answers.{reply_of};
ghost use Rattle.types.specs.Written.{fitted, written};
ghost use Rattle.orderbook.specs.Lent.{book_in};
ghost use Rattle.listings.specs.Listed.{numbers_of, front_of};
ghost use Rattle.listings.specs.Inner.Fronts.{PlacesFit, front_at};

mod run; // run.rt: a run of a side's levels, written to the front of a buffer
mod plan; // plan.rt: the run of each side that a listing takes, and the answer
pub mod named; // named.rt: each listing of a book by value, under the original's name
pub mod numbered; // numbered.rt: the listings by their numbers

use orderbook::OrderBook;
use orderbook::lent::BookRows;
use types::{Price, Refusal, Side};

// The best so many levels of a side; the best so many of both sides, bids first; the levels of a side from one price to another, upward.
#[derive(Clone, Copy)]
pub enum Listing {
    Top(Side, usize),
    Snapshot(usize),
    Between(Side, Price, Price),
}

// The places that a listing of a book that is lent fills in a buffer of `room` places, or the refusal.
#[inline(always)]
pub fn places_at(book: BookRows<'_>, listing: Listing, room: usize) -> Result<u64, Refusal>
    ensures { reply_of result ≡ map_reply length (fitted room (numbers_of listing (book_in book.entry))) }
{
    let plan = plan::plan_of(book, listing).in_room(room);
    plan.answer
}

// Writes a listing to the front of `out`: bids first, and the rest is lent on for the asks. A refusal has none of either.
pub fn write_at(book: BookRows<'_>, listing: Listing, out: &mut [u32]) -> Result<u64, Refusal>
    ensures { record { answer = reply_of result; memory = out.new } ≡ written (numbers_of listing (book_in book.entry)) out.old }
{
    let plan = plan::plan_of(book, listing).in_room(out.len());
    let b = plan.bids.count;
    run::write(book.bids, plan.bids, out);
    run::write(book.asks, plan.asks, &mut out[2 * b..]);
    plan.answer
}

// The places that a listing of a book fills in a buffer of `room` places, or the refusal.
pub fn places(book: OrderBook, listing: Listing, room: usize) -> Result<u64, Refusal>
    ensures { reply_of result ≡ map_reply length (fitted room (numbers_of listing book)) }
{
    places_at(book.rows(), listing, room)
}

// Writes a listing of a book to the front of `out`.
pub fn write(book: OrderBook, listing: Listing, out: &mut [u32]) -> Result<u64, Refusal>
    ensures { record { answer = reply_of result; memory = out.new } ≡ written (numbers_of listing book) out.old }
{
    write_at(book.rows(), listing, out)
}

// The front of `out` that a listing of a book fills: empty on a refusal.
pub fn list<'a>(book: OrderBook, listing: Listing, out: &'a mut [u32]) -> &'a mut [u32]
    ensures { (result.ref_ptr ≡ out.entry.ref_ptr) × (result.now ≡ front_of (fitted (length out.old) (numbers_of listing book))) }
{
    let answer = write(book, listing, out);
    front(answer, out)
}

// The front of a buffer that an answer's places fill: empty on a refusal.
pub fn front(answer: Result<u64, Refusal>, out: &mut [u32]) -> &mut [u32]
    requires { PlacesFit answer out.old }
    ensures { (result.ref_ptr ≡ out.entry.ref_ptr) × (result.now ≡ front_at answer out.old) }
{
    let k = match answer {
        Ok(places) => places as usize,
        Err(_) => 0,
    };
    &mut out[..k]
}

// A book's changes, questions and listings by their numbers, on lent rows: each with its answer told. Crate exports has them under the names that
// Rust and C link. Numbers stand for sides, actions, questions and listings, and what is changed is lent row by row: the C interface needs both.
#![tactic(auto)]

ghost use Rattle.std.specs.Prelude.{◌≡◌, length};
ghost use Rattle.types.specs.Answers.{reply_of};
ghost use Rattle.types.specs.Replies.{map_reply};
ghost use Rattle.types.specs.Written.{fitted, written};
ghost use Rattle.told.specs.Numbers.{tell, nothing, one_number};
ghost use Rattle.orderbook.specs.Apply.{cleared};
ghost use Rattle.orderbook.specs.Lent.{book_at, book_in};
ghost use Rattle.questions.specs.Asked.{values_in};
ghost use Rattle.numbered.specs.Books.{book_told, applied_by, cleared_by, asked_by, listed_by};
ghost use Rattle.numbered.specs.Memory.{told_left};

use deltas::Counts;
use orderbook::lent::BookRows;
use orderbook::rows;
use told::Told;
use types::{Refusal, Side};

// The counts beside a book's rows after a call, and the call's answer.
#[repr(C)]
#[derive(Clone, Copy)]
pub struct CountsTold {
    pub counts: Counts,
    pub told: Told,
}

// What a change left beside the rows, its outcome told.
fn given(counts: Counts, outcome: Result<(), Refusal>) -> CountsTold
    ensures { result ≡ record { counts = counts; told = tell nothing (reply_of outcome) } }
{
    CountsTold {
        counts,
        told: Told::of(outcome),
    }
}

// The delta of these numbers, on the rows; numbers that name nothing leave them.
pub fn apply_delta(
    bp: &mut [u32; 128],
    bq: &mut [u32; 128],
    ap: &mut [u32; 128],
    aq: &mut [u32; 128],
    counts: Counts,
    side: u64,
    action: u64,
    price: u32,
    quantity: u32,
    sequence: u64,
) -> CountsTold
    ensures { record { book = book_at bp.new bq.new ap.new aq.new result.counts; told = result.told } ≡ book_told (applied_by (book_at bp.old bq.old ap.old aq.old counts) side action price quantity sequence) }
{
    let mut after = counts;
    match names::delta_of(side, action, price, quantity, sequence) {
        Ok(delta) => {
            let outcome = rows::apply_delta(bp, bq, ap, aq, &mut after, delta);
            given(after, outcome)
        }
        Err(why) => CountsTold {
            counts,
            told: names::refused(BookRows::of(bp, bq, ap, aq, counts), why),
        },
    }
}

pub fn clear(
    bp: &mut [u32; 128],
    bq: &mut [u32; 128],
    ap: &mut [u32; 128],
    aq: &mut [u32; 128],
    counts: Counts,
) -> CountsTold
    ensures { record { book = book_at bp.new bq.new ap.new aq.new result.counts; told = result.told } ≡ book_told (cleared (book_at bp.old bq.old ap.old aq.old counts)) }
{
    let mut after = counts;
    let outcome = rows::clear(bp, bq, ap, aq, &mut after);
    given(after, outcome)
}

// Empties the side of this number; one that names none leaves the rows.
pub fn remove_all(
    bp: &mut [u32; 128],
    bq: &mut [u32; 128],
    ap: &mut [u32; 128],
    aq: &mut [u32; 128],
    counts: Counts,
    side: u64,
) -> CountsTold
    ensures { record { book = book_at bp.new bq.new ap.new aq.new result.counts; told = result.told } ≡ book_told (cleared_by (book_at bp.old bq.old ap.old aq.old counts) side) }
{
    let mut after = counts;
    match Side::try_from(side) {
        Ok(side) => {
            let outcome = rows::remove_all(bp, bq, ap, aq, &mut after, side);
            given(after, outcome)
        }
        Err(why) => CountsTold {
            counts,
            told: names::refused(BookRows::of(bp, bq, ap, aq, counts), why),
        },
    }
}

// The book's answer to a question.
pub fn ask(book: BookRows<'_>, question: u64, side: u64, small: u32, large: u64) -> Told
    ensures { result ≡ tell values_in (asked_by (book_in book.entry) question side small large) }
{
    match names::question_of(question, side, small, large) {
        Ok(question) => Told::of(questions::ask_at(book, question)),
        Err(why) => names::refused(book, why),
    }
}

// The places that a listing fills in memory of `room` places.
pub fn places(book: BookRows<'_>, listing: u64, side: u64, from: u64, to: u32, room: u64) -> Told
    ensures { result ≡ tell one_number (map_reply length (fitted room (listed_by (book_in book.entry) listing side from to))) }
{
    match names::listing_of(listing, side, from, to) {
        Ok(listing) => Told::of(listings::places_at(book, listing, room as usize)),
        Err(why) => names::refused(book, why),
    }
}

// Writes a listing to the front of lent memory: price, quantity, price, quantity.
pub fn list(
    book: BookRows<'_>,
    listing: u64,
    side: u64,
    from: u64,
    to: u32,
    out: &mut [u32],
) -> Told
    ensures { record { answer = result; memory = out.new } ≡ told_left (written (listed_by (book_in book.entry) listing side from to) out.old) }
{
    match names::listing_of(listing, side, from, to) {
        Ok(listing) => Told::of(listings::write_at(book, listing, out)),
        Err(why) => names::refused(book, why),
    }
}

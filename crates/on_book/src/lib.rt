// The operations on the book. Their numbers are those of the lists that are replayed:
// an enum would be made of a number by one match and matched again, no plainer.
#![tactic(auto)]

use fields::{delta, number, side, small};
use listings::Listing;
use orderbook::{Applied, OrderBook};
use questions::Value;
use told::Told;
use types::{Refusal, Side};

// What became of a change; the book that it gave back takes the place of the one before.
fn changed(rt: &impl Print, change: Applied, book: &mut OrderBook) {
    output::told(rt, Told::of(change.outcome));
    *book = change.book;
}

fn asked(book: &OrderBook, line: &[u8]) -> Result<Value, Refusal> {
    let question = questions::numbered::question_of(
        number(line, 1),
        side(line, 2),
        small(line, 3),
        number(line, 4),
    )?;
    questions::ask(*book, question)
}

fn listing(line: &[u8]) -> Result<Listing, Refusal> {
    listings::numbered::listing_of(
        number(line, 1),
        side(line, 2),
        number(line, 3),
        small(line, 4),
    )
}

// How many places a listing fills in a buffer of so many.
fn places(book: &OrderBook, line: &[u8]) -> Result<u64, Refusal> {
    listings::places(*book, listing(line)?, number(line, 5) as usize)
}

// Writes a listing, and answers how many numbers it has.
fn written(book: &OrderBook, line: &[u8], list: &mut [u32]) -> Result<u64, Refusal> {
    listings::write(*book, listing(line)?, list)
}

// A listing in a buffer with room for any: an array, since memory is fixed and no heap is used.
fn listed(rt: &impl Print, book: &OrderBook, line: &[u8]) {
    let mut list = [0u32; 512];
    let answer = written(book, line, &mut list);
    output::told(rt, Told::of(answer));
    if let Ok(n) = answer {
        for value in list.iter().take(n as usize) {
            output::value(rt, u64::from(*value));
        }
    }
}

// Another count of a side, with which the record may be no book.
fn set_count(book: &mut OrderBook, of: Side, count: usize) {
    match of {
        Side::Bid => book.bids.count = count,
        Side::Ask => book.asks.count = count,
    }
}

pub fn step(rt: &impl Print, book: &mut OrderBook, kind: u64, line: &[u8]) {
    match kind {
        0 => {
            *book = OrderBook::new();
            output::number(rt, 0);
        }
        1 => changed(rt, book.apply_delta(delta(line)), book),
        2 => changed(rt, book.clear(), book),
        3 => changed(rt, book.remove_all(side(line, 1)), book),
        4 => output::answer_cut(rt, asked(book, line)),
        5 => listed(rt, book, line),
        12 => output::answer_exact(rt, asked(book, line)),
        13 => output::told(rt, Told::of(places(book, line))),
        14 => {
            set_count(book, side(line, 1), number(line, 2) as usize);
            output::number(rt, 0);
        }
        15 => {
            book.sequence = number(line, 1);
            output::number(rt, 0);
        }
        18 => changed(rt, lent::apply_delta_over(*book, delta(line)), book),
        _ => output::put(rt, b"?"),
    }
}

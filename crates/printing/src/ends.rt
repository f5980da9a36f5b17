// The end state of a receiver that is lent, put into output that is lent.
ghost use Rattle.std.specs.Prelude.{◌≡◌, ◌++◌, ◌+◌, ◌≤◌, length};
ghost use Rattle.levels.specs.Table.{levels};
ghost use Rattle.levels.specs.Lent.{levels_in};
ghost use Rattle.decimals.specs.Decimals.{pair, Puts};
ghost use Rattle.orderbook.specs.Lent.{book_in};
ghost use Rattle.printing.specs.Printed.{side_text, sides_text, head_text, end_text};

use decimals::{put, put_byte, put_number, put_pair};
use levels::lent::SideRows;
use orderbook::lent::BookRows;
use receiver::{Receiver, State};

// A level, a word before it.
fn put_level(out: &mut [u8], at: usize, word: &[u8], price: u32, quantity: u32) -> usize
    requires { at + length (word.now ++ pair price quantity) ≤ length out.old }
    ensures { Puts (word.now ++ pair price quantity) at out.old out.new result }
{
    let next = put(out, at, word);
    put_pair(out, next, price as u64, quantity as u64)
}

// A side's levels, best first: those that its rows have places for.
fn put_levels(out: &mut [u8], at: usize, word: &[u8], side: SideRows<'_>) -> usize
    requires { at + length (side_text word.now (levels (levels_in side))) ≤ length out.old }
    ensures { Puts (side_text word.now (levels (levels_in side.entry))) at out.old out.new result }
{
    let mut next = at;
    for i in 0..side.count.min(types::MAX_LEVELS) {
        next = put_level(out, next, word, side.prices[i], side.quantities[i]);
    }
    next
}

// The bids, then the asks.
#[tactic(auto, using(crate::proofs::Texts::pieces), unfolding(crate::specs::Printed::sides_text))]
fn put_sides(out: &mut [u8], at: usize, book: BookRows<'_>) -> usize
    requires { at + length (sides_text (book_in book)) ≤ length out.old }
    ensures { Puts (sides_text (book_in book.entry)) at out.old out.new result }
{
    let next = put_levels(out, at, b"bid ", book.bids);
    put_levels(out, next, b"ask ", book.asks)
}

// Live, and at which number.
#[tactic(auto, using(crate::proofs::Texts::pieces), unfolding(crate::specs::Printed::head_text))]
fn put_head(out: &mut [u8], at: usize, sequence: u64) -> usize
    requires { at + length (head_text sequence) ≤ length out.old }
    ensures { Puts (head_text sequence) at out.old out.new result }
{
    let number = put(out, at, b"live ");
    let feed = put_number(out, number, sequence);
    put_byte(out, feed, b'\n')
}

// The end state: it has at most 12,000 bytes.
#[tactic(auto, using(crate::proofs::Texts::sides_room))]
pub fn put_end(receiver: &Receiver, out: &mut [u8], at: usize) -> usize
    requires { at + 12000 ≤ length out.old }
    ensures { Puts (end_text receiver.now) at out.old out.new result }
{
    let State::Live = receiver.state else {
        return put(out, at, b"waiting\n");
    };
    let book = receiver.book.rows();
    let next = put_head(out, at, book.sequence);
    put_sides(out, next, book)
}

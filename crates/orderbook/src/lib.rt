// The order book: its record, the test for being a book, and its changes. A book is lent as its four rows and changed where it is
// (rows.rt); the methods that take the record by value are thin over that. What a book answers stands in `questions`.
#![tactic(auto)]

ghost use Rattle.std.specs.Prelude.{◌≡◌};
ghost use Rattle.orderbook.specs.Book.{is_book, side_of, empty_book};
ghost use Rattle.orderbook.specs.Lent.{book_in};

pub mod lent; // lent.rt: a book lent to be read
pub mod rows; // rows.rt: a book lent as its rows: tested, and changed in place
pub mod change; // change.rt: apply_delta, clear, remove_all

use lent::BookRows;
use levels::Levels;
use types::{Refusal, Side};

#[repr(C)]
#[derive(Clone, Copy)]
pub struct OrderBook {
    pub bids: Levels,
    pub asks: Levels,
    pub sequence: u64,
}

// A book and what became of the call that gave it back.
#[derive(Clone, Copy)]
pub struct Applied {
    pub book: OrderBook,
    pub outcome: Result<(), Refusal>,
}

impl OrderBook {
    // No levels, sequence 0.
    pub fn new() -> OrderBook
        ensures { result ≡ empty_book }
    {
        OrderBook {
            bids: Levels::empty(),
            asks: Levels::empty(),
            sequence: 0,
        }
    }

    // The book, lent to be read.
    pub fn rows(&self) -> BookRows<'_>
        ensures { book_in result ≡ self.now }
    {
        BookRows {
            bids: self.bids.rows(),
            asks: self.asks.rows(),
            sequence: self.sequence,
        }
    }

    pub fn is_book(self) -> bool
        ensures { result ≡ is_book self }
    {
        self.rows().is_book()
    }

    // One side's table as it stands in the record: a plain accessor, which tests nothing.
    pub fn side(self, side: Side) -> Levels
        ensures { result ≡ side_of side self }
    {
        match side {
            Side::Bid => self.bids,
            Side::Ask => self.asks,
        }
    }
}

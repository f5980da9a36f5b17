// What Rust and C link: thin functions on numbers and lent memory, over the library. A book or a receiver is lent as its four rows (bid
// prices, bid quantities, ask prices, ask quantities) with its counts beside them, a ledger as its three (quantities, averages, realized profits)
// with its totals; each is asked and changed where it stands. An answer comes back as its number and values. Sides, actions, questions, listings
// and worths are named by their numbers; a number that names none gives 2, after 1 for a record that is none.
// Kept as numbers and as rows one by one: the C interface has neither enums with values nor structs of references. The records of an answer
// below are C's layouts for the same reason: an answer's number and values stand beside what the call left.
#![tactic(auto)]

pub mod layout; // layout.rt: the archive's version, and the sizes of the records that cross
pub mod book; // book.rt: the book, its changes, its questions and its listings
pub mod ledger; // ledger.rt: the ledger
pub mod feed; // feed.rt: the lines of the feed
pub mod receiving; // receiving.rt: the receiver

use deltas::Counts;
use orderbook::OrderBook;
use position::{PositionLedger, Totals};
use told::Told;

// A new ledger, and the call's answer.
#[repr(C)]
#[derive(Clone, Copy)]
pub struct LedgerTold {
    pub ledger: PositionLedger,
    pub told: Told,
}

// The totals beside a ledger's rows after a call, and the call's answer.
#[repr(C)]
#[derive(Clone, Copy)]
pub struct TotalsTold {
    pub totals: Totals,
    pub told: Told,
}

// The totals beside a ledger's rows after a day's fills, how many of them were taken, and the answer: 0, or the refusal that ended them.
#[repr(C)]
#[derive(Clone, Copy)]
pub struct DayTold {
    pub totals: Totals,
    pub taken: u64,
    pub told: Told,
}

// A receiver: 0 waiting, 1 live, and the book that it holds. Another number is no receiver.
#[repr(C)]
#[derive(Clone, Copy)]
pub struct Held {
    pub state: u64,
    pub book: OrderBook,
}

// The state and the counts beside a receiver's rows after a line, and the line's outcome.
#[repr(C)]
#[derive(Clone, Copy)]
pub struct TurnTold {
    pub state: u64,
    pub counts: Counts,
    pub told: Told,
}

// What a line reads as: 0 and its kind (1 a delta, 2 a snapshot), or 12. A delta's numbers, and a snapshot's book; what the line does not
// have is 0 or empty.
#[repr(C)]
#[derive(Clone, Copy)]
pub struct LineTold {
    pub told: Told,
    pub side: u64,
    pub action: u64,
    pub price: u32,
    pub quantity: u32,
    pub sequence: u64,
    pub book: OrderBook,
}

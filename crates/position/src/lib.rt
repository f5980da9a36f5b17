// The position ledger: the lots, the average and the realized profit of each of 32 symbols, cash, and commission paid. A ledger is lent as its
// three rows and changed where it is (rows.rt); the methods that take the record by value are thin over that. Crate valuation says what it is
// worth.
#![tactic(auto)]

use amount::Amount;
pub use holding::{Fill, Position};
use types::Refusal;

pub mod lent; // lent.rt: a ledger lent to be read
pub mod rows; // rows.rt: a ledger lent as its rows: tested, and changed in place
mod ledger; // ledger.rt: new, is_ledger, apply, apply_fill, deposit

// A place for each symbol in each row: signed lots, their average price (0 when flat), and the profit realized so far.
// The rows are arrays: C holds the record by this layout, and its memory is fixed, with no heap.
#[repr(C)]
#[derive(Clone, Copy)]
pub struct PositionLedger {
    pub cash: Amount,
    pub commission: Amount,
    pub quantities: [i64; 32],
    pub averages: [u32; 32],
    pub realized: [i64; 32],
}

// What stands beside the rows of a ledger that is lent.
#[repr(C)]
#[derive(Clone, Copy)]
pub struct Totals {
    pub cash: Amount,
    pub commission: Amount,
}

// A ledger after a call, and how the call ended: a refusal gives the ledger back as it was.
#[derive(Clone, Copy)]
pub struct Booked {
    pub ledger: PositionLedger,
    pub outcome: Result<(), Refusal>,
}

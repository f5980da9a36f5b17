// One position and one fill: when each is within its limits, and what the fill makes of the position. The ledger above holds 32 of them.
#![tactic(auto)]

use amount::Amount;
use types::{Price, Quantity, Side};

mod fills; // fills.rt: what a fill moves
mod limits; // limits.rt: the tests
pub mod lent; // lent.rt: positions lent to be read
pub mod rows; // rows.rt: positions in lent rows: read, tested, put

#[derive(Clone, Copy)]
pub struct Fill {
    pub symbol: u32,
    pub side: Side,
    pub quantity: Quantity,
    pub price: Price,
    pub commission: Amount,
}

// Signed lots, their average price (0 when flat), and the profit realized so far.
#[repr(C)]
#[derive(Clone, Copy)]
pub struct Position {
    pub quantity: Amount,
    pub average: u32,
    pub realized: Amount,
}

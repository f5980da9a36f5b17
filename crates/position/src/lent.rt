// A ledger that is lent to be read: the rows of its positions, with its totals beside them. No row is copied. What is asked of a ledger takes this.
use crate::Totals;
use holding::lent::PositionRows;

#[derive(Clone, Copy)]
pub struct LedgerRows<'a> {
    pub positions: PositionRows<'a>,
    pub totals: Totals,
}

// A book that is lent to be read: its four rows, with its counts beside them. No row is copied. What is asked of a book takes this.
use deltas::Counts;
use levels::lent::SideRows;

#[derive(Clone, Copy)]
pub struct BookRows<'a> {
    pub bids: SideRows<'a>,
    pub asks: SideRows<'a>,
    pub sequence: u64,
}

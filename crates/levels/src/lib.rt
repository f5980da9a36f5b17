// One side of a book: a table of at most 128 levels, best first, with one code for bids and asks. The work is done on rows of 128
// places that are lent, so that a book in place, by value and in a receiver share one set of functions and proofs. What is done to the rows
// stands in `changes`, and what is asked of them in `walks`.
#![tactic(auto)]

ghost use Rattle.std.specs.Prelude.{◌≡◌, [], ◌≤◌};
ghost use Rattle.levels.specs.Inner.Found.{ahead_in, reached_in};
ghost use Rattle.levels.specs.Table.{table};
ghost use Rattle.levels.specs.Lent.{levels_in};

pub mod lent; // lent.rt: a side lent to be read
pub mod ordered; // ordered.rt: a side's prices, in its order
pub mod search; // search.rt: which price comes first, and where a price stands or belongs
pub mod formed; // formed.rt: whether two rows and a count are a well-formed side

use lent::SideRows;

// Fixed rows beside a count, and no Vec of levels: no heap is used, and C lends them so.
#[repr(C)]
#[derive(Clone, Copy)]
pub struct Levels {
    pub prices: [u32; 128],
    pub quantities: [u32; 128],
    pub count: usize,
}

// Where a price stands, or before which place it belongs. Not a Result: neither outcome is a failure, and both carry a place that is used.
#[derive(Clone, Copy)]
pub enum Place {
    At(usize),
    Before(usize),
}

impl Place {
    // How many prices are ahead of the price.
    pub fn ahead(self) -> usize
        ensures { result ≡ ahead_in self }
    {
        match self {
            Place::At(i) => i,
            Place::Before(i) => i,
        }
    }

    // How many prices are at the price or ahead of it.
    pub fn reached(self) -> usize
        requires { reached_in self ≤ 128 }
        ensures { result ≡ reached_in self }
    {
        match self {
            Place::At(i) => i + 1,
            Place::Before(i) => i,
        }
    }
}

impl Levels {
    // No levels, and 0 in every place.
    pub fn empty() -> Levels
        ensures { result ≡ table [] }
    {
        Levels {
            prices: [0; 128],
            quantities: [0; 128],
            count: 0,
        }
    }

    // The table, lent to be read.
    pub fn rows(&self) -> SideRows<'_>
        ensures { levels_in result ≡ self.now }
    {
        SideRows {
            prices: &self.prices,
            quantities: &self.quantities,
            count: self.count,
        }
    }
}

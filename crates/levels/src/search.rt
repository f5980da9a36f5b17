// Which of two prices comes first, and where a price stands or belongs: one search, in two counts. Of each block of 16 prices the last is looked at, and
// then the prices of one run of 16 are. Neither count has a branch that hangs on a price, which the processor would have to guess.
ghost use Rattle.std.specs.Prelude.{◌≡◌, true, ◌+◌, ◌≤◌, length, take, drop};
ghost use Rattle.levels.specs.Order.{ahead_of, in_order, count_ahead, place_from};
ghost use Rattle.levels.specs.Lent.{prices_in};
ghost use Rattle.levels.specs.Inner.Ends.{EndIn};

use crate::Place;
use crate::lent::SideRows;
use crate::ordered::Ordered;
use types::Side;

fn ahead(side: Side, a: u32, b: u32) -> bool
    ensures { result ≡ ahead_of side a b }
{
    match side {
        Side::Bid => b < a,
        Side::Ask => a < b,
    }
}

// How many of the prices from place `from` up to place `to` are ahead of `price`.
#[tactic(auto, using(crate::proofs::Rows::count_turn, crate::proofs::Rows::count_end))]
fn count_run(side: Side, prices: &[u32; 128], from: usize, to: usize, price: u32) -> usize
    requires { (length prices.now ≡ 128) × (from ≤ to) × (to ≤ 128) }
    ensures { result ≡ count_ahead side price (drop from (take to prices.now)) }
{
    let mut count: u32 = 0;
    for i in from..to {
        if ahead(side, prices[i], price) {
            count += 1;
        }
    }
    count as usize
}

impl<'a> Ordered<'a> {
    // Where a run of 16 begins in which those of 16 or more prices end that are ahead of `price`: behind the blocks of 16 whose last price is ahead, or
    // earlier, where fewer than 16 prices are left.
    #[tactic(auto, using(crate::proofs::Counts::count_within, crate::proofs::Counts::place_ahead, crate::proofs::Counts::place_behind))]
    fn run_start(self, price: u32) -> usize
        requires { 16 ≤ self.count }
        ensures { (result + 16 ≤ self.entry.count) × EndIn self.entry.side price (prices_in self.entry) result 16 }
    {
        let n = self.count;
        let mut from: usize = 0;
        for last in (15..n).step_by(16) {
            if ahead(self.side, self.prices[last], price) {
                from += 16;
            }
        }
        if n - 16 < from {
            return n - 16;
        }
        from
    }

    // How many prices are ahead of `price`: those before a run in which they end, and those of the run.
    #[tactic(auto, using(crate::proofs::Counts::count_within, crate::proofs::Counts::run_counts))]
    fn count_by_run(self, price: u32) -> usize
        ensures { result ≡ count_ahead self.entry.side price (prices_in self.entry) }
    {
        let n = self.count;
        let mut from: usize = 0;
        let mut to = n;
        if 16 <= n {
            from = self.run_start(price);
            to = from + 16;
        }
        from + count_run(self.side, self.prices, from, to, price)
    }

    // The same. Each arm names its side, so that the compiler makes loops for each, in which nothing asks for the side.
    fn count_ahead(self, price: u32) -> usize
        ensures { result ≡ count_ahead self.entry.side price (prices_in self.entry) }
    {
        let Ordered {
            side,
            prices,
            count,
        } = self;
        match side {
            Side::Bid => Ordered {
                side: Side::Bid,
                prices,
                count,
            }
            .count_by_run(price),
            Side::Ask => Ordered {
                side: Side::Ask,
                prices,
                count,
            }
            .count_by_run(price),
        }
    }

    // Where `price` stands among them, or before which it belongs.
    #[inline(always)]
    #[tactic(auto, using(crate::proofs::Orders::place_at, crate::proofs::Orders::place_before))]
    pub fn find(self, price: u32) -> Place
        ensures { result ≡ place_from self.entry.side price 0 (prices_in self.entry) }
    {
        let at = self.count_ahead(price);
        if at < self.count && self.prices[at] == price {
            return Place::At(at);
        }
        Place::Before(at)
    }
}

impl<'a> SideRows<'a> {
    // Where `price` stands among its prices, which are in the side's order, or before which it belongs.
    #[inline(always)]
    pub fn find(self, side: Side, price: u32) -> Place
        requires { (self.count ≤ 128) × (in_order side (take self.count self.prices.now) ≡ true) }
        ensures { result ≡ place_from side price 0 (take self.entry.count self.entry.prices.now) }
    {
        let prices = Ordered {
            side,
            prices: self.prices,
            count: self.count,
        };
        prices.find(price)
    }
}

// What is asked of a side's levels, best first. No function asks that the rows are a side: u32 numbers and a u32 target bound
// every sum, and each answer is its definition on whatever stands in the rows.
#![tactic(auto)]

ghost use Rattle.std.specs.Prelude.{◌≡◌, ◌≤◌, ◌<◌, length, take};
ghost use Rattle.levels.specs.Table.{levels};
ghost use Rattle.levels.specs.Lent.{levels_in};
ghost use Rattle.walks.specs.Walk.{sum_of, fill_of, reach_from, gaps_of, least_from};

use levels::lent::SideRows;

// The quantity of the first `n` levels together.
#[tactic(auto, using(crate::proofs::Turns::sum_turn, crate::proofs::Turns::sum_end))]
pub fn total(quantities: &[u32; 128], n: usize) -> u64
    requires { (length quantities.now ≡ 128) × (n ≤ 128) }
    ensures { result ≡ sum_of (take n quantities.now) }
{
    let mut sum: u64 = 0;
    for quantity in &quantities[..n] {
        sum += u64::from(*quantity);
    }
    sum
}

// The cost of filling `target` best first, in one walk, or none where the levels hold too little.
#[tactic(auto, using(crate::proofs::Turns::total_turn, crate::proofs::Turns::total_end, crate::proofs::Turns::cost_last, crate::proofs::Turns::cost_more))]
pub fn fill(lent: SideRows<'_>, target: u32) -> Option<u64>
    requires { (lent.count ≤ 128) × (0 < target) }
    ensures { result ≡ fill_of target (levels (levels_in lent.entry)) }
{
    let mut cost: u64 = 0;
    let mut left = target;
    for i in 0..lent.count {
        let price = u64::from(lent.prices[i]);
        let quantity = lent.quantities[i];
        if left <= quantity {
            return Some(cost + price * u64::from(left));
        }
        cost += price * u64::from(quantity);
        left -= quantity;
    }
    None
}

// The price of the first level at which the running total reaches `target`, else the last level's, and 0 if there is none: specs/Walk's own value
// there, which an Option would put in other words.
#[tactic(auto, using(crate::proofs::Turns::reach_last, crate::proofs::Turns::reach_more, crate::proofs::Turns::reach_end))]
pub fn reach(lent: SideRows<'_>, target: u64) -> u32
    requires { lent.count ≤ 128 }
    ensures { result ≡ reach_from 0 target (levels (levels_in lent.entry)) }
{
    let mut last: u32 = 0;
    let mut left = target;
    for i in 0..lent.count {
        let price = lent.prices[i];
        let quantity = u64::from(lent.quantities[i]);
        if left <= quantity {
            return price;
        }
        last = price;
        left -= quantity;
    }
    last
}

// The smallest of `most` and the gaps between neighbours among the first `n` prices.
#[tactic(auto, using(crate::proofs::Turns::least_turn, crate::proofs::Turns::least_end))]
pub fn smallest_gap(prices: &[u32; 128], n: usize, most: u32) -> u32
    requires { (length prices.now ≡ 128) × (n ≤ 128) }
    ensures { result ≡ least_from most (gaps_of (take n prices.now)) }
{
    let mut least = most;
    for i in 1..n {
        least = least.min(prices[i - 1].abs_diff(prices[i]));
    }
    least
}

// Positions that are lent to be read, at prices: one search among those that are open, and one sum.
ghost use Rattle.std.specs.Prelude.{◌≡◌, true};
ghost use Rattle.amount.specs.Whole.{amount};
ghost use Rattle.holding.specs.Lent.{position_in, positions_in};
ghost use Rattle.pricing.specs.Prices.{are_prices, total, first_open, symbol_if};

use crate::{Measure, is_open, measured};
use amount::Amount;
use holding::lent::PositionRows;

// The smallest symbol whose position is open, with a price or without one as asked.
pub fn first_open(positions: PositionRows<'_>, priced: bool, prices: &[u32]) -> Option<u32>
    requires { are_prices prices.now ≡ true }
    ensures { result ≡ symbol_if (first_open priced (position_in positions.entry) prices.now) }
{
    for i in 0..32 {
        if is_open(positions.at(i), priced, prices[i]) {
            return Some(i as u32);
        }
    }
    None
}

// What all positions count for together.
pub fn total(positions: PositionRows<'_>, measure: Measure, prices: &[u32]) -> Amount
    requires { (positions_in positions ≡ true) × (are_prices prices.now ≡ true) }
    ensures { result ≡ amount (total measure (position_in positions.entry) prices.now) }
{
    let mut sum = Amount::of(0);
    for i in 0..32 {
        sum = sum.add(measured(positions.at(i), measure, prices[i]));
    }
    sum
}

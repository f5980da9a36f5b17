// What a fill moves: lots, their average, the profit realized, and what it takes from cash.
ghost use Rattle.std.specs.Prelude.{◌≡◌, ◌<◌, ◌≤◌, ◌/◌, pos, nat_abs, ◌*ℤ◌};
ghost use Rattle.amount.specs.Whole.{amount};
ghost use Rattle.holding.specs.Holding.{signed, grows, average_after, closed_lots, gain, charge, position_after};
ghost use Rattle.holding.specs.Inner.Sizes.{PositionIn, FillIn};

use crate::{Fill, Position};
use amount::Amount;
use types::{Price, Quantity, Side};

// Bought counts up, sold counts down.
fn signed(side: Side, n: u64) -> Amount
    requires { n < 9223372036854775808 }
    ensures { result ≡ amount (signed side n) }
{
    let size = Amount::of(n);
    match side {
        Side::Bid => size,
        Side::Ask => size.negated(),
    }
}

// Whether a fill of this side is on the position's own side, or the position is flat.
fn is_increase(side: Side, quantity: Amount) -> bool
    ensures { result ≡ grows side quantity.value }
{
    match side {
        Side::Bid => !quantity.is_negative(),
        Side::Ask => !quantity.is_positive(),
    }
}

// What a lot costs, rounded down.
fn per_lot(cost: u64, lots: u64) -> u64
    requires { (cost ≤ 200000000000000000) × (0 < lots) × (lots ≤ 2000000000) }
    ensures { result ≡ cost / lots }
{
    cost / lots
}

#[tactic(auto, unfolding(crate::specs::Holding::average_after))]
fn new_average(grown: bool, old: u64, average: u32, n: Quantity, price: Price) -> u32
    requires { (old ≤ 1000000000) × (average ≤ 100000000) × (n ≤ 1000000000) × (price ≤ 100000000) }
    ensures { result ≡ average_after grown old average n price }
{
    let lots = n as u64;
    if lots == 0 {
        return average;
    }
    if grown {
        return per_lot(average as u64 * old + price as u64 * lots, old + lots) as u32;
    }
    if lots < old {
        return average; // a partial close
    }
    if lots == old { 0 } else { price }
}

fn closed_lots(grown: bool, old: u64, n: Quantity) -> u64
    ensures { result ≡ closed_lots grown old n }
{
    if grown { 0 } else { old.min(n as u64) }
}

// What each closed lot earns.
fn gain_of(side: Side, average: u32, price: Price) -> Amount
    requires { (average ≤ 100000000) × (price ≤ 100000000) }
    ensures { result ≡ amount (gain side average price) }
{
    match side {
        Side::Bid => Amount::difference(average as u64, price as u64),
        Side::Ask => Amount::difference(price as u64, average as u64),
    }
}

// What the closed lots earn.
fn earned(grown: bool, old: u64, average: u32, fill: Fill) -> Amount
    requires { (old ≤ 1000000000) × (average ≤ 100000000) × FillIn fill }
    ensures value { result ≡ amount (gain fill.side average fill.price *ℤ pos (closed_lots grown old fill.quantity)) }
    ensures size { nat_abs result.value ≤ 200000000000000000 }
{
    gain_of(fill.side, average, fill.price).times(closed_lots(grown, old, fill.quantity))
}

impl Fill {
    // What the fill takes from cash: its cost with its sign, and its commission.
    pub fn charge(self) -> Amount
        requires { FillIn self }
        ensures { result ≡ amount (charge self) }
    {
        let cost = self.quantity as u64 * self.price as u64;
        signed(self.side, cost).add(self.commission)
    }
}

impl Position {
    #[tactic(auto, using(amount::proofs::Integers::add_size), unfolding(crate::specs::Holding::position_after))]
    pub fn after_fill(self, fill: Fill) -> Position
        requires { PositionIn self × FillIn fill }
        ensures { result ≡ position_after self fill }
    {
        let old = self.quantity.size();
        let grown = is_increase(fill.side, self.quantity);
        let earned = earned(grown, old, self.average, fill);
        Position {
            quantity: self.quantity.add(signed(fill.side, fill.quantity as u64)),
            average: new_average(grown, old, self.average, fill.quantity, fill.price),
            realized: self.realized.add(earned).sub(fill.commission),
        }
    }
}

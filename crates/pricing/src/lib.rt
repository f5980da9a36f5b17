// What a position counts for at a price, the prices that are given for 32 symbols, and when exposures are neutral. The ledger above sums
// over its positions.
#![tactic(auto)]

ghost use Rattle.std.specs.Prelude.{◌≡◌, ◌<◌, ◌≤◌, leb};
ghost use Rattle.std.specs.List.{list_all};
ghost use Rattle.types.specs.Limits.{max_price};
ghost use Rattle.amount.specs.Whole.{amount};
ghost use Rattle.holding.specs.Inner.Sizes.{PositionIn};
ghost use Rattle.pricing.specs.Prices.{are_prices, measured, is_open, is_neutral};

use amount::Amount;
use holding::Position;
use types::MAX_PRICE;

pub mod rows; // rows.rt: sums and searches over positions in lent rows

// What is summed over the positions. An enum, since the definitions name what is summed by it (specs/Prices.antt): of a closure the clauses of each
// sum would say what it asks and answers, no plainer.
#[derive(Clone, Copy)]
pub enum Measure {
    Worth,
    Size,
    Profit,
}

// Whether each is a price or 0 for none.
fn are_within(prices: &[u32]) -> bool
    ensures { result ≡ list_all (λ x. leb x max_price) prices.now }
{
    prices.iter().all(|price| *price <= MAX_PRICE)
}

// Whether these are 32 numbers, each a price or 0 for none: C hands the row of prices over so, with no Option in it.
pub fn are_prices(prices: &[u32]) -> bool
    ensures { result ≡ are_prices prices.now }
{
    prices.len() == 32 && are_within(prices)
}

// What the position counts for at a price: its exposure, the size of that, or its unrealized profit.
pub fn measured(position: Position, measure: Measure, price: u32) -> Amount
    requires { PositionIn position × (price ≤ 100000000) }
    ensures { result ≡ amount (measured measure position price) }
{
    let worth = position.quantity.times(price as u64);
    match measure {
        Measure::Worth => worth,
        Measure::Size => Amount::of(worth.size()),
        Measure::Profit => worth.sub(position.quantity.times(position.average as u64)),
    }
}

// Whether the position is open, with a price or without one as asked.
pub fn is_open(position: Position, priced: bool, price: u32) -> bool
    ensures { result ≡ is_open priced position price }
{
    position.quantity.size() != 0 && (price != 0) == priced
}

// In exact numbers: 100·|net| < gross, though the product may pass a u64. A hundredth of gross is rounded up: below it is below that.
pub fn is_neutral(net: Amount, gross: u64) -> bool
    requires { gross < 9223372036854775808 }
    ensures { result ≡ is_neutral net.value gross }
{
    if gross == 0 {
        return true;
    }
    net.size() < (gross + 99) / 100
}

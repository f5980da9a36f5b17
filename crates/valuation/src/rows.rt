// What a ledger that is lent to be read is worth at given prices: nothing is copied. One search among the open positions and one sum (crate pricing)
// serve every question. Each promise is of the ledger that is lent (position, specs/Lent.antt).
ghost use Rattle.std.specs.Prelude.{◌≡◌};
ghost use Rattle.types.specs.Answers.{reply_of};
ghost use Rattle.position.specs.Lent.{ledger_in};
ghost use Rattle.valuation.specs.Values.{all_priced, unrealized, unrealized_total, liquidation, net_exposure, neutral};

use amount::Amount;
use position::lent::LedgerRows;
use pricing::rows::{first_open, total};
use pricing::{Measure, are_prices, is_neutral, measured};
use types::{Price, Refusal, is_price};

// Whether each open position has a price: 1, 2, then 13.
#[tactic(auto, unfolding(crate::specs::Values::all_priced))]
fn all_priced(ledger: LedgerRows<'_>, prices: &[u32]) -> Result<(), Refusal>
    ensures { reply_of result ≡ all_priced (ledger_in ledger.entry) prices.now }
{
    if !ledger.is_ledger() {
        return Err(Refusal::NotARecord);
    }
    if !are_prices(prices) {
        return Err(Refusal::OutOfLimits);
    }
    match first_open(ledger.positions, false, prices) {
        Some(symbol) => Err(Refusal::Unpriced { symbol }),
        None => Ok(()),
    }
}

// The unrealized profit of one symbol at a price: quantity times price less average.
#[tactic(auto, unfolding(crate::specs::Values::unrealized))]
pub fn checked_unrealized_pnl(
    ledger: LedgerRows<'_>,
    symbol: u32,
    price: Price,
) -> Result<Amount, Refusal>
    ensures { reply_of result ≡ unrealized (ledger_in ledger.entry) symbol price }
{
    if !ledger.is_ledger() {
        return Err(Refusal::NotARecord);
    }
    if symbol >= 32 || !is_price(price) {
        return Err(Refusal::OutOfLimits);
    }
    let position = ledger.positions.at(symbol as usize);
    Ok(measured(position, Measure::Profit, price))
}

// The unrealized profit of all positions.
#[tactic(auto, unfolding(crate::specs::Values::unrealized_total))]
pub fn unrealized_pnl_total(ledger: LedgerRows<'_>, prices: &[u32]) -> Result<Amount, Refusal>
    ensures { reply_of result ≡ unrealized_total (ledger_in ledger.entry) prices.now }
{
    all_priced(ledger, prices)?;
    Ok(total(ledger.positions, Measure::Profit, prices))
}

// Cash and what all positions are worth.
#[tactic(auto, unfolding(crate::specs::Values::liquidation))]
pub fn net_liquidation_value(ledger: LedgerRows<'_>, prices: &[u32]) -> Result<Amount, Refusal>
    ensures { reply_of result ≡ liquidation (ledger_in ledger.entry) prices.now }
{
    all_priced(ledger, prices)?;
    let worth = total(ledger.positions, Measure::Worth, prices);
    Ok(ledger.totals.cash.add(worth))
}

// What the positions that have a price are worth.
#[tactic(auto, unfolding(crate::specs::Values::net_exposure))]
pub fn net_market_exposure(ledger: LedgerRows<'_>, prices: &[u32]) -> Result<Amount, Refusal>
    ensures { reply_of result ≡ net_exposure (ledger_in ledger.entry) prices.now }
{
    if !ledger.is_ledger() {
        return Err(Refusal::NotARecord);
    }
    if !are_prices(prices) {
        return Err(Refusal::OutOfLimits);
    }
    if first_open(ledger.positions, true, prices).is_none() {
        return Err(Refusal::NoValue);
    }
    Ok(total(ledger.positions, Measure::Worth, prices))
}

// Whether the net exposure is below a hundredth of the gross.
#[tactic(auto, unfolding(crate::specs::Values::neutral))]
pub fn delta_neutral_check(ledger: LedgerRows<'_>, prices: &[u32]) -> Result<bool, Refusal>
    ensures { reply_of result ≡ neutral (ledger_in ledger.entry) prices.now }
{
    all_priced(ledger, prices)?;
    let net = total(ledger.positions, Measure::Worth, prices);
    let gross = total(ledger.positions, Measure::Size, prices);
    Ok(is_neutral(net, gross.size()))
}

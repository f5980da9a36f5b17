// What a ledger is worth at given prices. A ledger is lent to be read and asked where it is (rows.rt); the calls that take the record by value are
// thin over that, and stay because docs/PROMISES.md promises them.
#![tactic(auto)]

ghost use Rattle.std.specs.Prelude.{◌≡◌};
ghost use Rattle.types.specs.Answers.{reply_of};
ghost use Rattle.valuation.specs.Values.{unrealized, unrealized_total, liquidation, net_exposure, neutral};

use amount::Amount;
use position::PositionLedger;
use types::{Price, Refusal};

pub mod rows; // rows.rt: a ledger lent to be read

// The unrealized profit of one symbol at a price: quantity times price less average.
pub fn checked_unrealized_pnl(
    ledger: PositionLedger,
    symbol: u32,
    price: Price,
) -> Result<Amount, Refusal>
    ensures { reply_of result ≡ unrealized ledger symbol price }
{
    rows::checked_unrealized_pnl(ledger.rows(), symbol, price)
}

// The unrealized profit of all positions.
pub fn unrealized_pnl_total(ledger: PositionLedger, prices: &[u32]) -> Result<Amount, Refusal>
    ensures { reply_of result ≡ unrealized_total ledger prices.now }
{
    rows::unrealized_pnl_total(ledger.rows(), prices)
}

// Cash and what all positions are worth.
pub fn net_liquidation_value(ledger: PositionLedger, prices: &[u32]) -> Result<Amount, Refusal>
    ensures { reply_of result ≡ liquidation ledger prices.now }
{
    rows::net_liquidation_value(ledger.rows(), prices)
}

// What the positions that have a price are worth.
pub fn net_market_exposure(ledger: PositionLedger, prices: &[u32]) -> Result<Amount, Refusal>
    ensures { reply_of result ≡ net_exposure ledger prices.now }
{
    rows::net_market_exposure(ledger.rows(), prices)
}

// Whether the net exposure is below a hundredth of the gross.
pub fn delta_neutral_check(ledger: PositionLedger, prices: &[u32]) -> Result<bool, Refusal>
    ensures { reply_of result ≡ neutral ledger prices.now }
{
    rows::delta_neutral_check(ledger.rows(), prices)
}

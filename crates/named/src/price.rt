// Questions about the price of trading a target, by the original's names.
ghost use Rattle.std.specs.Prelude.{◌≡◌};
ghost use Rattle.types.specs.Answers.{reply_of};
ghost use Rattle.questions.specs.Questions.{vwap_for_qty, price_impact, price_at_volume};

use crate::kinds::{side_number, trade_price};
use asked::{SideNumber, Trade};
use orderbook::OrderBook;
use quotient::Quotient;
use types::{Quantity, Refusal, Side};

// The cost of filling `target` best first on `side`, over the target: Bid walks bids.
pub fn vwap_for_qty(book: OrderBook, side: Side, target: Quantity) -> Result<Quotient, Refusal>
    ensures { reply_of result ≡ vwap_for_qty side target book }
{
    trade_price(book, side, Trade::VwapForQty(target))
}

// The average price of buying (Bid, which walks asks) or selling (Ask, which walks bids) `target`.
pub fn price_impact(book: OrderBook, side: Side, target: Quantity) -> Result<Quotient, Refusal>
    ensures { reply_of result ≡ price_impact side target book }
{
    trade_price(book, side, Trade::PriceImpact(target))
}

// The price of the level at which the running total reaches `target`.
pub fn price_at_volume(book: OrderBook, side: Side, target: u64) -> Result<u64, Refusal>
    ensures { reply_of result ≡ price_at_volume side target book }
{
    side_number(book, side, SideNumber::PriceAtVolume(target))
}

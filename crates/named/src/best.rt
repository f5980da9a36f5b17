// Questions about the best levels, by the original's names.
ghost use Rattle.std.specs.Prelude.{◌≡◌};
ghost use Rattle.types.specs.Answers.{reply_of};
ghost use Rattle.questions.specs.Questions.{best, best_price_of, best_quantity_of, spread, mid_price, spread_pct, spread_bps, weighted_mid, is_crossed};

use crate::kinds::{best, flag, number, side_number, top_ratio};
use asked::{SideNumber, TopRatio};
use orderbook::OrderBook;
use questions::kinds::{BookFlag, BookNumber};
use quotient::Quotient;
use types::{PriceLevel, Refusal, Side};

pub fn best_bid(book: OrderBook) -> Result<PriceLevel, Refusal>
    ensures { reply_of result ≡ best Side.Bid book }
{
    best(book, Side::Bid)
}

pub fn best_ask(book: OrderBook) -> Result<PriceLevel, Refusal>
    ensures { reply_of result ≡ best Side.Ask book }
{
    best(book, Side::Ask)
}

// The best price of a side.
pub fn best_price(book: OrderBook, side: Side) -> Result<u64, Refusal>
    ensures { reply_of result ≡ best_price_of side book }
{
    side_number(book, side, SideNumber::BestPrice)
}

pub fn best_bid_price(book: OrderBook) -> Result<u64, Refusal>
    ensures { reply_of result ≡ best_price_of Side.Bid book }
{
    best_price(book, Side::Bid)
}

pub fn best_ask_price(book: OrderBook) -> Result<u64, Refusal>
    ensures { reply_of result ≡ best_price_of Side.Ask book }
{
    best_price(book, Side::Ask)
}

// The quantity at the best price of a side.
pub fn best_qty(book: OrderBook, side: Side) -> Result<u64, Refusal>
    ensures { reply_of result ≡ best_quantity_of side book }
{
    side_number(book, side, SideNumber::BestQuantity)
}

pub fn best_bid_qty(book: OrderBook) -> Result<u64, Refusal>
    ensures { reply_of result ≡ best_quantity_of Side.Bid book }
{
    best_qty(book, Side::Bid)
}

pub fn best_ask_qty(book: OrderBook) -> Result<u64, Refusal>
    ensures { reply_of result ≡ best_quantity_of Side.Ask book }
{
    best_qty(book, Side::Ask)
}

// The best ask less the best bid.
pub fn spread(book: OrderBook) -> Result<u64, Refusal>
    ensures { reply_of result ≡ spread book }
{
    number(book, BookNumber::Spread)
}

// The middle of the best prices.
pub fn mid_price(book: OrderBook) -> Result<Quotient, Refusal>
    ensures { reply_of result ≡ mid_price book }
{
    top_ratio(book, TopRatio::MidPrice)
}

// The spread in hundredths of the mid price.
pub fn spread_pct(book: OrderBook) -> Result<Quotient, Refusal>
    ensures { reply_of result ≡ spread_pct book }
{
    top_ratio(book, TopRatio::SpreadPct)
}

// The spread in ten-thousandths of the mid price.
pub fn spread_bps(book: OrderBook) -> Result<Quotient, Refusal>
    ensures { reply_of result ≡ spread_bps book }
{
    top_ratio(book, TopRatio::SpreadBps)
}

// The best prices, each weighed by the other side's best quantity.
pub fn weighted_mid(book: OrderBook) -> Result<Quotient, Refusal>
    ensures { reply_of result ≡ weighted_mid book }
{
    top_ratio(book, TopRatio::WeightedMid)
}

pub fn weighted_mid_price(book: OrderBook) -> Result<Quotient, Refusal>
    ensures { reply_of result ≡ weighted_mid book }
{
    weighted_mid(book)
}

// Whether the best bid is at or above the best ask: never, in a book.
pub fn is_crossed(book: OrderBook) -> Result<bool, Refusal>
    ensures { reply_of result ≡ is_crossed book }
{
    flag(book, BookFlag::IsCrossed)
}

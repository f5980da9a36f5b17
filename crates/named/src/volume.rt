// Questions about counts and quantities, by the original's names.
ghost use Rattle.std.specs.Prelude.{◌≡◌};
ghost use Rattle.types.specs.Answers.{reply_of};
ghost use Rattle.questions.specs.Questions.{level_count, total_levels, sequence_of, is_empty, depth_at, has_price, cumulative_depth, tick_size, total_volume, cumulative_quantity};

use crate::kinds::{flag, number, side_number};
use asked::SideNumber;
use orderbook::OrderBook;
use questions::kinds::{BookFlag, BookNumber};
use types::{Price, Refusal, Side};

// How many levels a side has.
pub fn level_count(book: OrderBook, side: Side) -> Result<u64, Refusal>
    ensures { reply_of result ≡ level_count side book }
{
    side_number(book, side, SideNumber::LevelCount)
}

pub fn bid_count(book: OrderBook) -> Result<u64, Refusal>
    ensures { reply_of result ≡ level_count Side.Bid book }
{
    level_count(book, Side::Bid)
}

pub fn ask_count(book: OrderBook) -> Result<u64, Refusal>
    ensures { reply_of result ≡ level_count Side.Ask book }
{
    level_count(book, Side::Ask)
}

// How many levels both sides have.
pub fn total_levels(book: OrderBook) -> Result<u64, Refusal>
    ensures { reply_of result ≡ total_levels book }
{
    number(book, BookNumber::TotalLevels)
}

// The number of the last delta taken.
pub fn sequence(book: OrderBook) -> Result<u64, Refusal>
    ensures { reply_of result ≡ sequence_of book }
{
    number(book, BookNumber::Sequence)
}

// Whether there are no levels.
pub fn is_empty(book: OrderBook) -> Result<bool, Refusal>
    ensures { reply_of result ≡ is_empty book }
{
    flag(book, BookFlag::IsEmpty)
}

// The quantity at a price.
pub fn depth_at(book: OrderBook, side: Side, price: Price) -> Result<u64, Refusal>
    ensures { reply_of result ≡ depth_at side price book }
{
    side_number(book, side, SideNumber::DepthAt(price))
}

// Whether a side has a level at a price.
pub fn has_price(book: OrderBook, side: Side, price: Price) -> Result<bool, Refusal>
    ensures { reply_of result ≡ has_price side price book }
{
    flag(book, BookFlag::HasPrice(side, price))
}

// The quantity at a price and ahead of it.
pub fn cumulative_depth(book: OrderBook, side: Side, price: Price) -> Result<u64, Refusal>
    ensures { reply_of result ≡ cumulative_depth side price book }
{
    side_number(book, side, SideNumber::CumulativeDepth(price))
}

// The smallest gap between neighbours on either side.
pub fn tick_size(book: OrderBook) -> Result<u64, Refusal>
    ensures { reply_of result ≡ tick_size book }
{
    number(book, BookNumber::TickSize)
}

// The quantity of a side.
pub fn total_volume(book: OrderBook, side: Side) -> Result<u64, Refusal>
    ensures { reply_of result ≡ total_volume side book }
{
    side_number(book, side, SideNumber::TotalVolume)
}

pub fn total_bid_volume(book: OrderBook) -> Result<u64, Refusal>
    ensures { reply_of result ≡ total_volume Side.Bid book }
{
    total_volume(book, Side::Bid)
}

pub fn total_bid_depth(book: OrderBook) -> Result<u64, Refusal>
    ensures { reply_of result ≡ total_volume Side.Bid book }
{
    total_volume(book, Side::Bid)
}

pub fn total_ask_volume(book: OrderBook) -> Result<u64, Refusal>
    ensures { reply_of result ≡ total_volume Side.Ask book }
{
    total_volume(book, Side::Ask)
}

pub fn total_ask_depth(book: OrderBook) -> Result<u64, Refusal>
    ensures { reply_of result ≡ total_volume Side.Ask book }
{
    total_volume(book, Side::Ask)
}

// The quantity of the best `n` levels of a side.
pub fn cumulative_qty(book: OrderBook, side: Side, n: usize) -> Result<u64, Refusal>
    ensures { reply_of result ≡ cumulative_quantity side n book }
{
    side_number(book, side, SideNumber::CumulativeQuantity(n))
}

pub fn cumulative_bid_qty(book: OrderBook, n: usize) -> Result<u64, Refusal>
    ensures { reply_of result ≡ cumulative_quantity Side.Bid n book }
{
    cumulative_qty(book, Side::Bid, n)
}

pub fn cumulative_ask_qty(book: OrderBook, n: usize) -> Result<u64, Refusal>
    ensures { reply_of result ≡ cumulative_quantity Side.Ask n book }
{
    cumulative_qty(book, Side::Ask, n)
}

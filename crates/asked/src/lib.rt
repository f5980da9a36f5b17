// What is asked of sides on lent rows, once it is known that they are a book's: questions of one kind as values, each kind answered by one call. A
// number of one side, a ratio of both best levels, a ratio of both sides' quantities, the price of a trade.
#![tactic(auto)]

ghost use Rattle.std.specs.Prelude.{◌≡◌, true, ◌≤◌};
ghost use Rattle.types.specs.Answers.{reply_of};
ghost use Rattle.levels.specs.Table.{levels};
ghost use Rattle.levels.specs.Lent.{levels_in};
ghost use Rattle.sides.specs.Best.{is_apart};
ghost use Rattle.sides.specs.Inner.Limits.{OfBook, OfSide, BestFits};
ghost use Rattle.asked.specs.Inner.Kinds.{side_number, top_ratio, depth_of_ratio, volume_ratio, trade_price};

pub mod depth; // depth.rt: quantities at, up to and around a price
pub mod price; // price.rt: the price of trading a target

use levels::lent::SideRows;
use quotient::Quotient;
use sides::{top, volume};
use types::{Price, PriceLevel, Quantity, Refusal, Side};

// A number of one side.
#[derive(Clone, Copy)]
pub enum SideNumber {
    BestPrice,
    BestQuantity,
    DepthAt(Price),
    LevelCount,
    TotalVolume,
    CumulativeDepth(Price),
    CumulativeQuantity(usize),
    PriceAtVolume(u64),
}

// A ratio of both best levels.
#[derive(Clone, Copy)]
pub enum TopRatio {
    MidPrice,
    SpreadPct,
    SpreadBps,
    WeightedMid,
}

// A ratio of both sides' quantities, of all their levels or of the best so many.
#[derive(Clone, Copy)]
pub enum VolumeRatio {
    Imbalance,
    DepthRatio(usize),
    BidAskRatio,
    AskBidRatio,
    BidDepthSkew(usize),
}

// The price of a trade of so many lots.
#[derive(Clone, Copy)]
pub enum Trade {
    VwapForQty(Quantity),
    PriceImpact(Quantity),
}

pub fn side_number(side: Side, lent: SideRows<'_>, question: SideNumber) -> Result<u64, Refusal>
    requires { OfSide side lent }
    ensures { reply_of result ≡ side_number side question (levels (levels_in lent.entry)) }
{
    match question {
        SideNumber::BestPrice => top::best_price(top::best_of(lent)),
        SideNumber::BestQuantity => top::best_quantity(top::best_of(lent)),
        SideNumber::DepthAt(price) => depth::depth_at(side, lent, price),
        SideNumber::LevelCount => Ok(lent.count as u64),
        SideNumber::TotalVolume => Ok(volume::best_total(lent, lent.count)),
        SideNumber::CumulativeDepth(price) => depth::cumulative_depth(side, lent, price),
        SideNumber::CumulativeQuantity(k) => Ok(volume::best_total(lent, k)),
        SideNumber::PriceAtVolume(target) => price::volume_price(lent, target),
    }
}

pub fn top_ratio(
    bid: Option<PriceLevel>,
    ask: Option<PriceLevel>,
    question: TopRatio,
) -> Result<Quotient, Refusal>
    requires { (is_apart bid ask ≡ true) × BestFits bid × BestFits ask }
    ensures { reply_of result ≡ top_ratio question bid ask }
{
    match question {
        TopRatio::MidPrice => top::mid_price(bid, ask),
        TopRatio::SpreadPct => top::spread_share(bid, ask, 200),
        TopRatio::SpreadBps => top::spread_share(bid, ask, 20_000),
        TopRatio::WeightedMid => top::weighted_mid(bid, ask),
    }
}

impl VolumeRatio {
    // How many levels of each side it takes, of `all`.
    pub fn depth(self, all: usize) -> usize
        ensures { result ≡ depth_of_ratio self all }
    {
        match self {
            VolumeRatio::DepthRatio(k) => k,
            VolumeRatio::BidDepthSkew(k) => k,
            VolumeRatio::Imbalance => all,
            VolumeRatio::BidAskRatio => all,
            VolumeRatio::AskBidRatio => all,
        }
    }
}

// Of the quantity of the bids and that of the asks that it takes.
pub fn volume_ratio(bid: u64, ask: u64, question: VolumeRatio) -> Result<Quotient, Refusal>
    requires { (bid ≤ 128000000000) × (ask ≤ 128000000000) }
    ensures { reply_of result ≡ volume_ratio question bid ask }
{
    match question {
        VolumeRatio::Imbalance => volume::imbalance(bid, ask),
        VolumeRatio::DepthRatio(_) => volume::ratio(bid, ask),
        VolumeRatio::BidAskRatio => volume::bid_ask_ratio(bid, ask),
        VolumeRatio::AskBidRatio => volume::ratio(ask, bid),
        VolumeRatio::BidDepthSkew(_) => volume::skew(bid, ask),
    }
}

// On the side that the trade walks.
pub fn trade_price(lent: SideRows<'_>, trade: Trade) -> Result<Quotient, Refusal>
    requires { OfBook lent }
    ensures { reply_of result ≡ trade_price trade (levels (levels_in lent.entry)) }
{
    match trade {
        Trade::VwapForQty(target) => price::vwap(lent, target),
        Trade::PriceImpact(target) => price::impact(lent, target),
    }
}

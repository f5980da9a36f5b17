// Questions about the ratios of the sides' quantities, by the original's names.
ghost use Rattle.std.specs.Prelude.{◌≡◌};
ghost use Rattle.types.specs.Answers.{reply_of};
ghost use Rattle.questions.specs.Questions.{imbalance, depth_ratio, bid_ask_ratio, ask_bid_ratio, bid_depth_skew};

use crate::kinds::volume_ratio;
use asked::VolumeRatio;
use orderbook::OrderBook;
use quotient::Quotient;
use types::Refusal;

// The signed difference of the sides' quantities, over their sum.
pub fn imbalance(book: OrderBook) -> Result<Quotient, Refusal>
    ensures { reply_of result ≡ imbalance book }
{
    volume_ratio(book, VolumeRatio::Imbalance)
}

pub fn depth_imbalance(book: OrderBook) -> Result<Quotient, Refusal>
    ensures { reply_of result ≡ imbalance book }
{
    imbalance(book)
}

// The best `n` bids' quantity over the best `n` asks'.
pub fn depth_ratio(book: OrderBook, n: usize) -> Result<Quotient, Refusal>
    ensures { reply_of result ≡ depth_ratio n book }
{
    volume_ratio(book, VolumeRatio::DepthRatio(n))
}

// The bids' quantity over the asks'.
pub fn bid_ask_ratio(book: OrderBook) -> Result<Quotient, Refusal>
    ensures { reply_of result ≡ bid_ask_ratio book }
{
    volume_ratio(book, VolumeRatio::BidAskRatio)
}

// The asks' quantity over the bids'.
pub fn ask_bid_ratio(book: OrderBook) -> Result<Quotient, Refusal>
    ensures { reply_of result ≡ ask_bid_ratio book }
{
    volume_ratio(book, VolumeRatio::AskBidRatio)
}

// The best `n` bids' quantity over that of the best `n` of both sides.
pub fn bid_depth_skew(book: OrderBook, n: usize) -> Result<Quotient, Refusal>
    ensures { reply_of result ≡ bid_depth_skew n book }
{
    volume_ratio(book, VolumeRatio::BidDepthSkew(n))
}

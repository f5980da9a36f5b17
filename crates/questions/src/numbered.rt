// The questions by their numbers, for callers that are not Rattle: the C interface hands over the number of a kind, and no enum.
ghost use Rattle.std.specs.Prelude.{◌≡◌};
ghost use Rattle.types.specs.Answers.{reply_of};
ghost use Rattle.questions.specs.Numbered.{question_named};

use crate::Question;
use crate::kinds::{BookFlag, BookNumber};
use asked::{SideNumber, TopRatio, Trade, VolumeRatio};
use types::{Price, Refusal, Side};

// The questions from 0 to 27; 2 for any other number. `small` is a price or a quantity, `large` a count or a volume.
pub fn question_of(number: u64, side: Side, small: Price, large: u64) -> Result<Question, Refusal>
    ensures { reply_of result ≡ question_named number side small large }
{
    Ok(match number {
        0 => Question::Best(side),
        1 => Question::OfSide(side, SideNumber::BestPrice),
        2 => Question::OfSide(side, SideNumber::BestQuantity),
        3 => Question::BestQuote,
        4 => Question::Number(BookNumber::Spread),
        5 => Question::OfTops(TopRatio::MidPrice),
        6 => Question::OfTops(TopRatio::SpreadPct),
        7 => Question::OfTops(TopRatio::SpreadBps),
        8 => Question::OfTops(TopRatio::WeightedMid),
        9 => Question::OfSide(side, SideNumber::DepthAt(small)),
        10 => Question::Flag(BookFlag::HasPrice(side, small)),
        11 => Question::OfSide(side, SideNumber::LevelCount),
        12 => Question::Number(BookNumber::TotalLevels),
        13 => Question::Number(BookNumber::Sequence),
        14 => Question::Flag(BookFlag::IsEmpty),
        15 => Question::Flag(BookFlag::IsCrossed),
        16 => Question::OfSide(side, SideNumber::TotalVolume),
        17 => Question::OfSide(side, SideNumber::CumulativeDepth(small)),
        18 => Question::OfSide(side, SideNumber::CumulativeQuantity(large as usize)),
        19 => Question::Number(BookNumber::TickSize),
        20 => Question::OfVolumes(VolumeRatio::Imbalance),
        21 => Question::OfVolumes(VolumeRatio::DepthRatio(large as usize)),
        22 => Question::OfVolumes(VolumeRatio::BidAskRatio),
        23 => Question::OfVolumes(VolumeRatio::AskBidRatio),
        24 => Question::OfVolumes(VolumeRatio::BidDepthSkew(large as usize)),
        25 => Question::Traded(side, Trade::VwapForQty(small)),
        26 => Question::Traded(side, Trade::PriceImpact(small)),
        27 => Question::OfSide(side, SideNumber::PriceAtVolume(large)),
        _ => return Err(Refusal::OutOfLimits),
    })
}

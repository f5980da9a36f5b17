// The quantity of a side's best levels, and what is made of a bid quantity and an ask quantity. A zero denominator gives 10.
ghost use Rattle.std.specs.Prelude.{◌≡◌, ◌≤◌};
ghost use Rattle.types.specs.Answers.{reply_of};
ghost use Rattle.levels.specs.Table.{levels};
ghost use Rattle.levels.specs.Lent.{levels_in};
ghost use Rattle.sides.specs.Inner.Limits.{OfBook};
ghost use Rattle.sides.specs.Questions.{best_total, imbalance_of, ratio_of, bid_ask_ratio_of, skew_of};

use amount::Amount;
use levels::lent::SideRows;
use quotient::Quotient;
use types::Refusal;

// The quantity of the best `k` levels; of all there are, where there are fewer.
pub fn best_total(lent: SideRows<'_>, k: usize) -> u64
    requires { OfBook lent }
    ensures { (result ≡ best_total k (levels (levels_in lent.entry))) × (result ≤ 128000000000) }
{
    walks::total(lent.quantities, k.min(lent.count))
}

pub fn imbalance(bid: u64, ask: u64) -> Result<Quotient, Refusal>
    requires { (bid ≤ 128000000000) × (ask ≤ 128000000000) }
    ensures { reply_of result ≡ imbalance_of bid ask }
{
    Quotient::over(Amount::difference(bid, ask), bid + ask)
}

// One quantity over another.
pub fn ratio(top: u64, bottom: u64) -> Result<Quotient, Refusal>
    requires { top ≤ 128000000000 }
    ensures { reply_of result ≡ ratio_of top bottom }
{
    Quotient::over(Amount::of(top), bottom)
}

pub fn bid_ask_ratio(bid: u64, ask: u64) -> Result<Quotient, Refusal>
    requires { bid ≤ 128000000000 }
    ensures { reply_of result ≡ bid_ask_ratio_of bid ask }
{
    if bid == 0 {
        return Err(Refusal::NoValue);
    }
    ratio(bid, ask)
}

pub fn skew(bid: u64, ask: u64) -> Result<Quotient, Refusal>
    requires { (bid ≤ 128000000000) × (ask ≤ 128000000000) }
    ensures { reply_of result ≡ skew_of bid ask }
{
    Quotient::over(Amount::of(bid), bid + ask)
}

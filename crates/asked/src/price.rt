// The price of trading a target on one side, and the price reached at a volume. A target outside its limits gives 2.
ghost use Rattle.std.specs.Prelude.{◌≡◌, ◌≤◌, ◌<◌};
ghost use Rattle.types.specs.Replies.{refuse};
ghost use Rattle.types.specs.Answers.{reply_of};
ghost use Rattle.levels.specs.Table.{levels};
ghost use Rattle.levels.specs.Lent.{levels_in};
ghost use Rattle.sides.specs.Inner.Limits.{OfBook};
ghost use Rattle.sides.specs.Questions.{price_or, vwap_of, impact_of, volume_price_of};

use amount::Amount;
use levels::lent::SideRows;
use quotient::Quotient;
use types::Refusal;

// The cost of filling the target best first, over the target; `short` where the levels hold too little. Both prices below are this one walk.
fn price_or(lent: SideRows<'_>, target: u32, short: Refusal) -> Result<Quotient, Refusal>
    requires { OfBook lent × (0 < target) × (target ≤ 1000000000) }
    ensures { reply_of result ≡ price_or (refuse short) target (levels (levels_in lent.entry)) }
{
    let cost = walks::fill(lent, target).ok_or(short)?;
    Quotient::over(Amount::of(cost), target as u64)
}

pub fn vwap(lent: SideRows<'_>, target: u32) -> Result<Quotient, Refusal>
    requires { OfBook lent }
    ensures { reply_of result ≡ vwap_of target (levels (levels_in lent.entry)) }
{
    if !types::is_quantity(target) {
        return Err(Refusal::OutOfLimits);
    }
    if target == 0 {
        return Quotient::over(Amount::of(0), 1);
    }
    price_or(lent, target, Refusal::InsufficientLiquidity { target })
}

pub fn impact(lent: SideRows<'_>, target: u32) -> Result<Quotient, Refusal>
    requires { OfBook lent }
    ensures { reply_of result ≡ impact_of target (levels (levels_in lent.entry)) }
{
    if !types::is_quantity(target) {
        return Err(Refusal::OutOfLimits);
    }
    if target == 0 {
        return Err(Refusal::NoValue);
    }
    price_or(lent, target, Refusal::NoValue)
}

#[tactic(auto, using(crate::proofs::Prices::volume_limit))]
pub fn volume_price(lent: SideRows<'_>, target: u64) -> Result<u64, Refusal>
    requires { OfBook lent }
    ensures { reply_of result ≡ volume_price_of target (levels (levels_in lent.entry)) }
{
    if types::MAX_VOLUME < target {
        return Err(Refusal::OutOfLimits);
    }
    if lent.count == 0 || target == 0 {
        return Err(Refusal::NoValue);
    }
    Ok(walks::reach(lent, target) as u64)
}

// Quantities at a price, up to a price, and how far prices lie apart. A price outside the limits gives 2.
ghost use Rattle.std.specs.Prelude.{◌≡◌, ◌++◌, take};
ghost use Rattle.levels.specs.Table.{levels};
ghost use Rattle.levels.specs.Lent.{levels_in};
ghost use Rattle.types.specs.Answers.{reply_of};
ghost use Rattle.walks.specs.Walk.{gaps_of, least_of};
ghost use Rattle.sides.specs.Inner.Limits.{OfSide, PricesFit};
ghost use Rattle.sides.specs.Questions.{depth_at, has_price, cumulative_depth};

use levels::Place;
use levels::lent::SideRows;
use types::{Refusal, Side};

pub fn depth_at(side: Side, lent: SideRows<'_>, price: u32) -> Result<u64, Refusal>
    requires { OfSide side lent }
    ensures { reply_of result ≡ depth_at price (levels (levels_in lent.entry)) }
{
    if !types::is_price(price) {
        return Err(Refusal::OutOfLimits);
    }
    let place = lent.find(side, price);
    match place {
        Place::At(i) => Ok(lent.quantities[i] as u64),
        Place::Before(_) => Err(Refusal::NoValue),
    }
}

pub fn has_price(side: Side, lent: SideRows<'_>, price: u32) -> Result<bool, Refusal>
    requires { OfSide side lent }
    ensures { reply_of result ≡ has_price price (levels (levels_in lent.entry)) }
{
    if !types::is_price(price) {
        return Err(Refusal::OutOfLimits);
    }
    let place = lent.find(side, price);
    Ok(match place {
        Place::At(_) => true,
        Place::Before(_) => false,
    })
}

pub fn cumulative_depth(side: Side, lent: SideRows<'_>, price: u32) -> Result<u64, Refusal>
    requires { OfSide side lent }
    ensures { reply_of result ≡ cumulative_depth side price (levels (levels_in lent.entry)) }
{
    if !types::is_price(price) {
        return Err(Refusal::OutOfLimits);
    }
    let reached = lent.find(side, price).reached();
    Ok(walks::total(lent.quantities, reached))
}

// The smallest gap on either side; 10 where neither side has two levels.
pub fn tick_size(bids: SideRows<'_>, asks: SideRows<'_>) -> Result<u64, Refusal>
    requires { PricesFit bids × PricesFit asks }
    ensures { reply_of result ≡ least_of (gaps_of (take bids.entry.count bids.entry.prices.now) ++ gaps_of (take asks.entry.count asks.entry.prices.now)) }
{
    if bids.count < 2 && asks.count < 2 {
        return Err(Refusal::NoValue);
    }
    let least = walks::smallest_gap(bids.prices, bids.count, types::MAX_PRICE);
    Ok(walks::smallest_gap(asks.prices, asks.count, least) as u64)
}

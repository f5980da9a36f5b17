// The best levels of both sides, and what is made of them: an empty side gives 10.
ghost use Rattle.std.specs.Prelude.{◌≡◌, true, ◌≤◌};
ghost use Rattle.levels.specs.Table.{levels};
ghost use Rattle.levels.specs.Lent.{levels_in};
ghost use Rattle.types.specs.Answers.{reply_of};
ghost use Rattle.types.specs.Replies.{map_reply};
ghost use Rattle.sides.specs.Best.{best_of, is_apart};
ghost use Rattle.sides.specs.Questions.{best_level, of_both, quote_of, spread_of, mid_of, spread_share_of, weighted_mid_of};
ghost use Rattle.sides.specs.Inner.Limits.{BestFits};

use amount::Amount;
use levels::lent::SideRows;
use quotient::Quotient;
use types::{PriceLevel, Quote, Refusal};

// The best level of a side.
pub fn best_of(lent: SideRows<'_>) -> Option<PriceLevel>
    requires { lent.count ≤ 128 }
    ensures { result ≡ best_of (levels (levels_in lent.entry)) }
{
    if lent.count == 0 {
        None
    } else {
        Some(PriceLevel {
            price: lent.prices[0],
            quantity: lent.quantities[0],
        })
    }
}

// Whether the best bid is below the best ask, if both exist.
pub fn is_apart(bid: Option<PriceLevel>, ask: Option<PriceLevel>) -> bool
    ensures { result ≡ is_apart bid ask }
{
    match (bid, ask) {
        (Some(b), Some(a)) => b.price < a.price,
        _ => true,
    }
}

pub fn best_level(best: Option<PriceLevel>) -> Result<PriceLevel, Refusal>
    ensures { reply_of result ≡ best_level best }
{
    best.ok_or(Refusal::NoValue)
}

pub fn best_price(best: Option<PriceLevel>) -> Result<u64, Refusal>
    ensures { reply_of result ≡ map_reply (λ l. l.price) (best_level best) }
{
    Ok(best_level(best)?.price as u64)
}

pub fn best_quantity(best: Option<PriceLevel>) -> Result<u64, Refusal>
    ensures { reply_of result ≡ map_reply (λ l. l.quantity) (best_level best) }
{
    Ok(best_level(best)?.quantity as u64)
}

pub fn best_quote(bid: Option<PriceLevel>, ask: Option<PriceLevel>) -> Result<Quote, Refusal>
    ensures { reply_of result ≡ of_both quote_of bid ask }
{
    Ok(Quote {
        bid: best_level(bid)?,
        ask: best_level(ask)?,
    })
}

pub fn spread(bid: Option<PriceLevel>, ask: Option<PriceLevel>) -> Result<u64, Refusal>
    requires { is_apart bid ask ≡ true }
    ensures { reply_of result ≡ of_both spread_of bid ask }
{
    let Quote { bid, ask } = best_quote(bid, ask)?;
    Ok((ask.price - bid.price) as u64)
}

pub fn mid_price(bid: Option<PriceLevel>, ask: Option<PriceLevel>) -> Result<Quotient, Refusal>
    ensures { reply_of result ≡ of_both mid_of bid ask }
{
    let Quote { bid, ask } = best_quote(bid, ask)?;
    let sum = bid.price as u64 + ask.price as u64;
    Quotient::over(Amount::of(sum), 2)
}

// `times` times the spread, over the sum of the best prices.
pub fn spread_share(
    bid: Option<PriceLevel>,
    ask: Option<PriceLevel>,
    times: u32,
) -> Result<Quotient, Refusal>
    requires { (is_apart bid ask ≡ true) × (times ≤ 20000) }
    ensures { reply_of result ≡ of_both (spread_share_of times) bid ask }
{
    let Quote { bid, ask } = best_quote(bid, ask)?;
    let spread = (ask.price - bid.price) as u64;
    let sum = bid.price as u64 + ask.price as u64;
    Quotient::over(Amount::of(times as u64 * spread), sum)
}

pub fn weighted_mid(bid: Option<PriceLevel>, ask: Option<PriceLevel>) -> Result<Quotient, Refusal>
    requires { BestFits bid × BestFits ask }
    ensures { reply_of result ≡ of_both weighted_mid_of bid ask }
{
    let Quote { bid, ask } = best_quote(bid, ask)?;
    let weighed = bid.price as u64 * ask.quantity as u64 + ask.price as u64 * bid.quantity as u64;
    Quotient::over(
        Amount::of(weighed),
        bid.quantity as u64 + ask.quantity as u64,
    )
}

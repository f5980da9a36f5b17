// The listings by their numbers, for callers that are not Rattle: the C interface hands over the number of a kind, and no enum.
ghost use Rattle.std.specs.Prelude.{◌≡◌};
ghost use Rattle.types.specs.Answers.{reply_of};
ghost use Rattle.listings.specs.Numbered.{narrowed, listing_named};

use crate::Listing;
use types::{Price, Refusal, Side};

// A number that no price can be becomes 0, which is none either.
fn narrowed(number: u64) -> Price
    ensures { result ≡ narrowed number }
{
    u32::try_from(number).unwrap_or(0)
}

// The listings from 0 to 2; 2 for any other number. `from` is a count, or the lower price of a range up to `to`.
pub fn listing_of(number: u64, side: Side, from: u64, to: Price) -> Result<Listing, Refusal>
    ensures { reply_of result ≡ listing_named number side from to }
{
    Ok(match number {
        0 => Listing::Top(side, from as usize),
        1 => Listing::Snapshot(from as usize),
        2 => Listing::Between(side, narrowed(from), to),
        _ => return Err(Refusal::OutOfLimits),
    })
}

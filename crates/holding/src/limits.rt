// When a fill and a position are within their limits.
ghost use Rattle.std.specs.Prelude.{◌≡◌};
ghost use Rattle.holding.specs.Holding.{is_average, is_position, is_fill};

use crate::{Fill, Position};
use types::{MAX_COMMISSION, MAX_MONEY, MAX_POSITION, is_price, is_quantity};

impl Fill {
    #[tactic(auto, unfolding(crate::specs::Holding::is_fill))]
    pub fn is_fill(self) -> bool
        ensures { result ≡ is_fill self }
    {
        self.symbol < 32
            && is_quantity(self.quantity)
            && is_price(self.price)
            && self.commission.within(MAX_COMMISSION)
    }
}

fn is_average(size: u64, average: u32) -> bool
    ensures { result ≡ is_average size average }
{
    if size == 0 {
        return average == 0;
    }
    is_price(average)
}

impl Position {
    #[tactic(auto, unfolding(crate::specs::Holding::is_position))]
    pub fn is_position(self) -> bool
        ensures { result ≡ is_position self }
    {
        self.quantity.within(MAX_POSITION)
            && self.realized.within(MAX_MONEY)
            && is_average(self.quantity.size(), self.average)
    }
}

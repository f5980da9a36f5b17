// Positions that stand in three lent rows, a place for each symbol: quantities, averages, realized profits.
ghost use Rattle.std.specs.Prelude.{◌≡◌, ◌<◌, set};
ghost use Rattle.holding.specs.Lent.{position_in, positions_in};

use crate::Position;
use crate::lent::PositionRows;
use amount::Amount;

impl<'a> PositionRows<'a> {
    // The position of a symbol.
    pub fn at(self, symbol: usize) -> Position
        requires { symbol < 32 }
        ensures { result ≡ position_in self.entry symbol }
    {
        Position {
            quantity: Amount {
                value: self.quantities[symbol],
            },
            average: self.averages[symbol],
            realized: Amount {
                value: self.realized[symbol],
            },
        }
    }

    // Whether the position of each symbol is within its limits.
    pub fn are_positions(self) -> bool
        ensures { result ≡ positions_in self.entry }
    {
        for i in 0..32 {
            if !self.at(i).is_position() {
                return false;
            }
        }
        true
    }
}

// Puts a position in the place of a symbol.
// The rows that change are lent one by one, as C lends them: of a struct of `&mut` rows a clause names each by its place alone, no plainer.
pub fn put(
    quantities: &mut [i64; 32],
    averages: &mut [u32; 32],
    realized: &mut [i64; 32],
    symbol: usize,
    position: Position,
)
    requires { symbol < 32 }
    ensures { (quantities.new ≡ set quantities.old symbol position.quantity.value) × (averages.new ≡ set averages.old symbol position.average) × (realized.new ≡ set realized.old symbol position.realized.value) }
{
    quantities[symbol] = position.quantity.value;
    averages[symbol] = position.average;
    realized[symbol] = position.realized.value;
}

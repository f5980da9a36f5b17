// A side's prices that are lent to be read, in the side's order. What looks for a price takes this, and every place that makes one shows that it is in order.
ghost use Rattle.std.specs.Prelude.{◌≡◌, ◌≤◌, true, length, take};
ghost use Rattle.levels.specs.Order.{in_order};

use types::Side;

#[derive(Clone, Copy)]
pub struct Ordered<'a> {
    pub side: Side,
    pub prices: &'a [u32; 128],
    pub count: usize,
    ghost long: { length prices.now ≡ 128 },
    ghost few: { count ≤ 128 },
    ghost order: { in_order side (take count prices.now) ≡ true },
}

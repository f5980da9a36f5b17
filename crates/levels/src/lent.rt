// One side of a book that is lent to be read: its two rows, and how many of their places are used. What is asked of a side takes this.
ghost use Rattle.std.specs.Prelude.{◌≡◌, length};

#[derive(Clone, Copy)]
pub struct SideRows<'a> {
    pub prices: &'a [u32; 128],
    pub quantities: &'a [u32; 128],
    pub count: usize,
    ghost long_prices: { length prices.now ≡ 128 },
    ghost long_quantities: { length quantities.now ≡ 128 },
}

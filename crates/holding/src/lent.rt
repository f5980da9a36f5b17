// Positions that are lent to be read: three rows with a place for each symbol. No row is copied. What is asked of positions takes this.
ghost use Rattle.std.specs.Prelude.{◌≡◌, length};

#[derive(Clone, Copy)]
pub struct PositionRows<'a> {
    pub quantities: &'a [i64; 32],
    pub averages: &'a [u32; 32],
    pub realized: &'a [i64; 32],
    ghost long_quantities: { length quantities.now ≡ 32 },
    ghost long_averages: { length averages.now ≡ 32 },
    ghost long_realized: { length realized.now ≡ 32 },
}

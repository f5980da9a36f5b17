// Whether two rows and a count are a well-formed side. This test comes before every answer, so each loop has the shape that compiles to the
// fewest instructions a place: a count, or all bits laid over each other, and never a way out of the loop.
ghost use Rattle.std.specs.Prelude.{◌≡◌, true, ◌&&◌, map, ◌≤◌, ◌<◌, ◌^◌, eqb, length, take, drop};
ghost use Rattle.std.specs.Int.Bits.{bit_xor};
ghost use Rattle.types.specs.Limits.{within, max_price, max_quantity};
ghost use Rattle.levels.specs.Order.{ahead_of, in_order, steps};
ghost use Rattle.levels.specs.Table.{rows};
ghost use Rattle.levels.specs.Lent.{levels_in};
ghost use Rattle.levels.specs.Formed.{every, zeros, well_formed};

use crate::lent::SideRows;
use types::Side;

// Whether `x` is from `lo` to `hi`.
fn fits(x: u32, lo: u32, hi: u32) -> bool
    ensures { result ≡ within lo hi x }
{
    if x < lo {
        return false;
    }
    x <= hi
}

// Whether `a` is ahead of `b`, the highest bit of both turned: the processor has one instruction for that, and needs three for plain numbers.
// Each arm turns its own, so that the compiler sees it.
fn ahead_turned(side: Side, a: u32, b: u32) -> bool
    ensures { result ≡ ahead_of side (bit_xor a (2 ^ 31)) (bit_xor b (2 ^ 31)) }
{
    match side {
        Side::Bid => b ^ 0x8000_0000 < a ^ 0x8000_0000,
        Side::Ask => a ^ 0x8000_0000 < b ^ 0x8000_0000,
    }
}

// How many of the first `n` prices are, turned, ahead of the next.
#[tactic(auto, using(crate::proofs::Turned::turned_turn, crate::proofs::Turned::turned_end))]
fn count_steps(side: Side, prices: &[u32; 128], n: usize) -> usize
    requires { (length prices.now ≡ 128) × (n ≤ 128) × (0 < n) }
    ensures { result ≡ steps side (take n (map (λ x. bit_xor x (2 ^ 31)) prices.now)) }
{
    let mut count: u32 = 0;
    for i in 0..n - 1 {
        if ahead_turned(side, prices[i], prices[i + 1]) {
            count += 1;
        }
    }
    count as usize
}

// Whether each of the first `n` prices is, turned, ahead of the next. Each arm names its side, so that the compiler makes a loop for each, in
// which nothing asks for the side.
#[tactic(auto, using(crate::proofs::Turned::turned_order))]
fn ordered(side: Side, prices: &[u32; 128], n: usize) -> bool
    requires { (length prices.now ≡ 128) × (n ≤ 128) × (0 < n) }
    ensures { result ≡ in_order side (take n (map (λ x. bit_xor x (2 ^ 31)) prices.now)) }
{
    match side {
        Side::Bid => count_steps(Side::Bid, prices, n) == n - 1,
        Side::Ask => count_steps(Side::Ask, prices, n) == n - 1,
    }
}

// Whether the first `n` prices are in order and in the limits. Turned prices in order lie between the first and the last, so these two are
// in the limits only if all are, and of numbers in the limits the turned ones have the same order.
#[tactic(auto, using(crate::proofs::Turned::turned_in, crate::proofs::Turned::turned_out, crate::proofs::Steps::order_none, crate::proofs::Rows::every_nil))]
fn prices_fit(side: Side, prices: &[u32; 128], n: usize) -> bool
    requires { (length prices.now ≡ 128) × (n ≤ 128) }
    ensures { result ≡ in_order side (take n prices.now) && every (within 1 max_price) (take n prices.now) }
{
    n == 0
        || ordered(side, prices, n)
            && fits(prices[0], 1, types::MAX_PRICE)
            && fits(prices[n - 1], 1, types::MAX_PRICE)
}

// All bits of the row's numbers, laid over each other: no number is above that.
#[tactic(auto, using(crate::proofs::Bits::within_more, crate::proofs::Rows::every_nil, crate::proofs::Rows::every_all))]
fn all_bits(row: &[u32; 128]) -> u32
    requires { length row.now ≡ 128 }
    ensures { every (within 0 result) row.now ≡ true }
{
    let mut bits: u32 = 0;
    for x in row {
        bits |= *x;
    }
    bits
}

// Whether no number of the row is above `hi`.
#[tactic(auto, using(crate::proofs::Rows::row_turn, crate::proofs::Rows::row_end))]
fn all_within(row: &[u32; 128], hi: u32) -> bool
    requires { length row.now ≡ 128 }
    ensures { result ≡ every (within 0 hi) row.now }
{
    let mut ok = true;
    for x in row {
        if !fits(*x, 0, hi) {
            ok = false;
        }
    }
    ok
}

// Whether each number of the row is a quantity in the limits: at once where all bits together are, else one by one.
#[tactic(auto, using(crate::proofs::Ends::wider))]
fn quantities_fit(row: &[u32; 128]) -> bool
    requires { length row.now ≡ 128 }
    ensures { result ≡ every (within 0 max_quantity) row.now }
{
    all_bits(row) <= types::MAX_QUANTITY || all_within(row, types::MAX_QUANTITY)
}

// All bits of both rows' numbers from the place `from` to the one before `to`, laid over each other: 0 where each number is.
#[tactic(auto, using(crate::proofs::Rows::every_end))]
fn bits_between<'a>(
    prices: &'a [u32; 128],
    quantities: &'a [u32; 128],
    from: usize,
    to: usize,
) -> u32
    requires { (length prices.now ≡ 128) × (length quantities.now ≡ 128) × (to ≤ 128) }
    ensures { eqb result 0 ≡ zeros (drop from (take to prices.now)) && zeros (drop from (take to quantities.now)) }
{
    let mut bits: u32 = 0;
    for i in from..to {
        bits |= prices[i] | quantities[i];
    }
    bits
}

// Where the last whole block of 8 places begins.
const LAST_BLOCK: usize = 120;

// Whether both rows have 0 in each place from `n` on. A block of 8 places compiles to a few instructions and no loop: the one at `n`, and those
// at multiples of 8 behind it, of which the first may lie over it. Fewer than 8 places are tested one by one.
#[tactic(auto, using(crate::proofs::Bits::block_before, crate::proofs::Bits::both_end, crate::proofs::Bits::or_zero))]
fn unused_are_zero<'a>(prices: &'a [u32; 128], quantities: &'a [u32; 128], n: usize) -> bool
    requires { (length prices.now ≡ 128) × (length quantities.now ≡ 128) }
    ensures { result ≡ zeros (drop n prices.now) && zeros (drop n quantities.now) }
{
    if LAST_BLOCK < n {
        return bits_between(prices, quantities, n, 128) == 0;
    }
    let mut bits = bits_between(prices, quantities, n, n + 8);
    for i in (8 * (n / 8) + 8..128).step_by(8) {
        bits |= bits_between(prices, quantities, i, i + 8);
    }
    bits == 0
}

// Whether two rows and a count are a well-formed side. They are handed over one by one: a record of them goes through memory, which took longer.
#[inline(never)]
#[tactic(auto, using(crate::proofs::Tables::formed_rows, crate::proofs::Tables::too_many))]
fn rows_formed<'a>(side: Side, prices: &'a [u32; 128], quantities: &'a [u32; 128], n: usize) -> bool
    requires { (length prices.now ≡ 128) × (length quantities.now ≡ 128) }
    ensures { result ≡ well_formed side (rows prices.now quantities.now n) }
{
    n <= 128
        && prices_fit(side, prices, n)
        && unused_are_zero(prices, quantities, n)
        && quantities_fit(quantities)
}

// Whether a side that is lent is well formed.
#[inline(always)]
pub fn well_formed(side: Side, lent: SideRows<'_>) -> bool
    ensures { result ≡ well_formed side (levels_in lent.entry) }
{
    rows_formed(side, lent.prices, lent.quantities, lent.count)
}

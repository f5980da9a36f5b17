// Numbers as hexadecimal digits in lent memory: what the frames of the feed are read and written with. Places and widths count bytes,
// of two digits each. specs/Wire.antt says what the digits, the check byte and a line are.
#![tactic(auto)]

ghost use Rattle.std.specs.Prelude.{◌≡◌, true, [], ◌∷◌, ◌++◌, ◌+◌, ◌-◌, ◌*◌, ◌%◌, ◌^◌, ◌≤◌, ◌<◌, length, take, drop};
ghost use Rattle.wire.specs.Wire.{line_feed, digit as digitOf, value as value_of, digits_of, be, byte_sum, field as field_of, column, Part};
ghost use Rattle.wire.specs.Inner.Spelling.{joined, Spelt};

// A letter from 10 on: there the sum with 6 reaches 16, which costs a shift where a division by 10 costs a product.
#[tactic(auto, unfolding(crate::specs::Wire::digit))]
fn digit(d: u8) -> u8
    requires { d < 16 }
    ensures { result ≡ digitOf d }
{
    48 + d + 7 * ((d + 6) / 16)
}

#[tactic(auto, unfolding(crate::specs::Wire::value))]
fn value(c: u8) -> u8
    ensures { result ≡ value_of c }
{
    (c % 16 + 9 * (c / 64)) % 16
}

// The number in the k bytes from byte `at` on.
pub fn field(line: &[u8], at: usize, k: usize) -> u64
    requires { (2 * (at + k) ≤ length line.now) × (k ≤ 8) }
    ensures { result ≡ field_of at k line.now }
{
    let mut n: u64 = 0;
    for digit in &line[2 * at..2 * (at + k)] {
        n = n * 16 + value(*digit) as u64;
    }
    n
}

// Reads the bytes that n pairs of digits spell to the front of `out`, and says whether these are the bytes' own digits. The bits in which they differ
// are laid over each other, with no way out of the loop, so that it takes many digits a turn.
#[tactic(auto, unfolding(crate::specs::Wire::value))]
pub fn read_bytes(line: &[u8], n: usize, out: &mut [u8]) -> bool
    requires { (2 * n ≤ length line.now) × (n ≤ length out.old) }
    ensures { Spelt n line.now out.old out.new result }
{
    let mut bits: u8 = 0;
    for i in 0..n {
        let a = line[2 * i];
        let b = line[2 * i + 1];
        let x = value(a);
        let y = value(b);
        out[i] = x * 16 + y;
        bits |= (a ^ digit(x)) | (b ^ digit(y));
    }
    bits == 0
}

// The number in the k bytes from place `at` on. One function for this and `field` would take the base as a value, and then no bound of its sum follows.
pub fn number(bytes: &[u8], at: usize, k: usize) -> u64
    requires { (at + k ≤ length bytes.now) × (k ≤ 8) }
    ensures { (result ≡ joined 0 (take k (drop at bytes.now))) × (result < 256 ^ k) }
{
    let mut n: u64 = 0;
    for byte in &bytes[at..at + k] {
        n = n * 256 + *byte as u64;
    }
    n
}

// The bytes added up.
pub fn sum(bytes: &[u8]) -> u64
    requires { length bytes.now ≤ 4096 }
    ensures { result ≡ byte_sum bytes.now }
{
    bytes.iter().map(|byte| *byte as u64).sum()
}

// The number in the 4 bytes from byte `at` on.
pub fn word(line: &[u8], at: usize) -> u32
    requires { 2 * (at + 4) ≤ length line.now }
    ensures { result ≡ field_of at 4 line.now }
{
    field(line, at, 4) as u32
}

// Reads n numbers of 4 bytes, the first of each 8 from byte `at` on, to the front of a row.
pub fn read_column(line: &[u8], at: usize, n: usize, row: &mut [u32])
    requires { (2 * (at + 8 * n) ≤ length line.now + 8) × (n ≤ length row.old) × (n ≤ 128) × (at ≤ 4096) }
    ensures { row.new ≡ column n (drop (2 * at) line.now) ++ drop n row.old }
{
    for i in 0..n {
        row[i] = word(line, at + 8 * i);
    }
}

// Writes the k bytes of n from byte `at` on, and returns their sum.
pub fn put(out: &mut [u8], at: usize, k: usize, n: u64) -> u64
    requires { (2 * (at + k) ≤ length out.old) × (k ≤ 8) }
    ensures { Part (be k n []) at out.old out.new result }
{
    let mut rest = n;
    let mut sum: u64 = 0;
    for j in (0..k).rev() {
        let b = rest % 256;
        let o = 2 * (at + j);
        out[o] = digit((b / 16) as u8);
        out[o + 1] = digit((b % 16) as u8);
        sum += b;
        rest /= 256;
    }
    sum
}

// Writes three numbers, one after the other, and returns the sum of their bytes. Over a slice of numbers it is a loop that proves, but then the
// writer of a side's levels is not unrolled alike: a full snapshot is read in 7.0 microseconds, and in 6.2 by this.
pub fn put3(
    out: &mut [u8],
    at: usize,
    k: usize,
    n: u64,
    k2: usize,
    n2: u64,
    k3: usize,
    n3: u64,
) -> u64
    requires { (2 * (at + k + k2 + k3) ≤ length out.old) × (k ≤ 8) × (k2 ≤ 8) × (k3 ≤ 8) }
    ensures { Part (be k n (be k2 n2 (be k3 n3 []))) at out.old out.new result }
{
    let sum = put(out, at, k, n);
    let sum2 = put(out, at + k, k2, n2);
    let sum3 = put(out, at + k + k2, k3, n3);
    sum + (sum2 + sum3)
}

// Writes at byte `at` the check byte of bytes with this sum, and the line feed.
pub fn finish(out: &mut [u8], at: usize, sum: u64)
    requires { 2 * at + 3 ≤ length out.old }
    ensures { out.new ≡ take (2 * at) out.old ++ (digits_of ((256 - sum % 256) % 256 ∷ []) ++ line_feed ∷ drop (2 * at + 3) out.old) }
{
    put(out, at, 1, (256 - sum % 256) % 256);
    out[2 * at + 2] = 10;
}

// Whether two slices hold the same bytes. It stays a function of its own: must-fail/last_byte_alone_compared.edit holds to it.
pub fn same(a: &[u8], b: &[u8]) -> bool
    ensures { (result ≡ true → a.now ≡ b.now) × (a.now ≡ b.now → result ≡ true) }
{
    a == b
}

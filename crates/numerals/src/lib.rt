// Words read as numbers: decimal digits, zeros in front allowed, and a minus sign before those of a signed number. A number past its limit is none.
// specs/Numerals.antt says which number a word is.
#![tactic(auto)]

ghost use Rattle.std.specs.Prelude.{◌≡◌, ◌≤◌, pos, neg_ℤ};
ghost use Rattle.amount.specs.Whole.{amount};
ghost use Rattle.numerals.specs.Numerals.{numeral_up_to, with_digit, above, below, signed_of};
ghost use Rattle.numerals.specs.Inner.Sizes.{size_of};

use amount::Amount;

// The sizes of the largest and the least i64.
const LARGEST: u64 = i64::MAX as u64;

const LEAST: u64 = LARGEST + 1;

// A number with one more digit.
fn with_digit(n: u64, byte: u8, limit: u64) -> Option<u64>
    requires { 9 ≤ limit }
    ensures { (result ≡ with_digit limit n byte) × (size_of result ≤ limit) }
{
    if byte.is_ascii_digit() {
        let digit = u64::from(byte - b'0');
        if n <= (limit - digit) / 10 {
            return Some(n * 10 + digit);
        }
    }
    None
}

// The number that a word is, up to a limit.
pub fn read_number(word: &[u8], limit: u64) -> Option<u64>
    requires { 9 ≤ limit }
    ensures { (result ≡ numeral_up_to limit word.now) × (size_of result ≤ limit) }
{
    if word.is_empty() {
        return None;
    }
    let mut n = 0;
    for byte in word {
        n = with_digit(n, *byte, limit)?;
    }
    Some(n)
}

// The number below zero of this size.
fn negative(size: u64) -> Amount
    requires { size ≤ 9223372036854775808 }
    ensures { result ≡ amount (neg_ℤ (pos size)) }
{
    if size < LEAST {
        return Amount::of(size).negated();
    }
    Amount { value: i64::MIN }
}

// The number that a word is, a minus sign before its digits or none.
pub fn read_signed(word: &[u8]) -> Option<Amount>
    ensures { result ≡ signed_of word.now }
{
    if let [b'-', digits @ ..] = word {
        let size = read_number(digits, LEAST)?;
        return Some(negative(size));
    }
    let size = read_number(word, LARGEST)?;
    Some(Amount::of(size))
}

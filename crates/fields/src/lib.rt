// The parts of a line that is an operation: a label that ends with a colon and a space, then fields, a space between them. A number that is
// missing is 0, and one that is too large or is no number is the largest, which is outside every limit. A line that begins with #, or has
// no label and does not begin with a digit, is text.
#![tactic(auto)]

ghost use Rattle.std.specs.Prelude.{◌≤◌, length, IfSome};

use amount::Amount;
use deltas::{BookDelta, DeltaAction};
use types::Side;

// The largest i64.
const LARGEST: u64 = i64::MAX as u64;

// Where the first label ends, if there is one.
fn label_end(line: &[u8]) -> Option<usize>
    ensures { IfSome result (λ end. end ≤ length line.now) }
{
    let colon = line
        .windows(2)
        .position(|pair| matches!(pair, [b':', b' ']))?;
    Some(colon + 2)
}

// Where the operation of a line begins: at the line's end where it is text.
pub fn operation(line: &[u8]) -> usize
    ensures { result ≤ length line.now }
{
    match line.first() {
        None | Some(b'#') => line.len(),
        Some(b'0'..=b'9') => label_end(line).unwrap_or(0),
        Some(_) => label_end(line).unwrap_or(line.len()),
    }
}

// The number with one more digit.
fn with_digit(n: u64, byte: u8) -> u64 {
    match byte {
        b'0'..=b'9' => n.saturating_mul(10).saturating_add(u64::from(byte - b'0')),
        _ => u64::MAX,
    }
}

// Where the field of an index begins, from 0: at the line's end where there is none.
pub fn start(line: &[u8], index: usize) -> usize
    ensures { result ≤ length line.now }
{
    let mut before = index;
    for (i, byte) in line.iter().enumerate() {
        if before == 0 {
            return i;
        }
        if *byte == b' ' {
            before -= 1;
        }
    }
    line.len()
}

pub fn number(line: &[u8], index: usize) -> u64 {
    let field = line.split(|byte| *byte == b' ').nth(index).unwrap_or(&[]);
    field.iter().fold(0, |n, byte| with_digit(n, *byte))
}

// The same as a u32.
pub fn small(line: &[u8], index: usize) -> u32 {
    u32::try_from(number(line, index)).unwrap_or(u32::MAX)
}

// How many places of a memory are lent.
pub fn room(line: &[u8], index: usize, most: usize) -> usize
    ensures { result ≤ most }
{
    most.min(number(line, index) as usize)
}

// 0 for a bid, else an ask.
pub fn side(line: &[u8], index: usize) -> Side {
    Side::from(number(line, index) != 0)
}

// An amount, two numbers: whether it is negative, and its size.
pub fn amount(line: &[u8], negative: usize, size: usize) -> Amount {
    let n = number(line, size).min(LARGEST);
    if number(line, negative) == 0 {
        return Amount::of(n);
    }
    Amount::difference(0, n)
}

// A delta: side, action (0 Set, else Remove), price, quantity, sequence.
pub fn delta(line: &[u8]) -> BookDelta {
    BookDelta {
        side: side(line, 1),
        price: small(line, 3),
        quantity: small(line, 4),
        action: DeltaAction::from(number(line, 2) != 0),
        sequence: number(line, 5),
    }
}

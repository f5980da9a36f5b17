// Text put into memory that is lent, each piece behind the one before it: bytes, numbers in decimal digits, with a sign or without, and pairs of
// numbers. Room is asked for, so that nothing is cut.
#![tactic(auto)]

ghost use Rattle.std.specs.Prelude.{◌+◌, ◌≤◌, [], ◌∷◌, length};
ghost use Rattle.decimals.specs.Decimals.{decimal, signed_decimal, pair, Puts};

// Puts bytes at a place, and answers the place behind them.
pub fn put(out: &mut [u8], at: usize, text: &[u8]) -> usize
    requires { at + length text.now ≤ length out.old }
    ensures { Puts text.now at out.old out.new result }
{
    let end = at + text.len();
    out[at..end].copy_from_slice(text);
    end
}

pub fn put_byte(out: &mut [u8], at: usize, byte: u8) -> usize
    requires { at + 1 ≤ length out.old }
    ensures { Puts (byte ∷ []) at out.old out.new result }
{
    out[at] = byte;
    at + 1
}

// The digits stand in an array first: memory is fixed and no heap is used.
pub fn put_number(out: &mut [u8], at: usize, n: u64) -> usize
    requires { at + length (decimal n) ≤ length out.old }
    ensures { Puts (decimal n) at out.old out.new result }
{
    let mut text = [0u8; 20];
    let k = io::decimal(n, &mut text);
    put(out, at, &text[..k])
}

// A whole number: its size, a minus sign before that if it is negative.
pub fn put_whole(out: &mut [u8], at: usize, negative: bool, size: u64) -> usize
    requires { at + length (signed_decimal negative size) ≤ length out.old }
    ensures { Puts (signed_decimal negative size) at out.old out.new result }
{
    if negative {
        let digits = put_byte(out, at, b'-');
        return put_number(out, digits, size);
    }
    put_number(out, at, size)
}

// Two numbers, a space between them and a line feed after them.
pub fn put_pair(out: &mut [u8], at: usize, a: u64, b: u64) -> usize
    requires { at + length (pair a b) ≤ length out.old }
    ensures { Puts (pair a b) at out.old out.new result }
{
    let first = put_number(out, at, a);
    let space = put_byte(out, first, b' ');
    let second = put_number(out, space, b);
    put_byte(out, second, b'\n')
}

// A number behind a space, and a number as a line.
ghost use Rattle.std.specs.Prelude.{◌+◌, ◌≤◌, length};
ghost use Rattle.decimals.specs.Decimals.{Puts};
ghost use Rattle.day_printing.specs.Booked.{value_text, amount_text, line_text, total_text};

use amount::Amount;
use decimals::{put, put_byte, put_whole};

// A space and a number.
#[tactic(auto, using(crate::proofs::Texts::pieces), unfolding(crate::specs::Booked::value_text))]
pub fn put_value(out: &mut [u8], at: usize, negative: bool, size: u64) -> usize
    requires { at + length (value_text negative size) ≤ length out.old }
    ensures { Puts (value_text negative size) at out.old out.new result }
{
    let number = put_byte(out, at, b' ');
    put_whole(out, number, negative, size)
}

pub fn put_amount(out: &mut [u8], at: usize, amount: Amount) -> usize
    requires { at + length (amount_text amount.value) ≤ length out.old }
    ensures { Puts (amount_text amount.value) at out.old out.new result }
{
    put_value(out, at, amount.is_negative(), amount.size())
}

// A word and a number as a line.
#[tactic(auto, using(crate::proofs::Texts::pieces), unfolding(crate::specs::Booked::line_text))]
pub fn put_line(out: &mut [u8], at: usize, word: &[u8], negative: bool, size: u64) -> usize
    requires { at + length (line_text word.now negative size) ≤ length out.old }
    ensures { Puts (line_text word.now negative size) at out.old out.new result }
{
    let value = put(out, at, word);
    let feed = put_value(out, value, negative, size);
    put_byte(out, feed, b'\n')
}

pub fn put_total(out: &mut [u8], at: usize, word: &[u8], amount: Amount) -> usize
    requires { at + length (total_text word.now amount.value) ≤ length out.old }
    ensures { Puts (total_text word.now amount.value) at out.old out.new result }
{
    put_line(out, at, word, amount.is_negative(), amount.size())
}

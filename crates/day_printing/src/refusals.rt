// The refusal that ends a day: its number, the line of the fill, and the values that it carries.
ghost use Rattle.std.specs.Prelude.{◌+◌, ◌≤◌, length};
ghost use Rattle.decimals.specs.Decimals.{Puts};
ghost use Rattle.day_printing.specs.Booked.{carried_text, values_text, place_text, refusal_text, refused_text};

use crate::numbers::put_value;
use decimals::{put, put_byte};
use told::{Told, Whole};

// A value, if it is carried: no Option, since the values stand beside their count in what was told.
fn put_carried(out: &mut [u8], at: usize, is: bool, value: Whole) -> usize
    requires { at + length (carried_text is value) ≤ length out.old }
    ensures { Puts (carried_text is value) at out.old out.new result }
{
    if is {
        return put_value(out, at, value.negative, value.size);
    }
    at
}

#[tactic(auto, using(crate::proofs::Texts::pieces), unfolding(crate::specs::Booked::values_text))]
fn put_values(out: &mut [u8], at: usize, told: Told) -> usize
    requires { at + length (values_text told) ≤ length out.old }
    ensures { Puts (values_text told) at out.old out.new result }
{
    let count = told.count;
    let second = put_carried(out, at, 0 < count, told.first);
    let third = put_carried(out, second, 1 < count, told.second);
    let fourth = put_carried(out, third, 2 < count, told.third);
    put_carried(out, fourth, 3 < count, told.fourth)
}

#[tactic(auto, using(crate::proofs::Texts::pieces), unfolding(crate::specs::Booked::place_text))]
fn put_place(out: &mut [u8], at: usize, number: u64, line: u64) -> usize
    requires { at + length (place_text number line) ≤ length out.old }
    ensures { Puts (place_text number line) at out.old out.new result }
{
    let first = put(out, at, b"refused");
    let word = put_value(out, first, false, number);
    let second = put(out, word, b" at line");
    put_value(out, second, false, line)
}

#[tactic(auto, using(crate::proofs::Texts::pieces), unfolding(crate::specs::Booked::refusal_text))]
fn put_refusal(out: &mut [u8], at: usize, told: Told, line: u64) -> usize
    requires { at + length (refusal_text told line) ≤ length out.old }
    ensures { Puts (refusal_text told line) at out.old out.new result }
{
    let values = put_place(out, at, told.number, line);
    let feed = put_values(out, values, told);
    put_byte(out, feed, b'\n')
}

// The refusal, if there is one: it has at most 160 bytes.
pub fn put_refused(told: Told, line: u64, out: &mut [u8], at: usize) -> usize
    requires { at + 160 ≤ length out.old }
    ensures { Puts (refused_text told line) at out.old out.new result }
{
    if told.number == 0 {
        return at;
    }
    put_refusal(out, at, told, line)
}

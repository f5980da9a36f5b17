// The bytes of a text, one by one: a line feed ends the line that is held, and any other byte is held, while there is room for it.
ghost use Rattle.std.specs.Prelude.{◌≡◌, ◌≤◌, true, false, [], ◌∷◌};
ghost use Rattle.day_keeping.specs.Inner.Keeping.{is_going, kept, line_ended};
ghost use Rattle.day_collecting.specs.Inner.Collecting.{text_taken, Goes};

use crate::line::Line;
use day_keeping::fills::Fills;
use day_keeping::{Collected, fault, next_line, take_line};

const LINE_FEED: u8 = 10;

// The line that is held ends.
fn end_line(rt: &impl Eprint, day: Collected, line: &mut Line, fills: &mut Fills) -> Collected
    ensures few { fills.old.count ≤ 100000 → fills.new.count ≤ 100000 }
    ensures ended { (line.new ≡ []) × (kept result fills.new ≡ line_ended line.old (kept day fills.old)) }
{
    let taken = take_line(rt, day, line.text(), fills);
    line.clear();
    next_line(taken)
}

fn take_byte(
    rt: &impl Eprint,
    day: Collected,
    byte: u8,
    line: &mut Line,
    fills: &mut Fills,
) -> Collected
    requires { is_going day.reading ≡ true }
    ensures few { fills.old.count ≤ 100000 → fills.new.count ≤ 100000 }
    ensures goes { Goes (kept day fills.old) line.old (byte ∷ []) (kept result fills.new) line.new }
{
    if byte == LINE_FEED {
        return end_line(rt, day, line, fills);
    }
    if line.push(byte) {
        return day;
    }
    fault(rt, day, b"longer than 4096 bytes")
}

// Bytes, until nothing more is to be read.
pub fn take_bytes(
    rt: &impl Eprint,
    day: Collected,
    bytes: &[u8],
    line: &mut Line,
    fills: &mut Fills,
) -> Collected
    ensures few { fills.old.count ≤ 100000 → fills.new.count ≤ 100000 }
    ensures goes { Goes (kept day fills.old) line.old bytes.now (kept result fills.new) line.new }
{
    let mut after = day;
    for byte in bytes {
        if !after.is_going() {
            break;
        }
        after = take_byte(rt, after, *byte, line, fills);
    }
    after
}

// The end of the text: what is held is the last line.
pub fn take_last(rt: &impl Eprint, day: Collected, line: &mut Line, fills: &mut Fills) -> Collected
    requires { is_going day.reading ≡ true }
    ensures few { fills.old.count ≤ 100000 → fills.new.count ≤ 100000 }
    ensures ended { (is_going result.reading ≡ false) × (kept result fills.new ≡ text_taken (kept day fills.old) line.old []) }
{
    if line.text().is_empty() {
        return day.finished();
    }
    end_line(rt, day, line, fills).finished()
}

// The text of a day, read a chunk at a time: each line is put together in a buffer of its own and read when it ends. What is kept is promised to be
// what is kept of a text, taken whole; no contract can say that the file has that text.
#![tactic(auto)]

ghost use Rattle.std.specs.Prelude.{◌≡◌, ◌≤◌, true, ◌||◌, List, ℕ};
ghost use Rattle.day_keeping.specs.Inner.Keeping.{is_going, is_good, kept};
ghost use Rattle.day_collecting.specs.Inner.Collecting.{Took, KeptOf};

mod bytes; // bytes.rt: the bytes of a text, one by one
mod line; // line.rt: the line that is put together

use bytes::{take_bytes, take_last};
use day_keeping::fills::Fills;
use day_keeping::{Collected, Reading, fault};
use inputs::fail;
use line::Line;
use std::io::Read;

// The most reads: a text of so many is not read to its end.
const TURNS: u64 = 1_099_511_627_776;

// Reads once and takes what came.
fn take_some<R: Eprint + Alloc>(
    rt: &R,
    day: Collected,
    input: &mut impl Read,
    name: &[u8],
    chunk: &mut [u8; 65536],
    line: &mut Line,
    fills: &mut Fills,
) -> Collected
    requires { is_going day.reading ≡ true }
    ensures few { fills.old.count ≤ 100000 → fills.new.count ≤ 100000 }
    ensures taken { (is_going result.reading || is_good result.reading) ≡ true → Took 65536 (kept day fills.old) line.old (kept result fills.new) line.new }
{
    match input.read(chunk) {
        Ok(0) => take_last(rt, day, line, fills),
        Ok(n) => take_bytes(rt, day, &chunk[..n], line, fills),
        Err(why) => {
            fail(rt, name, why);
            day.failed()
        }
    }
}

// Reads until nothing more is to be read, and keeps the fills of this text alone; also where the reading fails, no more than there is room for.
pub fn collect<R: Eprint + Alloc>(
    rt: &R,
    input: &mut impl Read,
    name: &[u8],
    fills: &mut Fills,
) -> Collected
    ensures few { fills.new.count ≤ 100000 }
    ensures said { is_good result.reading ≡ true → (text : List ℕ) × KeptOf text (kept result fills.new) }
{
    let mut chunk = [0u8; 65536];
    let mut line = Line::new();
    fills.count = 0;
    let mut day = Collected {
        line: 1,
        opening: None,
        reading: Reading::Going,
    };
    for _turn in 0..TURNS {
        if !day.is_going() {
            break;
        }
        day = take_some(rt, day, input, name, &mut chunk, &mut line, fills);
    }
    if day.is_going() {
        return fault(rt, day, b"too long a day");
    }
    day
}

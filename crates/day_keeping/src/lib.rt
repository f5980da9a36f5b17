// What is kept of a day as its lines are read: the opening cash, and each fill as five numbers and the number of its line. The first line that is
// none of a day is said on standard error, and ends the reading. specs/Inner/Keeping.antt says what is kept.
#![tactic(auto)]

ghost use Rattle.std.specs.Prelude.{◌≡◌};
ghost use Rattle.day_lines.specs.Lines.{said};
ghost use Rattle.day_keeping.specs.Inner.Keeping.{is_going, is_good, kept, finished, spoilt, cash_taken, fill_kept, line_taken, next_line};

pub mod fills; // fills.rt: the fills that are kept

use amount::Amount;
use day_lines::Said;
use fills::Fills;
use holding::Fill;
use std::str;

// The most fills of a day.
pub const FILLS: usize = 100_000;

// An opening cash, and the number of its line.
#[derive(Clone, Copy)]
pub struct Opening {
    pub line: u64,
    pub cash: Amount,
}

// More is to be read, all was read, or something went wrong, after which nothing is read.
#[derive(Clone, Copy)]
pub enum Reading {
    Going,
    Ended,
    Failed,
}

// What was read so far: the number of the line that is read, the opening, and whether more is to be read.
#[derive(Clone, Copy)]
pub struct Collected {
    pub line: u64,
    pub opening: Option<Opening>,
    pub reading: Reading,
}

impl Collected {
    // More is to be read.
    pub fn is_going(self) -> bool
        ensures { result ≡ is_going self.reading }
    {
        matches!(self.reading, Reading::Going)
    }

    // Nothing went wrong.
    pub fn is_good(self) -> bool
        ensures { result ≡ is_good self.reading }
    {
        !matches!(self.reading, Reading::Failed)
    }

    // Nothing more is read, and what went well so far is well.
    pub fn finished(self) -> Collected
        ensures { result ≡ finished self }
    {
        match self.reading {
            Reading::Going => Collected {
                reading: Reading::Ended,
                ..self
            },
            Reading::Ended | Reading::Failed => self,
        }
    }

    // Something went wrong.
    pub fn failed(self) -> Collected
        ensures { result ≡ spoilt self }
    {
        Collected {
            reading: Reading::Failed,
            ..self
        }
    }
}

// Says what is wrong with the line that is read, which ends the reading. Bytes that are no text are said as numbers.
pub fn fault(rt: &impl Eprint, day: Collected, what: &[u8]) -> Collected
    ensures { result ≡ spoilt day }
{
    let _ = match str::from_utf8(what) {
        Ok(text) => eprintln!(rt; "line {}: {text}", day.line),
        Err(_) => eprintln!(rt; "line {}: {what:?}", day.line),
    };
    day.failed()
}

// The line is none that a day may have here.
fn misplaced(rt: &impl Eprint, day: Collected) -> Collected
    ensures { result ≡ spoilt day }
{
    match day.opening {
        None => fault(rt, day, b"not an opening cash"),
        Some(_) => fault(rt, day, b"not a fill"),
    }
}

fn open(rt: &impl Eprint, day: Collected, cash: Amount) -> Collected
    ensures { result ≡ cash_taken cash day }
{
    match day.opening {
        None => Collected {
            opening: Some(Opening {
                line: day.line,
                cash,
            }),
            ..day
        },
        Some(_) => misplaced(rt, day),
    }
}

// Keeps a fill, and the line of it.
fn keep(rt: &impl Eprint, day: Collected, fill: Fill, fills: &mut Fills) -> Collected
    ensures { kept result fills.new ≡ fill_kept fill (kept day fills.old) }
{
    if fills.keep(fill, day.line) {
        return day;
    }
    fault(rt, day, b"more than 100000 fills")
}

// Takes a line, its line feed left out.
pub fn take_line(rt: &impl Eprint, day: Collected, line: &[u8], fills: &mut Fills) -> Collected
    ensures { kept result fills.new ≡ line_taken (said line.now) (kept day fills.old) }
{
    match day_lines::read(line) {
        Said::Nothing => day,
        Said::Cash(cash) => open(rt, day, cash),
        Said::Fill(fill) => match day.opening {
            None => misplaced(rt, day),
            Some(_) => keep(rt, day, fill, fills),
        },
        Said::Other => misplaced(rt, day),
    }
}

// The next line begins.
pub fn next_line(day: Collected) -> Collected
    ensures { result ≡ next_line day }
{
    Collected {
        line: day.line.saturating_add(1),
        ..day
    }
}

// What the day programs do: read a day, from the file that the first argument names or else from standard input (`day_collecting`), book its fills
// in one call, and write what is printed of it. All is read before anything is booked, and after a failure nothing is printed. That what is put is
// what is printed of the text that was taken (specs/Days.antt) is promised here; no contract can say what is read or written, and so the rest is
// proved safe and ending, and run.
#![tactic(auto)]

ghost use Rattle.std.specs.Prelude.{◌≡◌, true, List, ℕ, ◌≤◌, length, get_or};
ghost use Rattle.decimals.specs.Decimals.{Puts};
ghost use Rattle.day.specs.Numbers.{day_booked_by};
ghost use Rattle.day_keeping.specs.Inner.Keeping.{is_good, kept};
ghost use Rattle.day_collecting.specs.Inner.Collecting.{KeptOf};
ghost use Rattle.day_booking.specs.Days.{run_text};
ghost use Rattle.day_booking.specs.Inner.Opened.{opened_text, PutsKept};

use amount::Amount;
use day::rows::apply_fills;
use day_collecting::collect;
use day_keeping::fills::Fills;
use day_keeping::{Collected, Opening};
use day_printing::refusals::put_refused;
use day_printing::{Ended, put_day};
use inputs::{Named, is_named, open_named, write_out};
use position::PositionLedger;
use position::lent::LedgerRows;
use std::io::Read;
use std::rt::Runtime;
use told::Told;

// The line of the fill behind those that were taken; 0 where there is no place for one.
fn line_behind(lines: &[u64; 100000], taken: u64) -> u64
    ensures { result ≡ get_or lines.now taken 0 }
{
    lines.get(taken as usize).copied().unwrap_or(0)
}

// Books the fills to a ledger, and puts how the day ended.
fn put_booked(
    mut ledger: PositionLedger,
    numbers: &[i64],
    lines: &[u64; 100000],
    out: &mut [u8],
) -> usize
    requires { 4000 ≤ length out.old }
    ensures { Puts (run_text (day_booked_by ledger numbers.now) lines.now) 0 out.old out.new result }
{
    let mut totals = ledger.totals();
    let day = apply_fills(
        &mut ledger.quantities,
        &mut ledger.averages,
        &mut ledger.realized,
        &mut totals,
        numbers,
    );
    let ended = Ended {
        taken: day.taken,
        told: Told::of(day.outcome),
        line: line_behind(lines, day.taken),
    };
    let booked = LedgerRows::of(
        &ledger.quantities,
        &ledger.averages,
        &ledger.realized,
        totals,
    );
    put_day(booked, ended, out, 0)
}

// The same to a new ledger of this cash, which may be refused.
fn put_opened(
    cash: Amount,
    opened: u64,
    numbers: &[i64],
    lines: &[u64; 100000],
    out: &mut [u8],
) -> usize
    requires { 4000 ≤ length out.old }
    ensures { Puts (opened_text cash.value opened numbers.now lines.now) 0 out.old out.new result }
{
    let made = PositionLedger::new(cash);
    if let Err(why) = made.outcome {
        return put_refused(Told::from(why), opened, out, 0);
    }
    put_booked(made.ledger, numbers, lines, out)
}

// The same of a day that is kept: what is printed of the text that it is kept of.
fn put_kept(day: Collected, opening: Opening, fills: &Fills, out: &mut [u8]) -> usize
    requires { (is_good day.reading ≡ true) × (day.opening ≡ Some opening) × (4000 ≤ length out.old) }
    ensures { PutsKept (kept day fills.now) out.old out.new result }
{
    put_opened(opening.cash, opening.line, fills.used(), &fills.lines, out)
}

// Books a day that was read, and writes what is printed of it.
fn book(rt: &impl Runtime, day: Collected, opening: Opening, fills: &Fills)
    requires { (is_good day.reading ≡ true) × (day.opening ≡ Some opening) × ((text : List ℕ) × KeptOf text (kept day fills.now)) }
{
    let mut space = [0u8; 4096];
    let out: &mut [u8] = &mut space;
    let used = put_kept(day, opening, fills, out);
    write_out(rt, out, used);
}

// Reads a day, and books it if it is one.
fn take_day(rt: &impl Runtime, input: &mut impl Read, name: &[u8]) {
    let mut fills = Fills::new();
    let day = collect(rt, input, name, &mut fills);
    if day.is_good() {
        match day.opening {
            None => {
                let _ = eprintln!(rt; "the day has no opening cash");
            }
            Some(opening) => book(rt, day, opening, &fills),
        }
    }
}

// The program.
pub fn take(rt: &impl Runtime) {
    if !is_named(rt) {
        take_day(rt, &mut rt.reader(), b"stdin");
        return;
    }
    let mut path = [0u8; 4096];
    let Some(Named { mut file, length }) = open_named(rt, &mut path) else {
        return;
    };
    take_day(rt, &mut file, &path[..length]);
}

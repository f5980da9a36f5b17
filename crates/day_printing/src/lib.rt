// What is printed of a booked day, put into output that is lent: the fills taken, the refusal that ended them (refusals.rt), the totals and the
// positions (here). Room is asked for, so that nothing is cut. specs/Booked.antt says what is printed.
#![tactic(auto)]

ghost use Rattle.std.specs.Prelude.{◌≡◌, ◌+◌, ◌≤◌, length};
ghost use Rattle.holding.specs.Lent.{position_in};
ghost use Rattle.position.specs.Lent.{ledger_in};
ghost use Rattle.decimals.specs.Decimals.{Puts};
ghost use Rattle.day_printing.specs.Booked.{is_all_zero, position_text, held_text, positions_text, ledger_text, day_text};

mod numbers; // numbers.rt: a number behind a space, and a number as a line
pub mod refusals; // refusals.rt: the refusal

use decimals::{put_byte, put_number};
use holding::Position;
use holding::lent::PositionRows;
use numbers::{put_amount, put_line, put_total, put_value};
use position::lent::LedgerRows;
use refusals::put_refused;
use told::Told;
use types::SYMBOLS;

// How a day ended: the fills taken, the refusal that ended them if its number is not 0, and the line of the refused fill.
#[derive(Clone, Copy)]
pub struct Ended {
    pub taken: u64,
    pub told: Told,
    pub line: u64,
}

fn is_all_zero(position: Position) -> bool
    ensures { result ≡ is_all_zero position }
{
    let quantity = position.quantity.size();
    let realized = position.realized.size();
    quantity == 0 && position.average == 0 && realized == 0
}

#[tactic(auto, using(crate::proofs::Texts::pieces), unfolding(crate::specs::Booked::position_text))]
fn put_position(out: &mut [u8], at: usize, symbol: usize, position: Position) -> usize
    requires { at + length (position_text symbol position) ≤ length out.old }
    ensures { Puts (position_text symbol position) at out.old out.new result }
{
    let quantity = put_number(out, at, symbol as u64);
    let average = put_amount(out, quantity, position.quantity);
    let realized = put_value(out, average, false, position.average as u64);
    let feed = put_amount(out, realized, position.realized);
    put_byte(out, feed, b'\n')
}

// A position, unless all of it is 0.
fn put_held(out: &mut [u8], at: usize, symbol: usize, position: Position) -> usize
    requires { at + length (held_text symbol position) ≤ length out.old }
    ensures { Puts (held_text symbol position) at out.old out.new result }
{
    if is_all_zero(position) {
        return at;
    }
    put_position(out, at, symbol, position)
}

// The positions, in the order of their symbols: each has at most 90 bytes.
fn put_positions(positions: PositionRows<'_>, out: &mut [u8], at: usize) -> usize
    requires { at + 2880 ≤ length out.old }
    ensures { Puts (positions_text (position_in positions.entry) 32) at out.old out.new result }
{
    let mut next = at;
    for i in 0..SYMBOLS {
        next = put_held(out, next, i, positions.at(i));
    }
    next
}

// Cash, commission paid, and the positions.
#[tactic(auto, using(crate::proofs::Texts::lengths), unfolding(crate::specs::Booked::ledger_text))]
fn put_ledger(ledger: LedgerRows<'_>, out: &mut [u8], at: usize) -> usize
    requires { at + 3000 ≤ length out.old }
    ensures { Puts (ledger_text (ledger_in ledger.entry)) at out.old out.new result }
{
    let second = put_total(out, at, b"cash", ledger.totals.cash);
    let third = put_total(out, second, b"commission", ledger.totals.commission);
    put_positions(ledger.positions, out, third)
}

// The day: it has at most 4,000 bytes.
#[tactic(auto, using(crate::proofs::Texts::lengths), unfolding(crate::specs::Booked::day_text))]
pub fn put_day(ledger: LedgerRows<'_>, day: Ended, out: &mut [u8], at: usize) -> usize
    requires { at + 4000 ≤ length out.old }
    ensures { Puts (day_text day.taken day.told day.line (ledger_in ledger.entry)) at out.old out.new result }
{
    let told = day.told;
    let second = put_line(out, at, b"taken", false, day.taken);
    let third = put_refused(told, day.line, out, second);
    put_ledger(ledger, out, third)
}

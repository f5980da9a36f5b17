// A day's fills booked in one call: in order, until one is refused. The fills that were taken stand, and the refused one changes nothing. Here the
// fills are lent as a slice of records, and the ledger goes in by value and comes back; rows.rt has both as plain numbers that are lent.
#![tactic(auto)]

ghost use Rattle.std.specs.Prelude.{◌≡◌, true};
ghost use Rattle.position.specs.Ledger.{is_ledger};
ghost use Rattle.day.specs.Day.{day_of, rows_day_of, booked_in_order, day_booked};

use holding::Fill;
use position::PositionLedger;
use types::Refusal;

pub mod rows; // rows.rt: fills lent as numbers, five each, booked to a ledger that is lent as its rows

// A ledger after a day's fills, how many were taken, and how it ended: done, or the refusal that ended it.
#[derive(Clone, Copy)]
pub struct DayBooked {
    pub ledger: PositionLedger,
    pub taken: u64,
    pub outcome: Result<(), Refusal>,
}

// The same of a ledger that is changed where it is.
#[derive(Clone, Copy)]
pub struct RowsDay {
    pub taken: u64,
    pub outcome: Result<(), Refusal>,
}

// The fills in order, until one is refused, to a ledger: what each leaves is one again.
fn book_all(ledger: &mut PositionLedger, fills: &[Fill]) -> RowsDay
    requires { is_ledger ledger.old ≡ true }
    ensures { rows_day_of ledger.new result ≡ booked_in_order ledger.old fills.now }
{
    let mut taken = 0;
    for fill in fills {
        let booked = ledger.apply_fill(*fill);
        let outcome = booked.outcome;
        *ledger = booked.ledger;
        let Ok(()) = outcome else {
            return RowsDay { taken, outcome };
        };
        taken += 1;
    }
    RowsDay {
        taken,
        outcome: Ok(()),
    }
}

// Books the fills in order, until one is refused.
#[tactic(auto, unfolding(crate::specs::Day::day_booked))]
pub fn apply_fills(mut ledger: PositionLedger, fills: &[Fill]) -> DayBooked
    ensures { day_of result ≡ day_booked ledger fills.now }
{
    if !ledger.is_ledger() {
        return DayBooked {
            ledger,
            taken: 0,
            outcome: Err(Refusal::NotARecord),
        };
    }
    let day = book_all(&mut ledger, fills);
    DayBooked {
        ledger,
        taken: day.taken,
        outcome: day.outcome,
    }
}

// Four fills, which are lent to the call above: whoever calls this makes no reference to a record.
pub fn apply_four(ledger: PositionLedger, fills: [Fill; 4]) -> DayBooked
    ensures { day_of result ≡ day_booked ledger fills }
{
    apply_fills(ledger, &fills)
}

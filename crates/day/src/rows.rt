// A day's fills booked to a ledger that is lent as its rows, where they stand. The fills are lent as numbers, five each: symbol, side (0 a Bid, 1
// an Ask), quantity, price, commission. Numbers of 64 bits let a caller that is not Rattle hand over what is too large for a field, and have it
// refused.
// The rows that change are lent one by one, as C lends them: of a struct of `&mut` rows a clause names each by its place alone, no plainer.
ghost use Rattle.std.specs.Prelude.{◌≡◌, ◌<◌, ◌≤◌, true, length, pos, slice_index_or, unsigned_abs};
ghost use Rattle.types.specs.Answers.{reply_of};
ghost use Rattle.types.specs.Named.{side_named};
ghost use Rattle.types.specs.Replies.{done, if_within};
ghost use Rattle.position.specs.Ledger.{is_ledger, booked};
ghost use Rattle.position.specs.Lent.{ledger_at};
ghost use Rattle.day.specs.Day.{booked_in_order, rows_day_of};
ghost use Rattle.day.specs.Numbers.{max_word, is_up_to, is_first, first_fill, fills_by, day_booked_by};

use crate::RowsDay;
use amount::Amount;
use holding::Fill;
use position::lent::LedgerRows;
use position::{Totals, rows};
use types::{Refusal, Side};

// The number of 32 bits at a place: a symbol, a quantity or a price.
fn word_at(numbers: &[i64], at: usize) -> Result<u32, Refusal>
    requires { at < length numbers.now }
    ensures { reply_of result ≡ if_within (is_up_to max_word (slice_index_or numbers.now at (pos 0))) (done (unsigned_abs (slice_index_or numbers.now at (pos 0)))) }
{
    u32::try_from(numbers[at]).map_err(|_| Refusal::OutOfLimits)
}

// The side at a place: 0 a Bid, 1 an Ask.
fn side_at(numbers: &[i64], at: usize) -> Result<Side, Refusal>
    requires { at < length numbers.now }
    ensures { reply_of result ≡ if_within (is_up_to 1 (slice_index_or numbers.now at (pos 0))) (done (side_named (unsigned_abs (slice_index_or numbers.now at (pos 0))))) }
{
    Side::try_from(word_at(numbers, at)? as u64)
}

// The fill of the first five numbers, if they are one.
fn first_fill(numbers: &[i64]) -> Result<Fill, Refusal>
    requires { 5 ≤ length numbers.now }
    ensures { reply_of result ≡ if_within (is_first numbers.now) (done (first_fill numbers.now)) }
{
    Ok(Fill {
        symbol: word_at(numbers, 0)?,
        side: side_at(numbers, 1)?,
        quantity: word_at(numbers, 2)?,
        price: word_at(numbers, 3)?,
        commission: Amount { value: numbers[4] },
    })
}

// One fill more, to rows that make a ledger. Numbers that are none are refused as a fill outside its limits is.
fn book_first(
    quantities: &mut [i64; 32],
    averages: &mut [u32; 32],
    realized: &mut [i64; 32],
    totals: &mut Totals,
    numbers: &[i64],
) -> Result<(), Refusal>
    requires { (is_ledger (ledger_at quantities.old averages.old realized.old totals.old) ≡ true) × (5 ≤ length numbers.now) }
    ensures { record { ledger = ledger_at quantities.new averages.new realized.new totals.new; reply = reply_of result } ≡ booked (ledger_at quantities.old averages.old realized.old totals.old) (first_fill numbers.now) }
{
    let fill = first_fill(numbers)?;
    rows::apply_to_ledger(quantities, averages, realized, totals, fill)
}

// The fills in order, until one is refused, to rows that make a ledger: what each leaves makes one again. The loop over records (lib.rt) stands
// beside this one, since without a heap the numbers of a day are not made records first.
fn book_all(
    quantities: &mut [i64; 32],
    averages: &mut [u32; 32],
    realized: &mut [i64; 32],
    totals: &mut Totals,
    numbers: &[i64],
) -> RowsDay
    requires { is_ledger (ledger_at quantities.old averages.old realized.old totals.old) ≡ true }
    ensures { rows_day_of (ledger_at quantities.new averages.new realized.new totals.new) result ≡ booked_in_order (ledger_at quantities.old averages.old realized.old totals.old) (fills_by numbers.now) }
{
    let mut taken = 0;
    for five in numbers.chunks_exact(5) {
        let outcome = book_first(quantities, averages, realized, totals, five);
        let Ok(()) = outcome else {
            return RowsDay { taken, outcome };
        };
        taken += 1;
    }
    RowsDay {
        taken,
        outcome: Ok(()),
    }
}

// Books a day's fills, in order, until one is refused. Those that were taken stand, and the refused one changes nothing.
#[tactic(auto, unfolding(crate::specs::Numbers::day_booked_by, crate::specs::Day::day_booked))]
pub fn apply_fills(
    quantities: &mut [i64; 32],
    averages: &mut [u32; 32],
    realized: &mut [i64; 32],
    totals: &mut Totals,
    numbers: &[i64],
) -> RowsDay
    ensures { rows_day_of (ledger_at quantities.new averages.new realized.new totals.new) result ≡ day_booked_by (ledger_at quantities.old averages.old realized.old totals.old) numbers.now }
{
    if !LedgerRows::of(quantities, averages, realized, *totals).is_ledger() {
        return RowsDay {
            taken: 0,
            outcome: Err(Refusal::NotARecord),
        };
    }
    if numbers.len() % 5 != 0 {
        return RowsDay {
            taken: 0,
            outcome: Err(Refusal::OutOfLimits),
        };
    }
    book_all(quantities, averages, realized, totals, numbers)
}

// The ledger for Rust and C. A side's number is tested before a Side is made of it: answers are told in C's numbers, with no `?`,
// and a match of a `try_from` would be no plainer.
ghost use Rattle.std.specs.Prelude.{◌≡◌};
ghost use Rattle.types.specs.Answers.{reply_of};
ghost use Rattle.position.specs.Ledger.{is_ledger, created, deposited};
ghost use Rattle.position.specs.Lent.{ledger_at, ledger_in, lent_ledger};
ghost use Rattle.valuation.specs.Values.{unrealized};
ghost use Rattle.day.specs.Numbers.{day_booked_by};
ghost use Rattle.told.specs.Numbers.{tell, nothing, one_amount};
ghost use Rattle.exports.specs.Ledgers.{unnamed, ledger_told, fill_of, booked_by, day_told, worth_by};

use crate::{DayTold, LedgerTold, TotalsTold};
use amount::Amount;
use holding::Fill;
use position::lent::LedgerRows;
use position::{PositionLedger, Totals, rows};
use told::Told;
use types::{Refusal, Side};
use valuation::rows::{
    checked_unrealized_pnl, delta_neutral_check, net_liquidation_value, net_market_exposure,
    unrealized_pnl_total,
};

// What a change left beside the rows, its outcome as numbers.
fn given(totals: Totals, outcome: Result<(), Refusal>) -> TotalsTold
    ensures { result ≡ record { totals = totals; told = tell nothing (reply_of outcome) } }
{
    TotalsTold {
        totals,
        told: Told::of(outcome),
    }
}

// The refusal of numbers that name nothing: 1 if the record is no ledger, else 2.
fn unnamed(ledger: LedgerRows<'_>) -> Told
    ensures { result ≡ tell nothing (unnamed (ledger_in ledger.entry)) }
{
    if ledger.is_ledger() {
        return Told::from(Refusal::OutOfLimits);
    }
    Told::from(Refusal::NotARecord)
}

#[unsafe(no_mangle)]
pub extern "C" fn wermazul_ledger(cash: i64) -> LedgerTold
    ensures { result ≡ ledger_told (created cash) }
{
    let opened = PositionLedger::new(Amount { value: cash });
    LedgerTold {
        ledger: opened.ledger,
        told: Told::of(opened.outcome),
    }
}

#[unsafe(no_mangle)]
pub extern "C" fn wermazul_is_ledger<'a>(
    quantities: &'a [i64; 32],
    averages: &'a [u32; 32],
    realized: &'a [i64; 32],
    totals: Totals,
) -> bool
    ensures { result ≡ is_ledger (lent_ledger quantities averages realized totals) }
{
    LedgerRows::of(quantities, averages, realized, totals).is_ledger()
}

fn fill_of(symbol: u32, side: u64, quantity: u32, price: u32, commission: Amount) -> Fill
    ensures { result ≡ fill_of symbol side quantity price commission.value }
{
    Fill {
        symbol,
        side: Side::from(side == 1),
        quantity,
        price,
        commission,
    }
}

// The fill of these numbers, on the rows; a number that names no side leaves them.
#[unsafe(no_mangle)]
pub extern "C" fn wermazul_apply_fill(
    quantities: &mut [i64; 32],
    averages: &mut [u32; 32],
    realized: &mut [i64; 32],
    totals: Totals,
    symbol: u32,
    side: u64,
    quantity: u32,
    price: u32,
    commission: i64,
) -> TotalsTold
    ensures { record { ledger = ledger_at quantities.new averages.new realized.new result.totals; told = result.told } ≡ ledger_told (booked_by (ledger_at quantities.old averages.old realized.old totals) symbol side quantity price commission) }
{
    if side > 1 {
        return TotalsTold {
            totals,
            told: unnamed(LedgerRows::of(quantities, averages, realized, totals)),
        };
    }
    let fill = fill_of(symbol, side, quantity, price, Amount { value: commission });
    let mut after = totals;
    let outcome = rows::apply_fill(quantities, averages, realized, &mut after, fill);
    given(after, outcome)
}

// A day's fills on the rows, in order, until one is refused: five numbers each, the symbol, the side, the quantity, the price and the commission.
#[unsafe(no_mangle)]
pub extern "C" fn wermazul_apply_fills(
    quantities: &mut [i64; 32],
    averages: &mut [u32; 32],
    realized: &mut [i64; 32],
    totals: Totals,
    numbers: &[i64],
) -> DayTold
    ensures { record { ledger = ledger_at quantities.new averages.new realized.new result.totals; taken = result.taken; told = result.told } ≡ day_told (day_booked_by (ledger_at quantities.old averages.old realized.old totals) numbers.now) }
{
    let mut after = totals;
    let booked = day::rows::apply_fills(quantities, averages, realized, &mut after, numbers);
    DayTold {
        totals: after,
        taken: booked.taken,
        told: Told::of(booked.outcome),
    }
}

#[unsafe(no_mangle)]
pub extern "C" fn wermazul_deposit<'a>(
    quantities: &'a [i64; 32],
    averages: &'a [u32; 32],
    realized: &'a [i64; 32],
    totals: Totals,
    amount: i64,
) -> TotalsTold
    ensures { record { ledger = lent_ledger quantities averages realized result.totals; told = result.told } ≡ ledger_told (deposited (lent_ledger quantities averages realized totals) amount) }
{
    let mut after = totals;
    let positions = LedgerRows::of(quantities, averages, realized, totals).positions;
    let outcome = rows::deposit(positions, &mut after, Amount { value: amount });
    given(after, outcome)
}

#[unsafe(no_mangle)]
pub extern "C" fn wermazul_unrealized<'a>(
    quantities: &'a [i64; 32],
    averages: &'a [u32; 32],
    realized: &'a [i64; 32],
    totals: Totals,
    symbol: u32,
    price: u32,
) -> Told
    ensures { result ≡ tell one_amount (unrealized (lent_ledger quantities averages realized totals) symbol price) }
{
    let ledger = LedgerRows::of(quantities, averages, realized, totals);
    Told::of(checked_unrealized_pnl(ledger, symbol, price))
}

// What the ledger is worth at prices: 0 unrealized_pnl_total, 1 net_liquidation_value, 2 net_market_exposure, 3 delta_neutral_check.
#[unsafe(no_mangle)]
pub extern "C" fn wermazul_worth<'a>(
    quantities: &'a [i64; 32],
    averages: &'a [u32; 32],
    realized: &'a [i64; 32],
    totals: Totals,
    worth: u64,
    prices: &'a [u32],
) -> Told
    ensures { result ≡ worth_by (lent_ledger quantities averages realized totals) worth prices.now }
{
    let ledger = LedgerRows::of(quantities, averages, realized, totals);
    match worth {
        0 => Told::of(unrealized_pnl_total(ledger, prices)),
        1 => Told::of(net_liquidation_value(ledger, prices)),
        2 => Told::of(net_market_exposure(ledger, prices)),
        3 => Told::of(delta_neutral_check(ledger, prices)),
        _ => unnamed(ledger),
    }
}

// The ledger for Rust and C.
ghost use Rattle.std.specs.Prelude.{◌≡◌};
ghost use Rattle.position.specs.Ledger.{is_ledger, created, deposited};
ghost use Rattle.position.specs.Lent.{ledger_at, lent_ledger};
ghost use Rattle.valuation.specs.Values.{unrealized};
ghost use Rattle.day.specs.Numbers.{day_booked_by};
ghost use Rattle.told.specs.Numbers.{tell, one_amount};
ghost use Rattle.exports.specs.Ledgers.{ledger_told, booked_by, day_told, worth_by};

use exports::{DayTold, LedgerTold, TotalsTold};
use position::Totals;
use told::Told;

#[unsafe(no_mangle)]
pub extern "C" fn wermazul_ledger(cash: i64) -> LedgerTold
    ensures { result ≡ ledger_told (created cash) }
{
    exports::ledger::wermazul_ledger(cash)
}

#[unsafe(no_mangle)]
pub extern "C" fn wermazul_is_ledger<'a>(
    quantities: &'a [i64; 32],
    averages: &'a [u32; 32],
    realized: &'a [i64; 32],
    totals: Totals,
) -> bool
    ensures { result ≡ is_ledger (lent_ledger quantities averages realized totals) }
{
    exports::ledger::wermazul_is_ledger(quantities, averages, realized, totals)
}

// The fill of these numbers, on the rows; a number that names no side leaves them.
#[unsafe(no_mangle)]
pub extern "C" fn wermazul_apply_fill(
    quantities: &mut [i64; 32],
    averages: &mut [u32; 32],
    realized: &mut [i64; 32],
    totals: Totals,
    symbol: u32,
    side: u64,
    quantity: u32,
    price: u32,
    commission: i64,
) -> TotalsTold
    ensures { record { ledger = ledger_at quantities.new averages.new realized.new result.totals; told = result.told } ≡ ledger_told (booked_by (ledger_at quantities.old averages.old realized.old totals) symbol side quantity price commission) }
{
    exports::ledger::wermazul_apply_fill(
        quantities, averages, realized, totals, symbol, side, quantity, price, commission,
    )
}

// A day's fills on the rows, in order, until one is refused: five numbers each, the symbol, the side, the quantity, the price and the commission.
#[unsafe(no_mangle)]
pub extern "C" fn wermazul_apply_fills(
    quantities: &mut [i64; 32],
    averages: &mut [u32; 32],
    realized: &mut [i64; 32],
    totals: Totals,
    numbers: &[i64],
) -> DayTold
    ensures { record { ledger = ledger_at quantities.new averages.new realized.new result.totals; taken = result.taken; told = result.told } ≡ day_told (day_booked_by (ledger_at quantities.old averages.old realized.old totals) numbers.now) }
{
    exports::ledger::wermazul_apply_fills(quantities, averages, realized, totals, numbers)
}

#[unsafe(no_mangle)]
pub extern "C" fn wermazul_deposit<'a>(
    quantities: &'a [i64; 32],
    averages: &'a [u32; 32],
    realized: &'a [i64; 32],
    totals: Totals,
    amount: i64,
) -> TotalsTold
    ensures { record { ledger = lent_ledger quantities averages realized result.totals; told = result.told } ≡ ledger_told (deposited (lent_ledger quantities averages realized totals) amount) }
{
    exports::ledger::wermazul_deposit(quantities, averages, realized, totals, amount)
}

#[unsafe(no_mangle)]
pub extern "C" fn wermazul_unrealized<'a>(
    quantities: &'a [i64; 32],
    averages: &'a [u32; 32],
    realized: &'a [i64; 32],
    totals: Totals,
    symbol: u32,
    price: u32,
) -> Told
    ensures { result ≡ tell one_amount (unrealized (lent_ledger quantities averages realized totals) symbol price) }
{
    exports::ledger::wermazul_unrealized(quantities, averages, realized, totals, symbol, price)
}

// What the ledger is worth at prices: 0 unrealized_pnl_total, 1 net_liquidation_value, 2 net_market_exposure, 3 delta_neutral_check.
#[unsafe(no_mangle)]
pub extern "C" fn wermazul_worth<'a>(
    quantities: &'a [i64; 32],
    averages: &'a [u32; 32],
    realized: &'a [i64; 32],
    totals: Totals,
    worth: u64,
    prices: &'a [u32],
) -> Told
    ensures { result ≡ worth_by (lent_ledger quantities averages realized totals) worth prices.now }
{
    exports::ledger::wermazul_worth(quantities, averages, realized, totals, worth, prices)
}

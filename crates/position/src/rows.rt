// A ledger lent as its three rows (quantities, averages, realized profits), with its totals beside them: no row is copied, and a fill is booked to
// the rows where they stand. Each promise is of the ledger that the rows and the totals make (specs/Lent.antt).
// The rows that change are lent one by one, as C lends them: of a struct of `&mut` rows a clause names each by its place alone, no plainer.
ghost use Rattle.std.specs.Prelude.{◌≡◌, true};
ghost use Rattle.types.specs.Answers.{reply_of};
ghost use Rattle.holding.specs.Inner.Sizes.{FillIn};
ghost use Rattle.position.specs.Ledger.{is_ledger, is_short, is_bearable, settled, booked, deposited};
ghost use Rattle.position.specs.Lent.{ledger_at, ledger_of, ledger_in, lent_ledger};

use crate::Totals;
use crate::lent::LedgerRows;
use amount::Amount;
use holding::lent::PositionRows;
use holding::{Fill, Position};
use types::{MAX_DEPOSIT, MAX_MONEY, MAX_POSITION, Refusal, Side};

impl<'a> LedgerRows<'a> {
    // The rows of a ledger (quantities, averages, realized profits), and its totals.
    pub fn of(
        quantities: &'a [i64; 32],
        averages: &'a [u32; 32],
        realized: &'a [i64; 32],
        totals: Totals,
    ) -> LedgerRows<'a>
        ensures { ledger_in result ≡ lent_ledger quantities averages realized totals }
    {
        LedgerRows {
            positions: PositionRows {
                quantities,
                averages,
                realized,
            },
            totals,
        }
    }

    // Whether every limit holds, and each average is 0 exactly where its quantity is.
    #[tactic(auto, unfolding(crate::specs::Ledger::is_ledger))]
    pub fn is_ledger(self) -> bool
        ensures { result ≡ is_ledger (ledger_in self.entry) }
    {
        self.totals.cash.within(MAX_MONEY)
            && self.totals.commission.within(MAX_MONEY)
            && self.positions.are_positions()
    }
}

// Whether a fill may not leave this cash: a Bid not less than zero, an Ask any.
fn is_short(side: Side, cash: Amount) -> bool
    ensures { result ≡ is_short side cash.value }
{
    let below = cash.is_negative();
    match side {
        Side::Bid => below,
        Side::Ask => false,
    }
}

// Whether the totals that a fill moves are within their limits.
fn is_bearable(totals: Totals, position: Position) -> bool
    ensures { result ≡ is_bearable totals.cash.value totals.commission.value position }
{
    totals.cash.within(MAX_MONEY)
        && totals.commission.within(MAX_MONEY)
        && position.quantity.within(MAX_POSITION)
        && position.realized.within(MAX_MONEY)
}

// A fill within its limits, to a ledger: 8, then 9.
#[tactic(auto, unfolding(crate::specs::Ledger::settled, crate::specs::Ledger::filled))]
fn settle(
    quantities: &mut [i64; 32],
    averages: &mut [u32; 32],
    realized: &mut [i64; 32],
    totals: &mut Totals,
    fill: Fill,
) -> Result<(), Refusal>
    requires { (is_ledger (ledger_at quantities.old averages.old realized.old totals.old) ≡ true) × FillIn fill }
    ensures { record { ledger = ledger_at quantities.new averages.new realized.new totals.new; reply = reply_of result } ≡ settled (ledger_at quantities.old averages.old realized.old totals.old) fill }
{
    let have = totals.cash;
    let need = fill.charge();
    let cash = have.sub(need);
    if is_short(fill.side, cash) {
        return Err(Refusal::InsufficientFunds { need, have });
    }
    let moved = Totals {
        cash,
        commission: totals.commission.add(fill.commission),
    };
    let symbol = fill.symbol as usize;
    let positions = PositionRows {
        quantities,
        averages,
        realized,
    };
    let before = positions.at(symbol);
    let after = before.after_fill(fill);
    if !is_bearable(moved, after) {
        return Err(Refusal::PastLimit);
    }
    holding::rows::put(quantities, averages, realized, symbol, after);
    *totals = moved;
    Ok(())
}

// A fill to rows that are known to make a ledger.
#[tactic(auto, unfolding(crate::specs::Ledger::booked))]
pub fn apply_to_ledger(
    quantities: &mut [i64; 32],
    averages: &mut [u32; 32],
    realized: &mut [i64; 32],
    totals: &mut Totals,
    fill: Fill,
) -> Result<(), Refusal>
    requires { is_ledger (ledger_at quantities.old averages.old realized.old totals.old) ≡ true }
    ensures { record { ledger = ledger_at quantities.new averages.new realized.new totals.new; reply = reply_of result } ≡ booked (ledger_at quantities.old averages.old realized.old totals.old) fill }
{
    if !fill.is_fill() {
        return Err(Refusal::OutOfLimits);
    }
    settle(quantities, averages, realized, totals, fill)
}

// Takes a fill: cash, commission paid, and the symbol's position. A refusal leaves the rows and the totals as they were.
#[tactic(auto, unfolding(crate::specs::Ledger::booked))]
pub fn apply_fill(
    quantities: &mut [i64; 32],
    averages: &mut [u32; 32],
    realized: &mut [i64; 32],
    totals: &mut Totals,
    fill: Fill,
) -> Result<(), Refusal>
    ensures { record { ledger = ledger_at quantities.new averages.new realized.new totals.new; reply = reply_of result } ≡ booked (ledger_at quantities.old averages.old realized.old totals.old) fill }
{
    if !LedgerRows::of(quantities, averages, realized, *totals).is_ledger() {
        return Err(Refusal::NotARecord);
    }
    apply_to_ledger(quantities, averages, realized, totals, fill)
}

// Pays cash in, or out if the amount is negative. The rows are read alone.
#[tactic(auto, unfolding(crate::specs::Ledger::deposited))]
pub fn deposit(
    positions: PositionRows<'_>,
    totals: &mut Totals,
    amount: Amount,
) -> Result<(), Refusal>
    ensures { record { ledger = ledger_of positions.entry totals.new; reply = reply_of result } ≡ deposited (ledger_of positions.entry totals.old) amount.value }
{
    let ledger = LedgerRows {
        positions,
        totals: *totals,
    };
    if !ledger.is_ledger() {
        return Err(Refusal::NotARecord);
    }
    if !amount.within(MAX_DEPOSIT) {
        return Err(Refusal::OutOfLimits);
    }
    let balance = totals.cash.add(amount);
    if !balance.within(MAX_MONEY) {
        return Err(Refusal::PastLimit);
    }
    totals.cash = balance;
    Ok(())
}

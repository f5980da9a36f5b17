// The ledger as a record: new, tested, and changed, in place and by value. Its rows are lent one by one, and the totals beside them are put back.
// Each call takes any record: it tests it first, and leaves the same record with a refusal.
// The calls by value stay beside those in place because docs/PROMISES.md promises both; they are thin over the lent form.
ghost use Rattle.std.specs.Prelude.{◌≡◌};
ghost use Rattle.types.specs.Answers.{reply_of};
ghost use Rattle.position.specs.Ledger.{is_ledger, change_of, fresh, created, booked, deposited};
ghost use Rattle.position.specs.Lent.{ledger_in, totals_in, with_totals};

use crate::lent::LedgerRows;
use crate::{Booked, PositionLedger, Totals, rows};
use amount::Amount;
use holding::Fill;
use holding::lent::PositionRows;
use types::{MAX_MONEY, Refusal};

impl PositionLedger {
    // What stands beside the rows.
    pub fn totals(&self) -> Totals
        ensures { result ≡ totals_in self.now }
    {
        Totals {
            cash: self.cash,
            commission: self.commission,
        }
    }

    // Puts other totals beside the rows.
    fn total(&mut self, totals: Totals)
        ensures { self.new ≡ with_totals totals self.old }
    {
        self.cash = totals.cash;
        self.commission = totals.commission;
    }

    fn fresh(cash: Amount) -> PositionLedger
        ensures { result ≡ fresh cash.value }
    {
        PositionLedger {
            cash,
            commission: Amount::of(0),
            quantities: [0; 32],
            averages: [0; 32],
            realized: [0; 32],
        }
    }

    // A ledger with this cash and nothing else; cash outside its limit gives 2, beside the ledger of cash 0.
    #[tactic(auto, unfolding(crate::specs::Ledger::created))]
    pub fn new(cash: Amount) -> Booked
        ensures { change_of result ≡ created cash.value }
    {
        if !cash.within(MAX_MONEY) {
            return Booked {
                ledger: PositionLedger::fresh(Amount::of(0)),
                outcome: Err(Refusal::OutOfLimits),
            };
        }
        Booked {
            ledger: PositionLedger::fresh(cash),
            outcome: Ok(()),
        }
    }

    // The ledger, lent to be read.
    pub fn rows(&self) -> LedgerRows<'_>
        ensures { ledger_in result ≡ self.now }
    {
        LedgerRows {
            positions: PositionRows {
                quantities: &self.quantities,
                averages: &self.averages,
                realized: &self.realized,
            },
            totals: self.totals(),
        }
    }

    // Whether every limit holds, and each average is 0 exactly where its quantity is.
    pub fn is_ledger(self) -> bool
        ensures { result ≡ is_ledger self }
    {
        self.rows().is_ledger()
    }

    // Takes a fill: cash, commission paid, and the symbol's position. A refusal leaves the ledger as it was.
    pub fn apply(&mut self, fill: Fill) -> Result<(), Refusal>
        ensures { record { ledger = self.new; reply = reply_of result } ≡ booked self.old fill }
    {
        let mut totals = self.totals();
        let outcome = rows::apply_fill(
            &mut self.quantities,
            &mut self.averages,
            &mut self.realized,
            &mut totals,
            fill,
        );
        self.total(totals);
        outcome
    }

    // The same by value: a refusal gives the ledger back as it was.
    pub fn apply_fill(mut self, fill: Fill) -> Booked
        ensures { change_of result ≡ booked self fill }
    {
        let outcome = self.apply(fill);
        Booked {
            ledger: self,
            outcome,
        }
    }

    // Pays cash in, or out if the amount is negative.
    pub fn deposit(mut self, amount: Amount) -> Booked
        ensures { change_of result ≡ deposited self amount.value }
    {
        let mut totals = self.totals();
        let outcome = rows::deposit(self.rows().positions, &mut totals, amount);
        self.total(totals);
        Booked {
            ledger: self,
            outcome,
        }
    }
}

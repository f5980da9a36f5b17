// A book's changes, in place and by value: its rows are lent one by one, and the counts beside them are put back. docs/PROMISES.md promises the calls
// by value; they are thin over the lent form.
ghost use Rattle.std.specs.Prelude.{◌≡◌};
ghost use Rattle.types.specs.Answers.{reply_of};
ghost use Rattle.orderbook.specs.Apply.{change_of, applied, cleared, side_cleared};
ghost use Rattle.orderbook.specs.Lent.{counts_in, with_counts};

use crate::{Applied, OrderBook, rows};
use deltas::{BookDelta, Counts};
use types::{Refusal, Side};

impl OrderBook {
    // What stands beside the rows.
    pub fn counts(&self) -> Counts
        ensures { result ≡ counts_in self.now }
    {
        Counts {
            bids: self.bids.count,
            asks: self.asks.count,
            sequence: self.sequence,
        }
    }

    // Puts other counts beside the rows.
    fn count(&mut self, counts: Counts)
        ensures { self.new ≡ with_counts counts self.old }
    {
        self.bids.count = counts.bids;
        self.asks.count = counts.asks;
        self.sequence = counts.sequence;
    }

    // Set puts a quantity at a price, Remove takes a level away; the sequence then becomes the delta's. A refusal leaves the book as it was.
    pub fn apply(&mut self, delta: BookDelta) -> Result<(), Refusal>
        ensures { record { book = self.new; reply = reply_of result } ≡ applied self.old delta }
    {
        let mut counts = self.counts();
        let outcome = rows::apply_delta(
            &mut self.bids.prices,
            &mut self.bids.quantities,
            &mut self.asks.prices,
            &mut self.asks.quantities,
            &mut counts,
            delta,
        );
        self.count(counts);
        outcome
    }

    // The same by value: a refusal gives the book back as it was.
    pub fn apply_delta(mut self, delta: BookDelta) -> Applied
        ensures { change_of result ≡ applied self delta }
    {
        let outcome = self.apply(delta);
        Applied {
            book: self,
            outcome,
        }
    }

    // Empties both sides and sets sequence 0.
    pub fn clear(mut self) -> Applied
        ensures { change_of result ≡ cleared self }
    {
        let mut counts = self.counts();
        let outcome = rows::clear(
            &mut self.bids.prices,
            &mut self.bids.quantities,
            &mut self.asks.prices,
            &mut self.asks.quantities,
            &mut counts,
        );
        self.count(counts);
        Applied {
            book: self,
            outcome,
        }
    }

    // Empties one side and keeps the sequence.
    pub fn remove_all(mut self, side: Side) -> Applied
        ensures { change_of result ≡ side_cleared side self }
    {
        let mut counts = self.counts();
        let outcome = rows::remove_all(
            &mut self.bids.prices,
            &mut self.bids.quantities,
            &mut self.asks.prices,
            &mut self.asks.quantities,
            &mut counts,
            side,
        );
        self.count(counts);
        Applied {
            book: self,
            outcome,
        }
    }
}

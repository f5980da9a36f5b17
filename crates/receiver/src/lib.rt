// The receiver of a feed: it takes lines, and holds a book that it shows while it is live. Its state is an enum, with room for a third
// state. A line goes to a receiver that is lent, its book as four rows (rows.rt); the calls over a record, in
// place and by value, are thin over it. Those by value stay, since docs/PROMISES.md promises them.
#![tactic(auto)]

ghost use Rattle.std.specs.Prelude.{◌≡◌};
ghost use Rattle.types.specs.Answers.{reply_of};
ghost use Rattle.receiver.specs.Numbers.{state_if, state_number};
ghost use Rattle.receiver.specs.Turns.{is_receiver, start, turn_of, taken};

pub mod rows; // rows.rt: a line to a receiver that is lent

use orderbook::OrderBook;
use types::Refusal;

#[derive(Clone, Copy)]
pub enum State {
    Waiting,
    Live,
}

// Live where the flag is set, else waiting.
impl From<bool> for State {
    ghost from_gives = { λ live state. state ≡ state_if live };

    fn from(live: bool) -> State {
        if live { State::Live } else { State::Waiting }
    }
}

// 0 waiting, 1 live.
impl From<State> for u64 {
    ghost from_gives = { λ state n. n ≡ state_number state };

    fn from(state: State) -> u64 {
        match state {
            State::Waiting => 0,
            State::Live => 1,
        }
    }
}

// Waiting or live, and a book, whose sequence is the number held.
#[derive(Clone, Copy)]
pub struct Receiver {
    pub state: State,
    pub book: OrderBook,
}

// A receiver, and what became of the line that it was handed.
#[derive(Clone, Copy)]
pub struct Taken {
    pub receiver: Receiver,
    pub outcome: Result<(), Refusal>,
}

impl Receiver {
    // Waiting, empty, at 0.
    pub fn new() -> Receiver
        ensures { result ≡ start }
    {
        Receiver {
            state: State::Waiting,
            book: OrderBook::new(),
        }
    }

    pub fn is_receiver(self) -> bool
        ensures { result ≡ is_receiver self }
    {
        self.book.is_book()
    }

    // What a line makes of a receiver, its line feed included; bytes after the last line feed are one line. Its rows are lent one by one, and
    // what stands beside them is put back.
    pub fn apply(&mut self, line: &[u8]) -> Result<(), Refusal>
        ensures { record { receiver = self.new; reply = reply_of result } ≡ taken self.old line.now }
    {
        let counts = self.book.counts();
        let turned = rows::take_line(
            &mut self.book.bids.prices,
            &mut self.book.bids.quantities,
            &mut self.book.asks.prices,
            &mut self.book.asks.quantities,
            self.state,
            counts,
            line,
        );
        self.state = turned.state;
        self.book.bids.count = turned.counts.bids;
        self.book.asks.count = turned.counts.asks;
        self.book.sequence = turned.counts.sequence;
        turned.outcome
    }

    // The same by value.
    pub fn take_line(mut self, line: &[u8]) -> Taken
        ensures { turn_of result ≡ taken self line.now }
    {
        let outcome = self.apply(line);
        Taken {
            receiver: self,
            outcome,
        }
    }
}

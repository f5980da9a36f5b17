// Does operations on a book, a ledger and a receiver, one a line of standard input, and prints the answer to each, one a line. The lines are
// data, so that a list of cases costs no proof. No contract can say what is read or written: it is proved safe and ending, and run.
#![tactic(auto)]

ghost use Rattle.std.specs.Prelude.{◌≤◌, length};

use amount::Amount;
use orderbook::OrderBook;
use position::PositionLedger;
use receiver::Receiver;
use std::io::Read;

// What the operations work on: a book, one that is kept to go back to, a ledger, the prices of its symbols (0 where there is none), and a
// receiver.
#[derive(Clone, Copy)]
struct State {
    book: OrderBook,
    kept: OrderBook,
    ledger: PositionLedger,
    prices: [u32; 32],
    receiver: Receiver,
}

impl State {
    fn first() -> State {
        State {
            book: OrderBook::new(),
            kept: OrderBook::new(),
            ledger: PositionLedger::new(Amount::of(0)).ledger,
            prices: [0; 32],
            receiver: Receiver::new(),
        }
    }

    // Puts one part in another's place.
    fn put(&mut self, kind: u64) {
        match kind {
            16 => self.kept = self.book,
            17 => self.book = self.kept,
            25 => self.receiver = Receiver::new(),
            _ => self.book = self.receiver.book,
        }
    }

    // Does what a line says, and prints the answer. A kind is a number of the list: an enum would be made of it by one match and matched again.
    fn done(&mut self, rt: &impl Print, line: &[u8]) {
        let kind = fields::number(line, 0);
        match kind {
            0..=5 | 12..=15 | 18 => on_book::step(rt, &mut self.book, kind, line),
            16 | 17 | 25 | 27 => {
                self.put(kind);
                output::number(rt, 0);
            }
            21..=24 => on_feed::step(rt, &mut self.book, kind, line),
            26 => on_feed::take(rt, &mut self.receiver, line),
            10 => on_ledger::price(rt, &mut self.prices, line),
            _ => on_ledger::step(rt, &mut self.ledger, &self.prices, kind, line),
        }
    }

    // Prints a line's label, then does its operation, if it has one.
    fn step(&mut self, rt: &impl Print, line: &[u8]) {
        let (label, operation) = line.split_at(fields::operation(line));
        output::put(rt, label);
        if !operation.is_empty() {
            self.done(rt, operation);
        }
        output::put(rt, b"\n");
    }
}

// The last line may end with the text, or with a line feed.
fn replay(rt: &impl Print, text: &[u8]) {
    let mut state = State::first();
    for line in text.split_inclusive(|byte| *byte == b'\n') {
        state.step(rt, line.strip_suffix(b"\n").unwrap_or(line));
    }
}

// Reads until the buffer is full or the input ends, and answers how many bytes came. A read that fails ends the input.
// A read brings as many bytes as it likes, so no `for` counts them, and the library's reading to the end needs a heap.
fn read_full(input: &mut impl Read, buf: &mut [u8]) -> usize
    ensures { result ≤ length buf.new }
{
    let mut done = 0;
    while done < buf.len() {
        let got = input.read(&mut buf[done..]).unwrap_or(0);
        if got == 0 {
            break;
        }
        done += got;
    }
    done
}

// A list that fills the buffer may have been cut: nothing of it is done.
pub fn run(rt: &(impl Input + Print)) {
    let mut text = [0u8; 65536];
    let n = read_full(&mut rt.reader(), &mut text);
    if n < text.len() {
        replay(rt, &text[0..n]);
    } else {
        output::put(rt, b"the list is too long: 65535 bytes are the most\n");
    }
}

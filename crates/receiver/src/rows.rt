// A line to a receiver that is lent: its book as four rows (bid prices, bid quantities, ask prices, ask quantities), and its state and
// counts beside them. No row is copied but those of a snapshot that is loaded. The rows are lent one by one, as in `orderbook`'s rows.rt, and for its reason.
ghost use Rattle.std.specs.Prelude.{◌≡◌, true, Ok};
ghost use Rattle.types.specs.Answers.{reply_of};
ghost use Rattle.deltas.specs.Delta.{delta_fits};
ghost use Rattle.deltas.specs.Inner.Admitting.{Admission};
ghost use Rattle.orderbook.specs.Book.{is_book};
ghost use Rattle.orderbook.specs.Lent.{book_at};
ghost use Rattle.orderbook.specs.Inner.Long.{Long};
ghost use Rattle.receiver.specs.declared.State.TheVariants.{Live};
ghost use Rattle.lines.specs.Read.{change_read};
ghost use Rattle.receiver.specs.Turns.{loads, delta_turn, taken};
ghost use Rattle.receiver.specs.Lent.{receiver_at};
ghost use Rattle.receiver.specs.Inner.Others.{other_turn, next_by};

use crate::State;
use deltas::{BookDelta, Counts};
use lines::snapshot;
use orderbook::{OrderBook, rows};
use types::Refusal;

// What a line leaves beside the rows.
#[derive(Clone, Copy)]
pub struct Turned {
    pub state: State,
    pub counts: Counts,
    pub outcome: Result<(), Refusal>,
}

// Whether a snapshot of this sequence is loaded: not older while waiting, newer while live.
fn loads(state: State, held: u64, sequence: u64) -> bool
    ensures { result ≡ loads state held sequence }
{
    match state {
        State::Waiting => held <= sequence,
        State::Live => held < sequence,
    }
}

// Puts a book into the rows. Each array has a name first, since the borrow checker takes no array straight from a field.
fn load(
    bp: &mut [u32; 128],
    bq: &mut [u32; 128],
    ap: &mut [u32; 128],
    aq: &mut [u32; 128],
    book: OrderBook,
) -> Counts
    ensures { book_at bp.new bq.new ap.new aq.new result ≡ book }
{
    let bid_prices = book.bids.prices;
    let bid_quantities = book.bids.quantities;
    let ask_prices = book.asks.prices;
    let ask_quantities = book.asks.quantities;
    *bp = bid_prices;
    *bq = bid_quantities;
    *ap = ask_prices;
    *aq = ask_quantities;
    Counts {
        bids: book.bids.count,
        asks: book.asks.count,
        sequence: book.sequence,
    }
}

// A line that is no delta, by what it read as: a snapshot is loaded or old, and damage changes nothing.
fn take_other(
    bp: &mut [u32; 128],
    bq: &mut [u32; 128],
    ap: &mut [u32; 128],
    aq: &mut [u32; 128],
    state: State,
    counts: Counts,
    read: Result<OrderBook, Refusal>,
) -> Turned
    ensures { record { receiver = receiver_at bp.new bq.new ap.new aq.new result.state result.counts; reply = reply_of result.outcome } ≡ other_turn (receiver_at bp.old bq.old ap.old aq.old state counts) (change_read read) }
{
    let book = match read {
        Ok(book) => book,
        Err(why) => {
            return Turned {
                state,
                counts,
                outcome: Err(why),
            };
        }
    };
    if loads(state, counts.sequence, book.sequence) {
        return Turned {
            state: State::Live,
            counts: load(bp, bq, ap, aq, book),
            outcome: Ok(()),
        };
    }
    Turned {
        state,
        counts,
        outcome: Err(Refusal::OldFrame),
    }
}

// The next delta, which is admitted, to rows that are known to make a book: applied, or 17 and waiting.
fn take_next(
    bp: &mut [u32; 128],
    bq: &mut [u32; 128],
    ap: &mut [u32; 128],
    aq: &mut [u32; 128],
    counts: Counts,
    delta: BookDelta,
) -> Turned
    requires { (is_book (book_at bp.old bq.old ap.old aq.old counts) ≡ true) × Long (book_at bp.old bq.old ap.old aq.old counts) × Admission (Ok tt) counts.sequence delta }
    ensures { record { receiver = receiver_at bp.new bq.new ap.new aq.new result.state result.counts; reply = reply_of result.outcome } ≡ next_by (receiver_at bp.old bq.old ap.old aq.old Live counts) delta }
{
    let mut counts = counts;
    match rows::apply_to_book(bp, bq, ap, aq, &mut counts, delta) {
        Ok(()) => Turned {
            state: State::Live,
            counts,
            outcome: Ok(()),
        },
        Err(_) => Turned {
            state: State::Waiting,
            counts,
            outcome: Err(Refusal::RefusedDelta),
        },
    }
}

// A delta within its limits, to rows that are known to make a book.
fn take_delta(
    bp: &mut [u32; 128],
    bq: &mut [u32; 128],
    ap: &mut [u32; 128],
    aq: &mut [u32; 128],
    state: State,
    counts: Counts,
    delta: BookDelta,
) -> Turned
    requires { (is_book (book_at bp.old bq.old ap.old aq.old counts) ≡ true) × Long (book_at bp.old bq.old ap.old aq.old counts) × (delta_fits delta.action delta.price delta.quantity ≡ true) }
    ensures { record { receiver = receiver_at bp.new bq.new ap.new aq.new result.state result.counts; reply = reply_of result.outcome } ≡ delta_turn state (receiver_at bp.old bq.old ap.old aq.old state counts) delta }
{
    let State::Live = state else {
        return Turned {
            state,
            counts,
            outcome: Err(Refusal::Waiting),
        };
    };
    if delta.sequence <= counts.sequence {
        return Turned {
            state,
            counts,
            outcome: Err(Refusal::OldFrame),
        };
    }
    if delta.sequence - counts.sequence > 1 {
        return Turned {
            state: State::Waiting,
            counts,
            outcome: Err(Refusal::Gap),
        };
    }
    take_next(bp, bq, ap, aq, counts, delta)
}

// What a line makes of a receiver, its line feed included; bytes after the last line feed are one line.
pub fn take_line(
    bp: &mut [u32; 128],
    bq: &mut [u32; 128],
    ap: &mut [u32; 128],
    aq: &mut [u32; 128],
    state: State,
    counts: Counts,
    line: &[u8],
) -> Turned
    ensures { record { receiver = receiver_at bp.new bq.new ap.new aq.new result.state result.counts; reply = reply_of result.outcome } ≡ taken (receiver_at bp.old bq.old ap.old aq.old state counts) line.now }
{
    if !rows::is_book(bp, bq, ap, aq, counts) {
        return Turned {
            state,
            counts,
            outcome: Err(Refusal::NotARecord),
        };
    }
    match frames::read_delta(line) {
        Ok(delta) => take_delta(bp, bq, ap, aq, state, counts, delta),
        Err(_) => take_other(bp, bq, ap, aq, state, counts, snapshot::read_snapshot(line)),
    }
}

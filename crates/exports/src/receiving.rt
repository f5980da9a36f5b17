// The receiver for Rust and C: it takes lines, and answers what its book answers while it is live. A state's
// number is tested before a State is made of it: answers are told in C's numbers, with no `?`, and a match of a `try_from` would be no plainer.
ghost use Rattle.std.specs.Prelude.{◌≡◌, length};
ghost use Rattle.types.specs.Replies.{map_reply};
ghost use Rattle.types.specs.Written.{fitted, written};
ghost use Rattle.told.specs.Numbers.{tell, one_number};
ghost use Rattle.questions.specs.Asked.{values_in};
ghost use Rattle.receiver.specs.Turns.{start};
ghost use Rattle.numbered.specs.Memory.{told_left};
ghost use Rattle.exports.specs.Receivers.{held_of, held_at, lent_held, taken_by, held_ask, held_numbers};

use crate::{Held, TurnTold};
use deltas::Counts;
use orderbook::lent::BookRows;
use receiver::{Receiver, State, rows};
use told::Told;
use types::Refusal;

#[unsafe(no_mangle)]
pub extern "C" fn wermazul_receiver() -> Held
    ensures { result ≡ held_of start }
{
    let receiver = Receiver::new();
    Held {
        state: u64::from(receiver.state),
        book: receiver.book,
    }
}

// Takes a line, its line feed included.
#[unsafe(no_mangle)]
pub extern "C" fn wermazul_take_line(
    bp: &mut [u32; 128],
    bq: &mut [u32; 128],
    ap: &mut [u32; 128],
    aq: &mut [u32; 128],
    state: u64,
    counts: Counts,
    line: &[u8],
) -> TurnTold
    ensures { record { receiver = held_at bp.new bq.new ap.new aq.new result.state result.counts; told = result.told } ≡ taken_by (held_at bp.old bq.old ap.old aq.old state counts) line.now }
{
    if state > 1 {
        return TurnTold {
            state,
            counts,
            told: Told::from(Refusal::NotARecord),
        };
    }
    let turned = rows::take_line(bp, bq, ap, aq, State::from(state == 1), counts, line);
    TurnTold {
        state: u64::from(turned.state),
        counts: turned.counts,
        told: Told::of(turned.outcome),
    }
}

// The receiver's answer to a question, numbered as a book's are.
#[unsafe(no_mangle)]
pub extern "C" fn wermazul_receiver_ask<'a>(
    bp: &'a [u32; 128],
    bq: &'a [u32; 128],
    ap: &'a [u32; 128],
    aq: &'a [u32; 128],
    state: u64,
    counts: Counts,
    question: u64,
    side: u64,
    small: u32,
    large: u64,
) -> Told
    ensures { result ≡ tell values_in (held_ask (lent_held bp bq ap aq state counts) question side small large) }
{
    if state > 1 {
        return Told::from(Refusal::NotARecord);
    }
    let book = BookRows::of(bp, bq, ap, aq, counts);
    let state = State::from(state == 1);
    match names::question_of(question, side, small, large) {
        Ok(question) => Told::of(receiver_questions::ask_at(book, state, question)),
        Err(why) => names::refused(book, why),
    }
}

// The places that a listing of the receiver's book fills, numbered as a book's are.
#[unsafe(no_mangle)]
pub extern "C" fn wermazul_receiver_places<'a>(
    bp: &'a [u32; 128],
    bq: &'a [u32; 128],
    ap: &'a [u32; 128],
    aq: &'a [u32; 128],
    state: u64,
    counts: Counts,
    listing: u64,
    side: u64,
    from: u64,
    to: u32,
    room: u64,
) -> Told
    ensures { result ≡ tell one_number (map_reply length (fitted room (held_numbers (lent_held bp bq ap aq state counts) listing side from to))) }
{
    if state > 1 {
        return Told::from(Refusal::NotARecord);
    }
    let book = BookRows::of(bp, bq, ap, aq, counts);
    let state = State::from(state == 1);
    match names::listing_of(listing, side, from, to) {
        Ok(listing) => Told::of(receiver_questions::places_at(book, state, listing, room as usize)),
        Err(why) => names::refused(book, why),
    }
}

// Writes a listing of the receiver's book to the front of lent memory: price, quantity, price, quantity.
#[unsafe(no_mangle)]
pub extern "C" fn wermazul_receiver_list<'a>(
    bp: &'a [u32; 128],
    bq: &'a [u32; 128],
    ap: &'a [u32; 128],
    aq: &'a [u32; 128],
    state: u64,
    counts: Counts,
    listing: u64,
    side: u64,
    from: u64,
    to: u32,
    out: &mut [u32],
) -> Told
    ensures { record { answer = result; memory = out.new } ≡ told_left (written (held_numbers (lent_held bp bq ap aq state counts) listing side from to) out.old) }
{
    if state > 1 {
        return Told::from(Refusal::NotARecord);
    }
    let book = BookRows::of(bp, bq, ap, aq, counts);
    let state = State::from(state == 1);
    match names::listing_of(listing, side, from, to) {
        Ok(listing) => Told::of(receiver_questions::write_at(book, state, listing, out)),
        Err(why) => names::refused(book, why),
    }
}

// The operations on lines of the feed, and on the receiver. Their numbers are those of the lists that are replayed:
// an enum would be made of a number by one match and matched again, no plainer.
#![tactic(auto)]

ghost use Rattle.std.specs.Prelude.{◌≤◌, length};

use deltas::BookDelta;
use fields::{delta, number, room, start};
use lines::ReadFrame;
use orderbook::OrderBook;
use receiver::{Receiver, State};
use told::Told;
use types::Refusal;

// Copies a line, and a line feed behind it; answers how many bytes that is.
fn copied(line: &[u8], out: &mut [u8]) -> usize
    ensures { result ≤ length out.new }
{
    let n = line.len().min(out.len());
    out[..n].copy_from_slice(&line[..n]);
    if n < out.len() {
        out[n] = b'\n';
        return n + 1;
    }
    n
}

// The same of the line from a field on, without the line feed where `whole` is 0.
fn fed(line: &[u8], index: usize, whole: u64, out: &mut [u8]) -> usize
    ensures { result ≤ length out.new }
{
    let from = start(line, index);
    let n = copied(&line[from..], out);
    if whole == 0 { n.saturating_sub(1) } else { n }
}

// A delta's side, action, price, quantity and sequence.
fn numbers(rt: &impl Print, d: BookDelta) {
    let values = [
        u64::from(d.side),
        u64::from(d.action),
        u64::from(d.price),
        u64::from(d.quantity),
        d.sequence,
    ];
    for value in values {
        output::value(rt, value);
    }
}

// What a line reads as. A snapshot's book takes the place of the one before.
fn shown(rt: &impl Print, book: &mut OrderBook, read: Result<ReadFrame, Refusal>) {
    match read {
        Ok(ReadFrame::Delta(d)) => {
            output::put(rt, b"0 1");
            numbers(rt, d);
        }
        Ok(ReadFrame::Snapshot(snapshot)) => {
            output::put(rt, b"0 2");
            *book = snapshot;
        }
        Err(why) => output::told(rt, Told::from(why)),
    }
}

fn read(rt: &impl Print, book: &mut OrderBook, line: &[u8], out: &mut [u8]) {
    let n = fed(line, 2, number(line, 1), out);
    shown(rt, book, lines::read_frame(&out[..n]));
}

// How long a line is that was written, and its digits.
fn written(rt: &impl Print, answer: Result<u64, Refusal>, out: &[u8]) {
    output::told(rt, Told::of(answer));
    let Ok(n) = answer else {
        return;
    };
    if let Some((_, digits)) = out.get(..n as usize).and_then(|line| line.split_last()) {
        output::put(rt, b" ");
        output::put(rt, digits);
    }
}

fn write_delta(rt: &impl Print, line: &[u8], out: &mut [u8]) {
    let room = room(line, 6, out.len());
    let answer = frames::write_delta(delta(line), &mut out[..room]);
    written(rt, answer, out);
}

fn write_snapshot(rt: &impl Print, book: &OrderBook, line: &[u8], out: &mut [u8]) {
    let room = room(line, 1, out.len());
    let answer = lines::snapshot::write_snapshot(*book, &mut out[..room]);
    written(rt, answer, out);
}

// Every digit of the line, spoilt.
fn spoil(rt: &impl Print, line: &[u8], out: &mut [u8]) {
    let n = fed(line, 1, 1, out);
    let tries = spoiling::spoilt(&mut out[..n]);
    output::number(rt, 0);
    output::value(rt, tries.tried);
    output::value(rt, tries.frames);
}

// A line is read and written in an array: memory is fixed and no heap is used.
pub fn step(rt: &impl Print, book: &mut OrderBook, kind: u64, line: &[u8]) {
    let mut memory = [0u8; 65536];
    let out: &mut [u8] = &mut memory;
    match kind {
        21 => read(rt, book, line, out),
        22 => write_delta(rt, line, out),
        23 => write_snapshot(rt, book, line, out),
        24 => spoil(rt, line, out),
        _ => output::put(rt, b"?"),
    }
}

// Shown are what became of the line, and the receiver's state with the sequence that it holds.
pub fn take(rt: &impl Print, receiver: &mut Receiver, line: &[u8]) {
    let mut memory = [0u8; 65536];
    let n = fed(line, 2, number(line, 1), &mut memory);
    let taken = receiver.take_line(&memory[..n]);
    *receiver = taken.receiver;
    output::told(rt, Told::of(taken.outcome));
    let state: &[u8] = match receiver.state {
        State::Waiting => b" waiting",
        State::Live => b" live",
    };
    output::put(rt, state);
    output::value(rt, receiver.book.sequence);
}

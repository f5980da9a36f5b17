// The frames of the feed, and a delta's line, read and written: 01, side, action, price 4, quantity 4, sequence 8, check. A line is read to bytes,
// which are then tested: their own digits, the line feed, the kind, side and action, the sum, the limits. A snapshot's line stands in `lines`.
#![tactic(auto)]

ghost use Rattle.std.specs.Prelude.{◌≡◌, [], ◌++◌, ◌≤◌, length, drop};
ghost use Rattle.types.specs.Answers.{reply_of};
ghost use Rattle.types.specs.Written.{written};
ghost use Rattle.wire.specs.Wire.{Part, be};
ghost use Rattle.frames.specs.Frames.{delta, encode, is_whole};
ghost use Rattle.frames.specs.Decode.{decode, delta_read};
ghost use Rattle.frames.specs.Inner.Bytes.{delta_of, is_delta};
ghost use Rattle.frames.specs.Sent.{as_sent, delta_line};

use deltas::{BookDelta, DeltaAction};
use types::{Refusal, Side};

// Whether a frame's delta is whole: a Remove's quantity must be 0.
fn is_whole(d: BookDelta) -> bool
    ensures { result ≡ is_whole (delta d) }
{
    deltas::delta_fits(d.action, d.price, d.quantity)
        && match d.action {
            DeltaAction::Set => true,
            DeltaAction::Remove => d.quantity == 0,
        }
}

// A delta as it is sent: a Remove's quantity is 0.
fn as_sent(d: BookDelta) -> BookDelta
    ensures { result ≡ as_sent d }
{
    match d.action {
        DeltaAction::Set => d,
        DeltaAction::Remove => BookDelta { quantity: 0, ..d },
    }
}

// Writes a delta's kind, side and action, and returns the sum of their bytes.
fn put_kind(out: &mut [u8], side: u64, action: u64) -> u64
    requires { 6 ≤ length out.old }
    ensures { Part (be 1 1 (be 1 side (be 1 action []))) 0 out.old out.new result }
{
    let sum = wire::put(out, 0, 1, 1);
    let sum2 = wire::put(out, 1, 1, side);
    let sum3 = wire::put(out, 2, 1, action);
    sum + (sum2 + sum3)
}

// Writes a delta's price, quantity and sequence, and returns the sum of their bytes.
fn put_numbers(out: &mut [u8], price: u32, quantity: u32, sequence: u64) -> u64
    requires { 38 ≤ length out.old }
    ensures { Part (be 4 price (be 4 quantity (be 8 sequence []))) 3 out.old out.new result }
{
    let sum = wire::put(out, 3, 4, price as u64);
    let sum2 = wire::put(out, 7, 4, quantity as u64);
    let sum3 = wire::put(out, 11, 8, sequence);
    sum + (sum2 + sum3)
}

// Writes a delta's line at the front of `out`.
fn put_delta(d: BookDelta, out: &mut [u8])
    requires { 41 ≤ length out.old }
    ensures { out.new ≡ encode (delta d) ++ drop 41 out.old }
{
    let sum = put_kind(out, u64::from(d.side), u64::from(d.action));
    let sum2 = put_numbers(out, d.price, d.quantity, d.sequence);
    wire::finish(out, 19, sum + sum2);
}

// Writes a delta's line at the front of `out` and answers its length; 2 if a number is outside its limits, 11 if there is no room.
pub fn write_delta(d: BookDelta, out: &mut [u8]) -> Result<u64, Refusal>
    ensures { record { answer = reply_of result; memory = out.new } ≡ written (delta_line d) out.old }
{
    if !deltas::delta_fits(d.action, d.price, d.quantity) {
        return Err(Refusal::OutOfLimits);
    }
    if out.len() < 41 {
        return Err(Refusal::NoRoom);
    }
    put_delta(as_sent(d), out);
    Ok(41)
}

// The numbers that stand where a delta has its own, in the bytes of a line.
fn delta_in(bytes: &[u8; 20]) -> BookDelta
    ensures { result ≡ delta_of bytes.now }
{
    let side = Side::from(bytes[1] == 1);
    let action = DeltaAction::from(bytes[2] == 1);
    BookDelta {
        side,
        price: wire::number(bytes, 3, 4) as u32,
        quantity: wire::number(bytes, 7, 4) as u32,
        action,
        sequence: wire::number(bytes, 11, 8),
    }
}

// Whether bytes are of a delta's kind, with a side and an action, and add up to a multiple of 256.
fn is_delta(bytes: &[u8; 20]) -> bool
    ensures { result ≡ is_delta bytes.now }
{
    bytes[0] == 1 && bytes[1] <= 1 && bytes[2] <= 1 && wire::sum(bytes) % 256 == 0
}

// The delta that a line is; 12 for any other line. The line has its line feed.
pub fn read_delta(line: &[u8]) -> Result<BookDelta, Refusal>
    ensures { reply_of result ≡ delta_read (decode line.now) }
{
    let mut bytes = [0u8; 20];
    if line.len() != 41
        || line[40] != 10
        || !wire::read_bytes(line, 20, &mut bytes)
        || !is_delta(&bytes)
    {
        return Err(Refusal::DamagedLine);
    }
    let d = delta_in(&bytes);
    if !is_whole(d) {
        return Err(Refusal::DamagedLine);
    }
    Ok(d)
}

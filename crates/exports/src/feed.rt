// The lines of the feed for Rust and C. A line has its line feed.
ghost use Rattle.std.specs.Prelude.{◌≡◌};
ghost use Rattle.types.specs.Written.{written};
ghost use Rattle.told.specs.Numbers.{tell};
ghost use Rattle.orderbook.specs.Lent.{lent_book};
ghost use Rattle.frames.specs.Decode.{decode};
ghost use Rattle.frames.specs.Sent.{snapshot_line};
ghost use Rattle.lines.specs.Read.{read_as};
ghost use Rattle.streams.specs.Streams.{line_end};
ghost use Rattle.names.specs.Kinds.{kind_of};
ghost use Rattle.exports.specs.Feeds.{bare_line, delta_told, line_told, delta_line_by};
ghost use Rattle.numbered.specs.Memory.{told_left};

use crate::LineTold;
use deltas::{BookDelta, Counts};
use lines::ReadFrame;
use orderbook::OrderBook;
use orderbook::lent::BookRows;
use told::Told;

// What a line is: 0 and its kind, 1 for a delta and 2 for a snapshot, or 12.
#[unsafe(no_mangle)]
pub extern "C" fn wermazul_line_kind(line: &[u8]) -> Told
    ensures { result ≡ tell kind_of (read_as (decode line.now)).reply }
{
    names::kind_told(lines::read_frame(line))
}

// A line that is no delta.
fn bare_line(told: Told, book: OrderBook) -> LineTold
    ensures { result ≡ bare_line told book }
{
    LineTold {
        told,
        side: 0,
        action: 0,
        price: 0,
        quantity: 0,
        sequence: 0,
        book,
    }
}

fn delta_told(told: Told, delta: BookDelta, book: OrderBook) -> LineTold
    ensures { result ≡ delta_told told delta book }
{
    LineTold {
        told,
        side: u64::from(delta.side),
        action: u64::from(delta.action),
        price: delta.price,
        quantity: delta.quantity,
        sequence: delta.sequence,
        book,
    }
}

#[unsafe(no_mangle)]
pub extern "C" fn wermazul_read_line(line: &[u8]) -> LineTold
    ensures { result ≡ line_told (read_as (decode line.now)) }
{
    let read = lines::read_frame(line);
    let told = names::kind_told(read);
    match read {
        Ok(ReadFrame::Delta(delta)) => delta_told(told, delta, OrderBook::new()),
        Ok(ReadFrame::Snapshot(book)) => bare_line(told, book),
        Err(_) => bare_line(told, OrderBook::new()),
    }
}

// Where the first line of a text ends, its line feed included.
#[unsafe(no_mangle)]
pub extern "C" fn wermazul_line_end(text: &[u8]) -> u64
    ensures { result ≡ line_end text.now }
{
    streams::line_end(text) as u64
}

// Writes a delta's line to the front of lent memory and answers its length.
#[unsafe(no_mangle)]
pub extern "C" fn wermazul_write_delta(
    side: u64,
    action: u64,
    price: u32,
    quantity: u32,
    sequence: u64,
    out: &mut [u8],
) -> Told
    ensures { record { answer = result; memory = out.new } ≡ told_left (written (delta_line_by side action price quantity sequence) out.old) }
{
    match names::delta_of(side, action, price, quantity, sequence) {
        Ok(delta) => Told::of(frames::write_delta(delta, out)),
        Err(why) => Told::from(why),
    }
}

// Writes a book's line to the front of lent memory and answers its length.
#[unsafe(no_mangle)]
pub extern "C" fn wermazul_write_snapshot<'a>(
    bp: &'a [u32; 128],
    bq: &'a [u32; 128],
    ap: &'a [u32; 128],
    aq: &'a [u32; 128],
    counts: Counts,
    out: &mut [u8],
) -> Told
    ensures { record { answer = result; memory = out.new } ≡ told_left (written (snapshot_line (lent_book bp bq ap aq counts)) out.old) }
{
    let book = BookRows::of(bp, bq, ap, aq, counts);
    Told::of(lines::snapshot::write_snapshot_at(book, out))
}

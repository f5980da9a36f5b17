// A snapshot's line: 02, sequence 8, bid count, ask count, levels as price 4 and quantity 4, bids then asks, check. It is read leniently, into tables,
// which are tested to be a book, written again and compared. It is written from a book that is lent as its rows. The arrays have fixed lengths, since
// no heap is used.
ghost use Rattle.std.specs.Prelude.{◌≡◌, true, [], ◌++◌, ◌+◌, ◌*◌, ◌≤◌, length, drop};
ghost use Rattle.types.specs.Answers.{reply_of};
ghost use Rattle.types.specs.Written.{written};
ghost use Rattle.levels.specs.Table.{levels, table};
ghost use Rattle.levels.specs.Lent.{levels_in as held_in};
ghost use Rattle.orderbook.specs.Lent.{book_in};
ghost use Rattle.wire.specs.Wire.{Part, be, field};
ghost use Rattle.frames.specs.Frames.{snapshot, snapshot_of, book_of, level_bytes, encode};
ghost use Rattle.frames.specs.Decode.{levels_in, snapshot_in, same, decode};
ghost use Rattle.frames.specs.Sent.{snapshot_line};
ghost use Rattle.lines.specs.Read.{change_read, snapshot_read};
ghost use Rattle.lines.specs.Inner.Tables.{Room, CountsFit};

use deltas::Counts;
use levels::Levels;
use levels::lent::SideRows;
use orderbook::OrderBook;
use orderbook::lent::BookRows;
use types::Refusal;

// Writes a side's levels from byte `at` on, and returns the sum of their bytes. A level is two numbers, and the third, of width 0, writes nothing:
// it is put by `put3` for the speed that is told there.
fn put_levels(out: &mut [u8], at: usize, lent: SideRows<'_>) -> u64
    requires { (2 * (at + 8 * lent.count) ≤ length out.old) × (lent.count ≤ 128) }
    ensures { Part (level_bytes (levels (held_in lent.entry)) []) at out.old out.new result }
{
    let mut sum: u64 = 0;
    for i in 0..lent.count {
        let price = lent.prices[i] as u64;
        let quantity = lent.quantities[i] as u64;
        sum += wire::put3(out, at + 8 * i, 4, price, 4, quantity, 0, 0);
    }
    sum
}

// Writes a snapshot's kind, sequence and counts, and returns the sum of their bytes.
fn put_counts(out: &mut [u8], counts: Counts) -> u64
    requires { 22 ≤ length out.old }
    ensures { Part (be 1 2 (be 8 counts.sequence (be 1 counts.bids (be 1 counts.asks [])))) 0 out.old out.new result }
{
    let sum = wire::put3(out, 0, 1, 2, 8, counts.sequence, 1, counts.bids as u64);
    let sum2 = wire::put(out, 10, 1, counts.asks as u64);
    sum + sum2
}

// Writes the line of a book's snapshot at the front of `out`.
fn put_snapshot(lent: BookRows<'_>, out: &mut [u8])
    requires { Room (book_in lent) out.old }
    ensures { out.new ≡ encode (snapshot (snapshot_of (book_in lent.entry))) ++ drop (length (encode (snapshot (snapshot_of (book_in lent.entry))))) out.old }
{
    let at = 11 + 8 * lent.bids.count;
    let end = at + 8 * lent.asks.count;
    let sum = put_counts(out, lent.counts());
    let sum2 = put_levels(out, 11, lent.bids);
    let sum3 = put_levels(out, at, lent.asks);
    wire::finish(out, end, sum + sum2 + sum3);
}

// Writes the line of a book's snapshot at the front of `out` and answers its length; 1 if the rows make no book, 11 if there is no room.
pub fn write_snapshot_at(lent: BookRows<'_>, out: &mut [u8]) -> Result<u64, Refusal>
    ensures { record { answer = reply_of result; memory = out.new } ≡ written (snapshot_line (book_in lent.entry)) out.old }
{
    if !lent.is_book() {
        return Err(Refusal::NotARecord);
    }
    let n = 25 + 16 * (lent.bids.count + lent.asks.count);
    if out.len() < n {
        return Err(Refusal::NoRoom);
    }
    put_snapshot(lent, out);
    Ok(n as u64)
}

// The same of a record by value.
pub fn write_snapshot(book: OrderBook, out: &mut [u8]) -> Result<u64, Refusal>
    ensures { record { answer = reply_of result; memory = out.new } ≡ written (snapshot_line book) out.old }
{
    write_snapshot_at(book.rows(), out)
}

// Reads n levels from byte `at` on into a table.
fn read_side(line: &[u8], at: usize, n: usize) -> Levels
    requires { (2 * (at + 8 * n) ≤ length line.now) × (n ≤ 128) × (at ≤ 2048) }
    ensures { result ≡ table (levels_in n (drop (2 * at) line.now)) }
{
    let mut prices = [0u32; 128];
    let mut quantities = [0u32; 128];
    wire::read_column(line, at, n, &mut prices);
    wire::read_column(line, at + 4, n, &mut quantities);
    Levels {
        prices,
        quantities,
        count: n,
    }
}

// Reads the numbers that stand where a snapshot has its own into a book; its counts are read already.
fn read_book(line: &[u8], bids: usize, asks: usize) -> OrderBook
    requires { (bids ≡ field 9 1 line.now) × (asks ≡ field 10 1 line.now) × CountsFit (length line.now) bids asks }
    ensures { result ≡ book_of (snapshot_in line.now) }
{
    OrderBook {
        bids: read_side(line, 11, bids),
        asks: read_side(line, 11 + 8 * bids, asks),
        sequence: wire::field(line, 1, 8),
    }
}

// Whether a line of this size is as long as its counts say, and they are at most 128.
fn counts_fit(size: usize, bids: usize, asks: usize) -> bool
    ensures { (result ≡ true → CountsFit size bids asks) × (CountsFit size bids asks → result ≡ true) }
{
    bids <= 128 && asks <= 128 && size == 25 + 16 * (bids + asks)
}

// Whether a line is that of the book's snapshot, the longest of which has 4,120 digits and a line feed.
fn is_line_of(line: &[u8], lent: BookRows<'_>) -> bool
    requires { (lent.bids.count ≤ 128) × (lent.asks.count ≤ 128) }
    ensures { result ≡ same line.now (encode (snapshot (snapshot_of (book_in lent.entry)))) }
{
    let n = 25 + 16 * (lent.bids.count + lent.asks.count);
    let mut own = [0u8; 4121];
    put_snapshot(lent, &mut own);
    wire::same(line, &own[..n])
}

// The book of the snapshot that a line is; 12 for any other line. The line has its line feed.
pub fn read_snapshot(line: &[u8]) -> Result<OrderBook, Refusal>
    ensures { change_read result ≡ snapshot_read (decode line.now) }
{
    if line.len() < 25 {
        return Err(Refusal::DamagedLine);
    }
    let bids = wire::field(line, 9, 1) as usize;
    let asks = wire::field(line, 10, 1) as usize;
    if !counts_fit(line.len(), bids, asks) {
        return Err(Refusal::DamagedLine);
    }
    let book = read_book(line, bids, asks);
    if !book.is_book() {
        return Err(Refusal::DamagedLine);
    }
    if !is_line_of(line, book.rows()) {
        return Err(Refusal::DamagedLine);
    }
    Ok(book)
}

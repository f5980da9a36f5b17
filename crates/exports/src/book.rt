// The book for Rust and C: its changes, its questions and its listings.
ghost use Rattle.std.specs.Prelude.{◌≡◌, length};
ghost use Rattle.types.specs.Replies.{map_reply};
ghost use Rattle.types.specs.Written.{fitted, written};
ghost use Rattle.told.specs.Numbers.{tell, one_number};
ghost use Rattle.orderbook.specs.Book.{is_book, empty_book};
ghost use Rattle.orderbook.specs.Apply.{cleared};
ghost use Rattle.orderbook.specs.Lent.{book_at, lent_book};
ghost use Rattle.questions.specs.Asked.{values_in};
ghost use Rattle.numbered.specs.Books.{book_told, applied_by, cleared_by, asked_by, listed_by};
ghost use Rattle.numbered.specs.Memory.{told_left};

use deltas::Counts;
use numbered::CountsTold;
use orderbook::lent::BookRows;
use orderbook::{OrderBook, rows};
use told::Told;

#[unsafe(no_mangle)]
pub extern "C" fn wermazul_book() -> OrderBook
    ensures { result ≡ empty_book }
{
    OrderBook::new()
}

#[unsafe(no_mangle)]
pub extern "C" fn wermazul_is_book<'a>(
    bp: &'a [u32; 128],
    bq: &'a [u32; 128],
    ap: &'a [u32; 128],
    aq: &'a [u32; 128],
    counts: Counts,
) -> bool
    ensures { result ≡ is_book (lent_book bp bq ap aq counts) }
{
    rows::is_book(bp, bq, ap, aq, counts)
}

// The delta of these numbers, on the rows; numbers that name nothing leave them.
#[unsafe(no_mangle)]
pub extern "C" fn wermazul_apply_delta(
    bp: &mut [u32; 128],
    bq: &mut [u32; 128],
    ap: &mut [u32; 128],
    aq: &mut [u32; 128],
    counts: Counts,
    side: u64,
    action: u64,
    price: u32,
    quantity: u32,
    sequence: u64,
) -> CountsTold
    ensures { record { book = book_at bp.new bq.new ap.new aq.new result.counts; told = result.told } ≡ book_told (applied_by (book_at bp.old bq.old ap.old aq.old counts) side action price quantity sequence) }
{
    numbered::apply_delta(
        bp, bq, ap, aq, counts, side, action, price, quantity, sequence,
    )
}

#[unsafe(no_mangle)]
pub extern "C" fn wermazul_clear(
    bp: &mut [u32; 128],
    bq: &mut [u32; 128],
    ap: &mut [u32; 128],
    aq: &mut [u32; 128],
    counts: Counts,
) -> CountsTold
    ensures { record { book = book_at bp.new bq.new ap.new aq.new result.counts; told = result.told } ≡ book_told (cleared (book_at bp.old bq.old ap.old aq.old counts)) }
{
    numbered::clear(bp, bq, ap, aq, counts)
}

// Empties the side of this number; one that names none leaves the rows.
#[unsafe(no_mangle)]
pub extern "C" fn wermazul_remove_all(
    bp: &mut [u32; 128],
    bq: &mut [u32; 128],
    ap: &mut [u32; 128],
    aq: &mut [u32; 128],
    counts: Counts,
    side: u64,
) -> CountsTold
    ensures { record { book = book_at bp.new bq.new ap.new aq.new result.counts; told = result.told } ≡ book_told (cleared_by (book_at bp.old bq.old ap.old aq.old counts) side) }
{
    numbered::remove_all(bp, bq, ap, aq, counts, side)
}

// The book's answer to a question.
#[unsafe(no_mangle)]
pub extern "C" fn wermazul_ask<'a>(
    bp: &'a [u32; 128],
    bq: &'a [u32; 128],
    ap: &'a [u32; 128],
    aq: &'a [u32; 128],
    counts: Counts,
    question: u64,
    side: u64,
    small: u32,
    large: u64,
) -> Told
    ensures { result ≡ tell values_in (asked_by (lent_book bp bq ap aq counts) question side small large) }
{
    numbered::ask(
        BookRows::of(bp, bq, ap, aq, counts),
        question,
        side,
        small,
        large,
    )
}

// The places that a listing fills in memory of `room` places.
#[unsafe(no_mangle)]
pub extern "C" fn wermazul_places<'a>(
    bp: &'a [u32; 128],
    bq: &'a [u32; 128],
    ap: &'a [u32; 128],
    aq: &'a [u32; 128],
    counts: Counts,
    listing: u64,
    side: u64,
    from: u64,
    to: u32,
    room: u64,
) -> Told
    ensures { result ≡ tell one_number (map_reply length (fitted room (listed_by (lent_book bp bq ap aq counts) listing side from to))) }
{
    numbered::places(
        BookRows::of(bp, bq, ap, aq, counts),
        listing,
        side,
        from,
        to,
        room,
    )
}

// Writes a listing to the front of lent memory: price, quantity, price, quantity.
#[unsafe(no_mangle)]
pub extern "C" fn wermazul_list<'a>(
    bp: &'a [u32; 128],
    bq: &'a [u32; 128],
    ap: &'a [u32; 128],
    aq: &'a [u32; 128],
    counts: Counts,
    listing: u64,
    side: u64,
    from: u64,
    to: u32,
    out: &mut [u32],
) -> Told
    ensures { record { answer = result; memory = out.new } ≡ told_left (written (listed_by (lent_book bp bq ap aq counts) listing side from to) out.old) }
{
    numbered::list(
        BookRows::of(bp, bq, ap, aq, counts),
        listing,
        side,
        from,
        to,
        out,
    )
}

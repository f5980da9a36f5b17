// A book lent as its four rows (bid prices, bid quantities, ask prices, ask quantities), with its counts beside them: no row is copied, and a
// change is done to the rows where they stand. Each promise is of the book that the rows and the counts make (specs/Lent.antt). What changes rows
// takes them one by one, as the C interface lends them: of a struct of `&mut` rows a clause names each by its place alone (`exit.1.1.0.now`), no plainer.
ghost use Rattle.std.specs.Prelude.{◌≡◌, true, Ok};
ghost use Rattle.types.specs.Answers.{reply_of};
ghost use Rattle.deltas.specs.Inner.Admitting.{Admission};
ghost use Rattle.levels.specs.Lent.{levels_in};
ghost use Rattle.orderbook.specs.Book.{side_of, is_book};
ghost use Rattle.orderbook.specs.Apply.{applied, cleared, side_cleared};
ghost use Rattle.orderbook.specs.Lent.{book_at, book_in, counts_in, lent_book};
ghost use Rattle.orderbook.specs.Inner.Long.{Long};

use crate::lent::BookRows;
use deltas::{BookDelta, Counts};
use levels::formed;
use levels::lent::SideRows;
use sides::top;
use types::{Refusal, Side};

impl<'a> BookRows<'a> {
    // The rows of a book (bid prices, bid quantities, ask prices, ask quantities), and its counts.
    pub fn of(
        bp: &'a [u32; 128],
        bq: &'a [u32; 128],
        ap: &'a [u32; 128],
        aq: &'a [u32; 128],
        counts: Counts,
    ) -> BookRows<'a>
        ensures { book_in result ≡ lent_book bp bq ap aq counts }
    {
        BookRows {
            bids: SideRows {
                prices: bp,
                quantities: bq,
                count: counts.bids,
            },
            asks: SideRows {
                prices: ap,
                quantities: aq,
                count: counts.asks,
            },
            sequence: counts.sequence,
        }
    }

    // Whether they make a book.
    pub fn is_book(self) -> bool
        ensures { result ≡ is_book (book_in self.entry) }
    {
        if !formed::well_formed(Side::Bid, self.bids) {
            return false;
        }
        if !formed::well_formed(Side::Ask, self.asks) {
            return false;
        }
        top::is_apart(top::best_of(self.bids), top::best_of(self.asks))
    }

    // The counts and the sequence.
    pub fn counts(self) -> Counts
        ensures { result ≡ counts_in (book_in self.entry) }
    {
        Counts {
            bids: self.bids.count,
            asks: self.asks.count,
            sequence: self.sequence,
        }
    }

    // One side of them.
    pub fn side(self, side: Side) -> SideRows<'a>
        ensures { levels_in result ≡ side_of side (book_in self.entry) }
    {
        match side {
            Side::Bid => self.bids,
            Side::Ask => self.asks,
        }
    }
}

// Whether the rows and the counts make a book.
pub fn is_book<'a>(
    bp: &'a [u32; 128],
    bq: &'a [u32; 128],
    ap: &'a [u32; 128],
    aq: &'a [u32; 128],
    counts: Counts,
) -> bool
    ensures { (result ≡ is_book (lent_book bp bq ap aq counts)) × Long (lent_book bp bq ap aq counts) }
{
    BookRows::of(bp, bq, ap, aq, counts).is_book()
}

// A delta that is admitted, to rows that are known to make a book.
pub fn apply_to_book(
    bp: &mut [u32; 128],
    bq: &mut [u32; 128],
    ap: &mut [u32; 128],
    aq: &mut [u32; 128],
    counts: &mut Counts,
    delta: BookDelta,
) -> Result<(), Refusal>
    requires { (is_book (book_at bp.old bq.old ap.old aq.old counts.old) ≡ true) × Long (book_at bp.old bq.old ap.old aq.old counts.old) × Admission (Ok tt) counts.old.sequence delta }
    ensures { record { book = book_at bp.new bq.new ap.new aq.new counts.new; reply = reply_of result } ≡ applied (book_at bp.old bq.old ap.old aq.old counts.old) delta }
{
    let side = delta.side;
    match side {
        Side::Bid => {
            let best = deltas::top(ap);
            deltas::apply_side(Side::Bid, bp, bq, best, counts, delta)
        }
        Side::Ask => {
            let best = deltas::top(bp);
            deltas::apply_side(Side::Ask, ap, aq, best, counts, delta)
        }
    }
}

// Set puts a quantity at a price, Remove takes a level away; the sequence then becomes the delta's. A refusal leaves the rows and the counts as they were.
#[tactic(auto, unfolding(crate::specs::Apply::applied))]
pub fn apply_delta(
    bp: &mut [u32; 128],
    bq: &mut [u32; 128],
    ap: &mut [u32; 128],
    aq: &mut [u32; 128],
    counts: &mut Counts,
    delta: BookDelta,
) -> Result<(), Refusal>
    ensures { record { book = book_at bp.new bq.new ap.new aq.new counts.new; reply = reply_of result } ≡ applied (book_at bp.old bq.old ap.old aq.old counts.old) delta }
{
    if !is_book(bp, bq, ap, aq, *counts) {
        return Err(Refusal::NotARecord);
    }
    deltas::admit(delta, counts.sequence)?;
    apply_to_book(bp, bq, ap, aq, counts, delta)
}

// Empties both sides and sets sequence 0.
#[tactic(auto, unfolding(crate::specs::Apply::cleared))]
pub fn clear(
    bp: &mut [u32; 128],
    bq: &mut [u32; 128],
    ap: &mut [u32; 128],
    aq: &mut [u32; 128],
    counts: &mut Counts,
) -> Result<(), Refusal>
    ensures { record { book = book_at bp.new bq.new ap.new aq.new counts.new; reply = reply_of result } ≡ cleared (book_at bp.old bq.old ap.old aq.old counts.old) }
{
    if !is_book(bp, bq, ap, aq, *counts) {
        return Err(Refusal::NotARecord);
    }
    *bp = [0; 128];
    *bq = [0; 128];
    *ap = [0; 128];
    *aq = [0; 128];
    *counts = Counts {
        bids: 0,
        asks: 0,
        sequence: 0,
    };
    Ok(())
}

// Empties one side and keeps the sequence.
#[tactic(auto, unfolding(crate::specs::Apply::side_cleared))]
pub fn remove_all(
    bp: &mut [u32; 128],
    bq: &mut [u32; 128],
    ap: &mut [u32; 128],
    aq: &mut [u32; 128],
    counts: &mut Counts,
    side: Side,
) -> Result<(), Refusal>
    ensures { record { book = book_at bp.new bq.new ap.new aq.new counts.new; reply = reply_of result } ≡ side_cleared side (book_at bp.old bq.old ap.old aq.old counts.old) }
{
    if !is_book(bp, bq, ap, aq, *counts) {
        return Err(Refusal::NotARecord);
    }
    match side {
        Side::Bid => {
            *bp = [0; 128];
            *bq = [0; 128];
        }
        Side::Ask => {
            *ap = [0; 128];
            *aq = [0; 128];
        }
    }
    *counts = counts.with(side, 0, counts.sequence);
    Ok(())
}

// Each listing of a book by value, under the original's name; a second name goes by the one before it. The filled front of the buffer is handed
// back, empty on a refusal. Second names are the original's, each a promise in docs/PROMISES.md.
ghost use Rattle.std.specs.Prelude.{◌≡◌, length};
ghost use Rattle.types.specs.declared.Side.TheVariants.{Bid, Ask};
ghost use Rattle.types.specs.Written.{fitted};
ghost use Rattle.listings.specs.declared.Listing.TheVariants.{Top, Snapshot, Between};
ghost use Rattle.listings.specs.Listed.{numbers_of, front_of};

use crate::{Listing, list};
use orderbook::OrderBook;
use types::{Price, Side};

// The best `n` bids.
pub fn top_bids<'a>(book: OrderBook, n: usize, out: &'a mut [u32]) -> &'a mut [u32]
    ensures { (result.ref_ptr ≡ out.entry.ref_ptr) × (result.now ≡ front_of (fitted (length out.old) (numbers_of (Top Bid n) book))) }
{
    list(book, Listing::Top(Side::Bid, n), out)
}

pub fn bid_depth<'a>(book: OrderBook, n: usize, out: &'a mut [u32]) -> &'a mut [u32]
    ensures { (result.ref_ptr ≡ out.entry.ref_ptr) × (result.now ≡ front_of (fitted (length out.old) (numbers_of (Top Bid n) book))) }
{
    top_bids(book, n, out)
}

pub fn top_n_bid_levels<'a>(book: OrderBook, n: usize, out: &'a mut [u32]) -> &'a mut [u32]
    ensures { (result.ref_ptr ≡ out.entry.ref_ptr) × (result.now ≡ front_of (fitted (length out.old) (numbers_of (Top Bid n) book))) }
{
    bid_depth(book, n, out)
}

// The best `n` asks.
pub fn top_asks<'a>(book: OrderBook, n: usize, out: &'a mut [u32]) -> &'a mut [u32]
    ensures { (result.ref_ptr ≡ out.entry.ref_ptr) × (result.now ≡ front_of (fitted (length out.old) (numbers_of (Top Ask n) book))) }
{
    list(book, Listing::Top(Side::Ask, n), out)
}

pub fn ask_depth<'a>(book: OrderBook, n: usize, out: &'a mut [u32]) -> &'a mut [u32]
    ensures { (result.ref_ptr ≡ out.entry.ref_ptr) × (result.now ≡ front_of (fitted (length out.old) (numbers_of (Top Ask n) book))) }
{
    top_asks(book, n, out)
}

pub fn top_n_ask_levels<'a>(book: OrderBook, n: usize, out: &'a mut [u32]) -> &'a mut [u32]
    ensures { (result.ref_ptr ≡ out.entry.ref_ptr) × (result.now ≡ front_of (fitted (length out.old) (numbers_of (Top Ask n) book))) }
{
    ask_depth(book, n, out)
}

// The best `n` levels of both sides, bids first.
pub fn snapshot<'a>(book: OrderBook, n: usize, out: &'a mut [u32]) -> &'a mut [u32]
    ensures { (result.ref_ptr ≡ out.entry.ref_ptr) × (result.now ≡ front_of (fitted (length out.old) (numbers_of (Snapshot n) book))) }
{
    list(book, Listing::Snapshot(n), out)
}

// The levels of a side from `lo` to `hi`, upward on both sides.
pub fn price_levels_between<'a>(
    book: OrderBook,
    side: Side,
    lo: Price,
    hi: Price,
    out: &'a mut [u32],
) -> &'a mut [u32]
    ensures { (result.ref_ptr ≡ out.entry.ref_ptr) × (result.now ≡ front_of (fitted (length out.old) (numbers_of (Between side lo hi) book))) }
{
    list(book, Listing::Between(side, lo, hi), out)
}

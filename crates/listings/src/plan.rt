// What a listing takes of a book: a run of each side, and the answer. A refusal takes nothing, so that it is written without a question, and
// fits any buffer: 11 comes last. So the answer stays beside the runs: a `Result` of the runs has no runs at a refusal, and the edit that lets a
// refusal write a level (refusal_writes_a_bid) could not be made.
ghost use Rattle.std.specs.Prelude.{◌≡◌, true, false, ◌≤◌, min, take};
ghost use Rattle.levels.specs.Order.{ahead_of};
ghost use Rattle.sides.specs.Inner.Limits.{OfSide};
ghost use Rattle.orderbook.specs.Lent.{book_in};
ghost use Rattle.listings.specs.Listed.{is_range, numbers_of};
ghost use Rattle.listings.specs.Inner.Plans.{nothing, taking, in_room, best_runs, run_between, range_runs, Plans};

use crate::Listing;
use crate::run::Run;
use deltas::Counts;
use levels::lent::SideRows;
use orderbook::lent::BookRows;
use types::{Price, Refusal, Side};

#[derive(Clone, Copy)]
pub struct Plan {
    pub bids: Run,
    pub asks: Run,
    pub answer: Result<u64, Refusal>,
}

// No levels.
const NONE: Run = Run {
    from: 0,
    count: 0,
    turned: false,
};

// A refusal.
fn nothing(why: Refusal) -> Plan
    ensures { result ≡ nothing why }
{
    Plan {
        bids: NONE,
        asks: NONE,
        answer: Err(why),
    }
}

// Two runs, and the places that they fill.
fn taking(bids: Run, asks: Run) -> Plan
    requires { (bids.count ≤ 128) × (asks.count ≤ 128) }
    ensures { result ≡ taking bids asks }
{
    let places = 2 * (bids.count + asks.count);
    Plan {
        bids,
        asks,
        answer: Ok(places as u64),
    }
}

impl Plan {
    // The plan, if what it takes fits a buffer of `room` places.
    pub(crate) fn in_room(self, room: usize) -> Plan
        requires { (self.bids.count ≤ 128) × (self.asks.count ≤ 128) }
        ensures { result ≡ in_room room self }
    {
        if room < 2 * (self.bids.count + self.asks.count) {
            return nothing(Refusal::NoRoom);
        }
        self
    }
}

// The best `bids` bids and the best `asks` asks.
fn best_runs(bids: usize, asks: usize, counts: Counts) -> Plan
    requires { (counts.bids ≤ 128) × (counts.asks ≤ 128) }
    ensures { result ≡ best_runs bids asks counts }
{
    taking(
        Run {
            from: 0,
            count: bids.min(counts.bids),
            turned: false,
        },
        Run {
            from: 0,
            count: asks.min(counts.asks),
            turned: false,
        },
    )
}

// Whether both are prices and `lo` is not above `hi`.
fn is_range(lo: Price, hi: Price) -> bool
    ensures { result ≡ is_range lo hi }
{
    types::is_price(lo) && types::is_price(hi) && lo <= hi
}

// The levels from the price `first` to the price `last`, which is not ahead of it.
fn run_between(side: Side, lent: SideRows<'_>, first: Price, last: Price, turned: bool) -> Run
    requires { OfSide side lent × (ahead_of side last first ≡ false) }
    ensures { result ≡ run_between side first last turned (take lent.entry.count lent.entry.prices.now) }
{
    let from = lent.find(side, first).ahead();
    let end = lent.find(side, last).reached();
    Run {
        from,
        count: end - from,
        turned,
    }
}

// The levels from `lo` to `hi`, upward: bids come the other way round.
fn range_runs(side: Side, lent: SideRows<'_>, lo: Price, hi: Price) -> Plan
    requires { OfSide side lent }
    ensures { result ≡ range_runs side lo hi (take lent.entry.count lent.entry.prices.now) }
{
    if !is_range(lo, hi) {
        return nothing(Refusal::OutOfLimits);
    }
    match side {
        Side::Bid => taking(run_between(side, lent, hi, lo, true), NONE),
        Side::Ask => taking(NONE, run_between(side, lent, lo, hi, false)),
    }
}

// What a listing takes of a book that is lent.
#[inline(always)]
pub(crate) fn plan_of(book: BookRows<'_>, listing: Listing) -> Plan
    ensures { Plans (numbers_of listing (book_in book.entry)) (book_in book.entry) result }
{
    if !book.is_book() {
        return nothing(Refusal::NotARecord);
    }
    match listing {
        Listing::Top(side, n) => match side {
            Side::Bid => best_runs(n, 0, book.counts()),
            Side::Ask => best_runs(0, n, book.counts()),
        },
        Listing::Snapshot(n) => best_runs(n, n, book.counts()),
        Listing::Between(side, lo, hi) => range_runs(side, book.side(side), lo, hi),
    }
}

// A delta: whether its numbers admit it and what it then comes to on a side, in the order of the refusals' numbers, and how it is done to that
// side's rows. The side is lent as its two rows, with the counts beside them; a delta is decided before anything is written, and a refusal's step
// leaves every row alone. The rows that change are lent one by one: a clause on a record of `&mut` rows would name what its borrow holds at the end
// by a path into memory. A best price is 0 for none, as the first place of an empty side's row holds it: an Option would be made of it and taken apart again.
#![tactic(auto)]

ghost use Rattle.std.specs.Prelude.{◌≡◌, true, ◌≤◌, length, take, get_or, leb, Ok};
ghost use Rattle.levels.specs.Order.{in_order};
ghost use Rattle.levels.specs.Lent.{prices_in};
ghost use Rattle.changes.specs.Inner.Edits.{EditFits, edit_of};
ghost use Rattle.types.specs.Replies.{done, if_within};
ghost use Rattle.types.specs.Answers.{reply_of};
ghost use Rattle.deltas.specs.Delta.{delta_fits, action_number, action_if, action_named};
ghost use Rattle.deltas.specs.Inner.Deciding.{meets, inverted, action_step, count_of, with_count, step_at, Stepped};
ghost use Rattle.deltas.specs.Inner.Admitting.{Admission};

use changes::Edit;
use levels::ordered::Ordered;
use types::{Price, Quantity, Refusal, Side};

// Whether a delta sets or removes a level.
#[derive(Clone, Copy)]
pub enum DeltaAction {
    Set,
    Remove,
}

// An update of one level. Its sequence must be the book's plus 1.
#[derive(Clone, Copy)]
pub struct BookDelta {
    pub side: Side,
    pub price: Price,
    pub quantity: Quantity,
    pub action: DeltaAction,
    pub sequence: u64,
}

// The counts and the sequence of a book that is lent as its rows.
#[repr(C)]
#[derive(Clone, Copy)]
pub struct Counts {
    pub bids: usize,
    pub asks: usize,
    pub sequence: u64,
}

// Remove where the flag is set, else Set.
impl From<bool> for DeltaAction {
    ghost from_gives = { λ remove action. action ≡ action_if remove };

    fn from(remove: bool) -> DeltaAction {
        if remove {
            DeltaAction::Remove
        } else {
            DeltaAction::Set
        }
    }
}

// 0 for Set, 1 for Remove.
impl From<DeltaAction> for u64 {
    ghost from_gives = { λ action n. n ≡ action_number action };

    fn from(action: DeltaAction) -> u64 {
        match action {
            DeltaAction::Set => 0,
            DeltaAction::Remove => 1,
        }
    }
}

// The action of a number; 2 for one that names none.
impl TryFrom<u64> for DeltaAction {
    type Error = Refusal;

    ghost try_from_gives = { λ n action. reply_of action ≡ if_within (leb n 1) (done (action_named n)) };

    fn try_from(n: u64) -> Result<DeltaAction, Refusal> {
        match n {
            0 => Ok(DeltaAction::Set),
            1 => Ok(DeltaAction::Remove),
            _ => Err(Refusal::OutOfLimits),
        }
    }
}

impl Counts {
    // How many levels a side has.
    pub fn of(self, side: Side) -> usize
        ensures { result ≡ count_of side self }
    {
        match side {
            Side::Bid => self.bids,
            Side::Ask => self.asks,
        }
    }

    // The counts with one side's count and a sequence.
    pub fn with(self, side: Side, n: usize, sequence: u64) -> Counts
        ensures { result ≡ with_count side n sequence self }
    {
        match side {
            Side::Bid => Counts {
                bids: n,
                asks: self.asks,
                sequence,
            },
            Side::Ask => Counts {
                bids: self.bids,
                asks: n,
                sequence,
            },
        }
    }
}

// Whether the numbers of a delta are within their limits. A Remove's quantity is not looked at.
pub fn delta_fits(action: DeltaAction, price: Price, quantity: Quantity) -> bool
    ensures { result ≡ delta_fits action price quantity }
{
    match action {
        DeltaAction::Set => types::is_price(price) && types::is_quantity(quantity),
        DeltaAction::Remove => types::is_price(price),
    }
}

// Whether a delta may be done to a book of this sequence, in the order of the refusals' numbers: its limits, then its sequence.
pub fn admit(delta: BookDelta, held: u64) -> Result<(), Refusal>
    ensures { Admission result held delta }
{
    let action = delta.action;
    let next = delta.sequence;
    if !delta_fits(action, delta.price, delta.quantity) {
        return Err(Refusal::OutOfLimits);
    }
    if held == types::LAST_SEQUENCE {
        return Err(Refusal::LastSequence);
    }
    if next != held + 1 {
        return Err(Refusal::SequenceMismatch {
            expected: held + 1,
            got: next,
        });
    }
    Ok(())
}

// Whether `price` reaches or passes the other side's best price, 0 for none.
fn meets(side: Side, price: Price, best: Price) -> bool
    ensures { result ≡ meets side price best }
{
    match side {
        Side::Bid => 1 <= best && best <= price,
        Side::Ask => price <= best,
    }
}

fn inverted(side: Side, price: Price, best: Price) -> Refusal
    ensures { result ≡ inverted side price best }
{
    match side {
        Side::Bid => Refusal::InvertedSpread {
            best_bid: price,
            best_ask: best,
        },
        Side::Ask => Refusal::InvertedSpread {
            best_bid: best,
            best_ask: price,
        },
    }
}

// The action on a side of these prices, where the other side's best price is `best`.
fn action_step(
    action: DeltaAction,
    prices: Ordered<'_>,
    best: Price,
    price: Price,
) -> Result<Edit, Refusal>
    ensures { result ≡ action_step action prices.entry.side (prices_in prices.entry) prices.entry.count best price }
{
    match action {
        DeltaAction::Set => {
            if meets(prices.side, price, best) {
                return Err(inverted(prices.side, price, best));
            }
            changes::plan_set(prices, price)
        }
        DeltaAction::Remove => Ok(changes::plan_remove(prices, price)),
    }
}

// The first price of a row: the best, or 0 where there is none.
pub fn top(prices: &[u32; 128]) -> Price
    ensures { result ≡ get_or prices.now 0 0 }
{
    prices[0]
}

// A delta that is admitted, to a side, where the other side's best price is `best`: its step is decided, then done on both rows and the counts. A
// refusal leaves them as they were.
pub fn apply_side(
    side: Side,
    prices: &mut [u32; 128],
    quantities: &mut [u32; 128],
    best: Price,
    counts: &mut Counts,
    delta: BookDelta,
) -> Result<(), Refusal>
    requires { (length quantities.old ≡ 128) × ((length prices.old ≡ 128) × (count_of side counts.old ≤ 128) × (in_order side (take (count_of side counts.old) prices.old) ≡ true)) × EditFits (edit_of (step_at side prices.old counts.old best delta)) (count_of side counts.old) × Admission (Ok tt) counts.old.sequence delta }
    ensures { Stepped side (step_at side prices.old counts.old best delta) counts.old delta prices.old quantities.old prices.new quantities.new counts.new result }
{
    let n = counts.of(side);
    let ordered = Ordered {
        side,
        prices: &*prices,
        count: n,
    };
    let edit = action_step(delta.action, ordered, best, delta.price)?;
    changes::edit_row(prices, edit, n, delta.price);
    changes::edit_row(quantities, edit, n, delta.quantity);
    *counts = counts.with(side, changes::edit_count(edit, n), delta.sequence);
    Ok(())
}

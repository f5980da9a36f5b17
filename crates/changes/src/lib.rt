// What Set and Remove do to a side. A change is planned on the prices, then done row by row, so that a caller can lend one row of a
// record at a time and a refused change touches nothing. They are no record of `&mut` rows: a clause on one would name what its borrow holds at the
// end by a path into memory.
#![tactic(auto)]

ghost use Rattle.std.specs.Prelude.{◌≡◌, true, ◌≤◌, ◌<◌, length, take};
ghost use Rattle.levels.specs.Order.{place_from};
ghost use Rattle.levels.specs.Lent.{prices_in};
ghost use Rattle.changes.specs.Inner.Edits.{inserted, deleted, row_after, count_after, EditFits, set_step, out_edit};

use levels::Place;
use levels::ordered::Ordered;
use types::Refusal;

// What a change does to each row of a side: nothing, a number written over, put in or taken out.
#[derive(Clone, Copy)]
pub enum Edit {
    Keep,
    Over(usize),
    In(usize),
    Out(usize),
}

// The places from `at` to `n` move one on, and `v` stands at `at`.
#[tactic(auto, using(crate::proofs::Shifts::opened))]
pub fn put_in(row: &mut [u32; 128], at: usize, n: usize, v: u32)
    requires { (length row.old ≡ 128) × (at ≤ n) × (n < 128) }
    ensures { row.new ≡ inserted row.old at n v }
{
    row.copy_within(at..n, at + 1);
    row[at] = v;
}

// The places behind `at` up to `n` move one back, and 0 stands at the last.
#[tactic(auto, using(crate::proofs::Shifts::closed))]
pub fn take_out(row: &mut [u32; 128], at: usize, n: usize)
    requires { (length row.old ≡ 128) × (at < n) × (n ≤ 128) }
    ensures { row.new ≡ deleted row.old at n }
{
    row.copy_within(at + 1..n, at);
    row[n - 1] = 0;
}

// What Set of `price` does to the rows of these prices.
pub fn plan_set(prices: Ordered<'_>, price: u32) -> Result<Edit, Refusal>
    ensures { result ≡ set_step prices.entry.count (place_from prices.entry.side price 0 (prices_in prices.entry)) }
{
    let n = prices.count;
    let place = prices.find(price);
    match place {
        Place::At(i) => Ok(Edit::Over(i)),
        Place::Before(i) => {
            if n < 128 {
                Ok(Edit::In(i))
            } else {
                Err(Refusal::FullSide)
            }
        }
    }
}

// What Remove of `price` does to the rows of these prices.
pub fn plan_remove(prices: Ordered<'_>, price: u32) -> Edit
    ensures { result ≡ out_edit (place_from prices.entry.side price 0 (prices_in prices.entry)) }
{
    let place = prices.find(price);
    match place {
        Place::At(i) => Edit::Out(i),
        Place::Before(_) => Edit::Keep,
    }
}

// One row of `n` used places after an edit with the number `v`.
pub fn edit_row(row: &mut [u32; 128], edit: Edit, n: usize, v: u32)
    requires { (length row.old ≡ 128) × EditFits edit n }
    ensures { row.new ≡ row_after edit n v row.old }
{
    match edit {
        Edit::Over(i) => {
            row[i] = v;
        }
        Edit::In(i) => {
            put_in(row, i, n, v);
        }
        Edit::Out(i) => {
            take_out(row, i, n);
        }
        Edit::Keep => {}
    }
}

// The count after an edit.
pub fn edit_count(edit: Edit, n: usize) -> usize
    requires { EditFits edit n }
    ensures { result ≡ count_after edit n }
{
    match edit {
        Edit::In(_) => n + 1,
        Edit::Out(_) => n - 1,
        Edit::Over(_) => n,
        Edit::Keep => n,
    }
}

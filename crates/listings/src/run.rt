// A run of a side's levels, best first or turned, and its one writer.
ghost use Rattle.std.specs.Prelude.{◌≡◌, ◌++◌, ◌+◌, ◌*◌, ◌≤◌, ◌<◌, length, drop};
ghost use Rattle.listings.specs.Listed.{woven};
ghost use Rattle.listings.specs.Inner.Runs.{every_place, in_run, place_of};

use levels::lent::SideRows;

// `count` levels from the place `from` on; turned, the last of them comes first.
#[derive(Clone, Copy)]
pub struct Run {
    pub from: usize,
    pub count: usize,
    pub turned: bool,
}

// The place of the level that stands behind `i` others of a run.
fn place(run: Run, i: usize) -> usize
    requires { (i < run.count) × (run.from + run.count ≤ 128) }
    ensures { (result ≡ place_of run i) × (result < 128) }
{
    if run.turned {
        return run.from + (run.count - 1 - i);
    }
    run.from + i
}

// Writes a run of a side's levels to the front of `out`.
pub(crate) fn write(lent: SideRows<'_>, run: Run, out: &mut [u32])
    requires { (run.from + run.count ≤ 128) × (2 * run.count ≤ length out.old) }
    ensures { out.new ≡ woven (in_run run (every_place lent.entry.prices.now lent.entry.quantities.now)) ++ drop (2 * run.count) out.old }
{
    for i in 0..run.count {
        let at = place(run, i);
        out[2 * i] = lent.prices[at];
        out[2 * i + 1] = lent.quantities[at];
    }
}

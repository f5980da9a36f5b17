// What is taken of a chunk that was read, and what is kept of it for the next. That a feed read in chunks prints what the whole of it prints,
// wherever the chunks are cut, is stated in specs/Chunks.antt.
#![tactic(auto)]

ghost use Rattle.std.specs.Prelude.{◌≡◌, ◌≤◌, length, take, drop};
ghost use Rattle.chunks.specs.Chunks.{whole_end, too_long};

// One byte more than a line may have, its line feed included: so much of a longer line is kept, and it is damaged whatever follows.
const TOO_LONG: usize = types::MAX_DIGITS + 2;

// The length of a text's lines, without what follows its last line feed. The loop is no `rposition`, which has no index:
// must-fail/read_before_the_start.edit holds to it. Not inlined, since the loop would carry along what its callers make of the index.
#[inline(never)]
#[tactic(auto, using(crate::proofs::Kept::ended_here, crate::proofs::Kept::ended_before))]
pub fn whole_lines(text: &[u8]) -> usize
    ensures value { result ≡ whole_end text.now }
    ensures upper_bound { result ≤ length text.now }
{
    for at in (0..text.len()).rev() {
        if text[at] == b'\n' {
            return at + 1;
        }
    }
    0
}

// Moves what stands between two indices to the front, TOO_LONG bytes at most, and answers how many there are.
pub fn keep(buf: &mut [u8], from: usize, to: usize) -> usize
    requires { (from ≤ to) × (to ≤ length buf.old) }
    ensures buf_after { take result buf.new ≡ take too_long (drop from (take to buf.old)) }
    ensures upper_bound { result ≤ too_long }
{
    let n = (to - from).min(TOO_LONG);
    buf.copy_within(from..from + n, 0);
    n
}

// The fills that are kept of a day: each as five numbers, with the number of its line, in memory that has room for 100,000 of them.
ghost use Rattle.std.specs.Prelude.{◌≡◌, ◌+◌, ◌*◌, ◌≤◌, cond, ltb, set, take};
ghost use Rattle.std.proofs.lemmas.List.Edits.{sets};
ghost use Rattle.day.specs.Numbers.{fill_numbers};

use crate::FILLS;
use holding::Fill;

#[derive(Drop)]
pub struct Fills {
    pub numbers: [i64; 500000],
    pub lines: [u64; 100000],
    pub count: usize,
}

impl Fills {
    // No fill, in memory of zeros.
    pub fn new() -> Fills
        ensures none { result.count ≡ 0 }
    {
        Fills {
            numbers: [0; 500000],
            lines: [0; 100000],
            count: 0,
        }
    }

    // Keeps a fill behind those that are kept, and the line of it, if there is room.
    pub fn keep(&mut self, fill: Fill, line: u64) -> bool
        ensures room { result ≡ ltb self.old.count 100000 }
        ensures count { self.new.count ≡ cond result (self.old.count + 1) self.old.count }
        ensures numbers { self.new.numbers ≡ cond result (sets self.old.numbers (5 * self.old.count) (fill_numbers fill)) self.old.numbers }
        ensures lines { self.new.lines ≡ cond result (set self.old.lines self.old.count line) self.old.lines }
    {
        let n = self.count;
        if n < FILLS {
            put_fill(&mut self.numbers, 5 * n, fill);
            self.lines[n] = line;
            self.count = n + 1;
            return true;
        }
        false
    }

    // The numbers of the fills that are kept, of which there are no more than there is room for.
    pub fn used(&self) -> &[i64]
        ensures { self.now.count ≤ 100000 → result.now ≡ take (5 * self.now.count) self.now.numbers }
    {
        &self.numbers[..5 * self.count.min(FILLS)]
    }
}

// Puts the numbers of a fill at a place: symbol, side (0 a bid, 1 an ask), quantity, price, commission.
fn put_fill(numbers: &mut [i64; 500000], at: usize, fill: Fill)
    requires { at + 5 ≤ 500000 }
    ensures { numbers.new ≡ sets numbers.old at (fill_numbers fill) }
{
    let five = [
        i64::from(fill.symbol),
        u64::from(fill.side) as i64,
        i64::from(fill.quantity),
        i64::from(fill.price),
        fill.commission.value,
    ];
    numbers[at..at + 5].copy_from_slice(&five);
}

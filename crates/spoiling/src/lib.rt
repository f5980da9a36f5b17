// Every way to spoil one digit of a line: another byte in its place, or a line feed, which cuts the line in two. Counts how many of the lines
// that come of it were tried, and how many of them read as a frame: none of a frame's line.
#![tactic(auto)]

ghost use Rattle.std.specs.Prelude.{◌≤◌, ◌<◌, length};

// How many lines were tried, and how many of them read as a frame.
#[derive(Clone, Copy, Default)]
pub struct Tries {
    pub tried: u64,
    pub frames: u64,
}

// 1 for a frame's line, else 0.
fn frames(line: &[u8]) -> u64
    ensures { result ≤ 1 }
{
    u64::from(lines::read_frame(line).is_ok())
}

// The lines that a line is, with this byte at `i`: a line feed cuts it in two.
fn read_with(line: &[u8], i: usize, byte: u8) -> Tries
    requires { i < length line.now }
    ensures { (result.tried ≤ 2) × (result.frames ≤ 2) }
{
    if byte != b'\n' {
        return Tries {
            tried: 1,
            frames: frames(line),
        };
    }
    let (front, behind) = line.split_at(i + 1);
    Tries {
        tried: 2,
        frames: frames(front) + frames(behind),
    }
}

// Another byte in the place of the digit at `i`, which then stands there again.
fn replaced(line: &mut [u8], i: usize, byte: u8) -> Tries
    requires { i < length line.old }
    ensures { (result.tried ≤ 2) × (result.frames ≤ 2) }
{
    let own = line[i];
    if byte == own {
        return Tries::default();
    }
    line[i] = byte;
    let tries = read_with(line, i, byte);
    line[i] = own;
    tries
}

// Every other byte in the place of the digit at `i`.
fn replaced_at(line: &mut [u8], i: usize) -> Tries
    requires { i < length line.old }
    ensures { (result.tried ≤ 512) × (result.frames ≤ 512) }
{
    let mut all = Tries::default();
    for byte in 0..=u8::MAX {
        let tries = replaced(line, i, byte);
        all.tried += tries.tried;
        all.frames += tries.frames;
    }
    all
}

// How many digits stand before a line's line feed: none where there are more than any frame has.
fn digits(line: &[u8]) -> usize
    ensures { (result ≤ 4120) × (result ≤ length line.now) }
{
    let digits = line.len().saturating_sub(1);
    if digits > types::MAX_DIGITS {
        return 0;
    }
    digits
}

// Each digit of a line, which ends with its line feed.
pub fn spoilt(line: &mut [u8]) -> Tries {
    let mut all = Tries::default();
    for i in 0..digits(line) {
        let tries = replaced_at(line, i);
        all.tried += tries.tried;
        all.frames += tries.frames;
    }
    all
}

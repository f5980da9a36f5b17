// The lines of a stream of bytes: where the first one ends. What a stream of frames, damaged or not, reads as is stated in specs/Reading.antt.
#![tactic(auto)]

ghost use Rattle.std.specs.Prelude.{◌≡◌, ◌==◌, position};
ghost use Rattle.streams.specs.Streams.{line_end};

// Where the first line feed stands.
fn line_feed(s: &[u8]) -> Option<usize>
    ensures { result ≡ position (λ byte. byte == 10) s.now }
{
    s.iter().position(|byte| *byte == b'\n')
}

// The length of the first line, its line feed included; all of it where there is none.
pub fn line_end(s: &[u8]) -> usize
    ensures { result ≡ line_end s.now }
{
    match line_feed(s) {
        Some(at) => at + 1,
        None => s.len(),
    }
}

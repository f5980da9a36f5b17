// What the feed program prints: the lines of a text go to a receiver that is lent, and the outcome of each is put into the output that is lent
// (here); at the end of the feed the state is (ends.rt). Room is asked for, so that nothing is cut. specs/Printed.antt says what is printed.
#![tactic(auto)]

ghost use Rattle.std.specs.Prelude.{◌≡◌, ◌+◌, ◌*◌, ◌≤◌, ◌<◌, length};
ghost use Rattle.types.specs.Answers.{reply_of};
ghost use Rattle.decimals.specs.Decimals.{Puts};
ghost use Rattle.streams.specs.Streams.{lines};
ghost use Rattle.receiver.specs.Turns.{taken, turns, heard as heardOf};
ghost use Rattle.printing.specs.Printed.{next as next_of, answer_number, outcome_line, printed, counted};

pub mod ends; // ends.rt: the end state

use decimals::put_pair;
use receiver::Receiver;
use told::Told;
use types::Refusal;

// A receiver, and how many lines it took.
#[derive(Clone, Copy)]
pub struct Heard {
    pub receiver: Receiver,
    pub number: u64,
}

fn outcome_number(outcome: Result<(), Refusal>) -> u64
    ensures { (result ≡ answer_number (reply_of outcome)) × (result < 100) }
{
    Told::of(outcome).number
}

impl Heard {
    // Takes one line, and puts its outcome into the output; answers the place behind it.
    #[tactic(auto, using(crate::proofs::Texts::short_outcomes))]
    fn take_one(&mut self, line: &[u8], out: &mut [u8], at: usize) -> usize
        requires { at + 24 ≤ length out.old }
        ensures receiver_value { self.new.receiver ≡ (taken self.old.receiver line.now).receiver }
        ensures number_value { self.new.number ≡ next_of self.old.number }
        ensures puts { Puts (outcome_line (next_of self.old.number) (taken self.old.receiver line.now)) at out.old out.new result }
        ensures used_bound { result ≤ at + 24 }
    {
        let outcome = self.receiver.apply(line);
        self.number = self.number.saturating_add(1);
        put_pair(out, at, self.number, outcome_number(outcome))
    }

    // Takes each line of a text, the last one also where it has no line feed, and answers the place behind the outcomes that are put. A line has a
    // byte at least, and its outcome 24 at most.
    pub fn take_lines(&mut self, text: &[u8], out: &mut [u8], at: usize) -> usize
        requires { at + 24 * length text.now ≤ length out.old }
        ensures receiver_value { self.new.receiver ≡ heardOf self.old.receiver (lines text.now) }
        ensures number_value { self.new.number ≡ counted self.old.number (turns self.old.receiver (lines text.now)) }
        ensures puts { Puts (printed self.old.number (turns self.old.receiver (lines text.now))) at out.old out.new result }
    {
        let mut used = at;
        for line in text.split_inclusive(|byte| *byte == b'\n') {
            used = self.take_one(line, out, used);
        }
        used
    }
}

// A state's gate before an answer: it is open while live, and shut while waiting, with 16 as its own refusal.
ghost use Rattle.std.specs.Prelude.{◌≡◌, cond, leb};
ghost use Rattle.types.specs.Replies.{number_of, refuse};
ghost use Rattle.types.specs.Answers.{reply_of};
ghost use Rattle.receiver_questions.specs.Gate.{shut, gate};

use receiver::State;
use types::Refusal;

// The refusal behind a shut gate: 1 and 2 pass, and its own is in the place of all else.
fn kept(own: Refusal, why: Refusal) -> Refusal
    ensures { result ≡ cond (leb (number_of why) 2) why own }
{
    match why {
        Refusal::NotARecord => why,
        Refusal::OutOfLimits => why,
        _ => own,
    }
}

// An answer behind a shut gate.
fn shut<T: Drop>(own: Refusal, answer: Result<T, Refusal>) -> Result<T, Refusal>
    ensures { reply_of result ≡ shut (refuse own) (reply_of answer) }
{
    match answer {
        Ok(_) => Err(own),
        Err(why) => Err(kept(own, why)),
    }
}

// What a state leaves of an answer.
#[tactic(auto, unfolding(crate::specs::Gate::gate))]
pub(crate) fn gated<T: Drop>(state: State, answer: Result<T, Refusal>) -> Result<T, Refusal>
    ensures { reply_of result ≡ gate state (reply_of answer) }
{
    match state {
        State::Live => answer,
        State::Waiting => shut(Refusal::Waiting, answer),
    }
}

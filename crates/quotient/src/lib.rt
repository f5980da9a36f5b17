// Exact quotients, numerator over denominator. Every quotient of the project is made here, by one definition: a change of its form
// (as to lowest terms) changes that definition and this file, and no caller.
#![tactic(auto)]

ghost use Rattle.std.specs.Prelude.{◌≡◌};
ghost use Rattle.types.specs.Answers.{reply_of};
ghost use Rattle.quotient.specs.Over.{over_or_none};

use amount::Amount;
use types::Refusal;

#[repr(C)]
#[derive(Clone, Copy)]
pub struct Quotient {
    pub numerator: Amount,
    pub denominator: u64,
}

impl Quotient {
    // What is over what; a zero denominator gives 10.
    pub fn over(numerator: Amount, denominator: u64) -> Result<Quotient, Refusal>
        ensures { reply_of result ≡ over_or_none numerator.value denominator }
    {
        if denominator == 0 {
            return Err(Refusal::NoValue);
        }
        Ok(Quotient {
            numerator,
            denominator,
        })
    }
}

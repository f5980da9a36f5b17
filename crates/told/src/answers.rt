// Each kind of answer as a Told: what it carries stands here once for each kind, and one function tells any of them, or the refusal.
ghost use Rattle.std.specs.Prelude.{◌≡◌, [], ◌∷◌, List, ℤ, pos};
ghost use Rattle.types.specs.Replies.{number_of, values_of};
ghost use Rattle.types.specs.Answers.{reply_of};
ghost use Rattle.told.specs.Numbers.{whole, told, tell, nothing, one_number, yes_or_no, one_level, both_levels, one_amount, one_ratio};

use crate::{Told, Whole};
use amount::Amount;
use quotient::Quotient;
use types::{PriceLevel, Quote, Refusal};

// An answer that can be told: the values that it carries.
pub trait Tells {
    ghost values: { Self → List ℤ };

    fn told(self) -> Told
        ensures { result ≡ told 0 (values self) };
}

impl From<u64> for Whole {
    ghost from_gives = { λ n w. w ≡ whole (pos n) };

    fn from(n: u64) -> Whole {
        Whole {
            size: n,
            negative: false,
        }
    }
}

impl From<Amount> for Whole {
    ghost from_gives = { λ amount w. w ≡ whole amount.value };

    fn from(amount: Amount) -> Whole {
        Whole {
            size: amount.size(),
            negative: amount.is_negative(),
        }
    }
}

impl Told {
    fn with(number: u64, count: u64, first: Whole, second: Whole) -> Told
        ensures { result ≡ record { number = number; count = count; first = first; second = second; third = whole (pos 0); fourth = whole (pos 0) } }
    {
        let zero = Whole::from(0u64);
        Told {
            number,
            count,
            first,
            second,
            third: zero,
            fourth: zero,
        }
    }

    fn bare(number: u64) -> Told
        ensures { result ≡ told number [] }
    {
        Told::with(number, 0, Whole::from(0u64), Whole::from(0u64))
    }

    fn one(number: u64, first: u64) -> Told
        ensures { result ≡ told number (pos first ∷ []) }
    {
        Told::with(number, 1, Whole::from(first), Whole::from(0u64))
    }

    fn two(number: u64, first: u64, second: u64) -> Told
        ensures { result ≡ told number (pos first ∷ pos second ∷ []) }
    {
        Told::with(number, 2, Whole::from(first), Whole::from(second))
    }

    // Any answer, or why there is none.
    pub fn of<T: Tells>(answer: Result<T, Refusal>) -> Told
        ensures { result ≡ tell T.values (reply_of answer) }
    {
        match answer {
            Ok(x) => x.told(),
            Err(why) => Told::from(why),
        }
    }
}

impl From<Refusal> for Told {
    ghost from_gives = { λ why t. t ≡ told (number_of why) (values_of why) };

    fn from(why: Refusal) -> Told {
        match why {
            Refusal::NotARecord => Told::bare(1),
            Refusal::OutOfLimits => Told::bare(2),
            Refusal::LastSequence => Told::bare(3),
            Refusal::SequenceMismatch { expected, got } => Told::two(4, expected, got),
            Refusal::InvertedSpread { best_bid, best_ask } => Told::two(
                5,
                best_bid as u64,
                best_ask as u64,
            ),
            Refusal::FullSide => Told::bare(6),
            Refusal::InsufficientLiquidity { target } => Told::one(7, target as u64),
            Refusal::InsufficientFunds { need, have } => Told::with(
                8,
                2,
                Whole::from(need),
                Whole::from(have),
            ),
            Refusal::PastLimit => Told::bare(9),
            Refusal::NoValue => Told::bare(10),
            Refusal::NoRoom => Told::bare(11),
            Refusal::DamagedLine => Told::bare(12),
            Refusal::Unpriced { symbol } => Told::one(13, symbol as u64),
            Refusal::OldFrame => Told::bare(14),
            Refusal::Gap => Told::bare(15),
            Refusal::Waiting => Told::bare(16),
            Refusal::RefusedDelta => Told::bare(17),
        }
    }
}

// A change carries no value: the record stands beside it.
impl Tells for () {
    ghost values = { nothing };

    fn told(self) -> Told {
        Told::bare(0)
    }
}

impl Tells for u64 {
    ghost values = { one_number };

    fn told(self) -> Told {
        Told::one(0, self)
    }
}

// 1 for yes, 0 for no.
impl Tells for bool {
    ghost values = { yes_or_no };

    fn told(self) -> Told {
        Told::one(0, self as u64)
    }
}

// The price, then the quantity.
impl Tells for PriceLevel {
    ghost values = { one_level };

    fn told(self) -> Told {
        Told::two(0, self.price as u64, self.quantity as u64)
    }
}

// The best bid's price and quantity, then the best ask's.
impl Tells for Quote {
    ghost values = { both_levels };

    fn told(self) -> Told {
        Told {
            number: 0,
            count: 4,
            first: Whole::from(self.bid.price as u64),
            second: Whole::from(self.bid.quantity as u64),
            third: Whole::from(self.ask.price as u64),
            fourth: Whole::from(self.ask.quantity as u64),
        }
    }
}

impl Tells for Amount {
    ghost values = { one_amount };

    fn told(self) -> Told {
        Told::with(0, 1, Whole::from(self), Whole::from(0u64))
    }
}

// The numerator, then the denominator.
impl Tells for Quotient {
    ghost values = { one_ratio };

    fn told(self) -> Told {
        Told::with(
            0,
            2,
            Whole::from(self.numerator),
            Whole::from(self.denominator),
        )
    }
}

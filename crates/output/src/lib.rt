// Answers on standard output: the number of the answer, then each value after a space. Programs print by these functions, and which
// values an answer carries is taken from `told`. No contract can say what is written: they are proved safe and ending, and run.
#![tactic(auto)]

use amount::Amount;
use questions::Value;
use quotient::Quotient;
use told::{Told, Whole};
use types::Refusal;

// What cannot be written is left out.
pub fn put(rt: &impl Print, text: &[u8]) {
    let _ = rt.write_all(text);
}

pub fn number(rt: &impl Print, n: u64) {
    let _ = rt.print(n);
}

pub fn value(rt: &impl Print, n: u64) {
    put(rt, b" ");
    number(rt, n);
}

// A sign and a size behind a space, one function: Display would be one impl used at this place alone, no plainer.
fn signed(rt: &impl Print, whole: Whole) {
    let sign = if whole.negative { " -" } else { " " };
    let _ = rt.print(format_args!("{sign}{}", whole.size));
}

pub fn amount(rt: &impl Print, a: Amount) {
    signed(rt, Whole::from(a));
}

pub fn told(rt: &impl Print, t: Told) {
    number(rt, t.number);
    let values = [t.first, t.second, t.third, t.fourth];
    for value in values.iter().take(t.count as usize) {
        signed(rt, *value);
    }
}

// A quotient's whole part and the millionths behind it; none where its denominator is 0, or too large for them.
fn places(size: u64, denominator: u64) -> Option<(u64, u64)> {
    let rest = size.checked_rem(denominator)?;
    let millionths = rest.checked_mul(1_000_000)?.checked_div(denominator)?;
    Some((size.checked_div(denominator)?, millionths))
}

// A quotient cut to 6 places; one that shows as zero has no sign. No quotient of a book has a denominator that is too large for them. That form
// is this program's own, one function for one place: Display would be no plainer.
fn cut(rt: &impl Print, q: Quotient) {
    let numerator = q.numerator;
    let Some((units, millionths)) = places(numerator.size(), q.denominator) else {
        put(rt, b" ?");
        return;
    };
    signed(
        rt,
        Whole {
            size: units,
            negative: numerator.is_negative() && (units > 0 || millionths > 0),
        },
    );
    let _ = rt.print(format_args!(".{millionths:06}"));
}

// The quotient that an answer is, its number told; any other answer is told whole.
fn ratio(rt: &impl Print, answer: Result<Value, Refusal>) -> Option<Quotient> {
    if let Ok(Value::Ratio(q)) = answer {
        number(rt, 0);
        return Some(q);
    }
    told(rt, Told::of(answer));
    None
}

// An answer whose quotient is cut to 6 places.
pub fn answer_cut(rt: &impl Print, answer: Result<Value, Refusal>) {
    if let Some(q) = ratio(rt, answer) {
        cut(rt, q);
    }
}

// An answer whose quotient is shown as what over what.
pub fn answer_exact(rt: &impl Print, answer: Result<Value, Refusal>) {
    if let Some(q) = ratio(rt, answer) {
        amount(rt, q.numerator);
        put(rt, b" over");
        value(rt, q.denominator);
    }
}

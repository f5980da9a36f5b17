// What one line of a day says: nothing, the opening cash, a fill, or something else, which is no line of a day. specs/Lines.antt says which. The
// bytes up to `#` are cut into words (words.rt).
#![tactic(auto)]

ghost use Rattle.std.specs.Prelude.{◌≡◌, ◌≤◌, length, take};
ghost use Rattle.day_lines.specs.Words.{spoken, word_at, words as words_of};
ghost use Rattle.numerals.specs.Numerals.{numeral_up_to};
ghost use Rattle.day_lines.specs.Lines.{side_word, cash_said, fill_of, cash_line, fill_line, said_by, said};

mod words; // words.rt: the words of a text

use amount::Amount;
use holding::Fill;
use numerals::{read_number, read_signed};
use types::Side;
use words::{count, word};

#[derive(Clone, Copy)]
pub enum Said {
    Nothing,
    Cash(Amount),
    Fill(Fill),
    Other,
}

// Where the remark of a line begins, or the line ends.
fn spoken_end(line: &[u8]) -> usize
    ensures { (result ≤ length line.now) × (take result line.now ≡ spoken line.now) }
{
    line.iter()
        .position(|byte| *byte == b'#')
        .unwrap_or(line.len())
}

// The side that a word is.
#[tactic(auto, using(crate::proofs::Cuts::other_side))]
fn side(word: &[u8]) -> Option<Side>
    ensures { result ≡ side_word word.now }
{
    match word {
        b"bid" => Some(Side::Bid),
        b"ask" => Some(Side::Ask),
        _ => None,
    }
}

// The word of an index as a number of 32 bits.
fn small(text: &[u8], index: usize) -> Option<u32>
    ensures { result ≡ numeral_up_to 4294967295 (word_at text.now index) }
{
    let n = read_number(word(text, index), u64::from(u32::MAX))?;
    Some(n as u32)
}

// The fill that a text of five words says.
fn fill(text: &[u8]) -> Option<Fill>
    ensures { fill_of result ≡ fill_line (word_at text.now 0) (word_at text.now 1) (word_at text.now 2) (word_at text.now 3) (word_at text.now 4) }
{
    Some(Fill {
        symbol: small(text, 0)?,
        side: side(word(text, 1))?,
        quantity: small(text, 2)?,
        price: small(text, 3)?,
        commission: read_signed(word(text, 4))?,
    })
}

// The opening cash that a text of two words says.
#[tactic(auto, using(crate::proofs::Cuts::other_word))]
fn cash(text: &[u8]) -> Option<Amount>
    ensures { cash_said result ≡ cash_line (word_at text.now 0) (word_at text.now 1) }
{
    match word(text, 0) {
        b"cash" => read_signed(word(text, 1)),
        _ => None,
    }
}

// What the words of a text say.
#[tactic(auto, using(crate::proofs::Says::none_say, crate::proofs::Says::two_say, crate::proofs::Says::five_say, crate::proofs::Says::others_say))]
fn said_by(text: &[u8]) -> Said
    ensures { result ≡ said_by (words_of text.now) }
{
    match count(text) {
        0 => Said::Nothing,
        2 => cash(text).map_or(Said::Other, Said::Cash),
        5 => fill(text).map_or(Said::Other, Said::Fill),
        _ => Said::Other,
    }
}

// What a line says, its line feed left out.
pub fn read(line: &[u8]) -> Said
    ensures { result ≡ said line.now }
{
    let end = spoken_end(line);
    said_by(&line[..end])
}

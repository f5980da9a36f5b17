// Any question to a book as one value, and one call that answers any of them, over a book lent as its rows; the call that takes the record by
// value, which docs/PROMISES.md promises, is thin over it. Second names share one question. What the receiver and the bindings ask goes by this.
#![tactic(auto)]

ghost use Rattle.std.specs.Prelude.{◌≡◌};
ghost use Rattle.types.specs.Answers.{reply_of};
ghost use Rattle.orderbook.specs.Lent.{book_in};
ghost use Rattle.questions.specs.Asked.{book_ask};

pub mod kinds; // kinds.rt: the questions of one kind, each kind by one function
pub mod answers; // answers.rt: what an answer carries, as numbers
pub mod numbered; // numbered.rt: the questions by their numbers

use asked::{SideNumber, TopRatio, Trade, VolumeRatio};
use kinds::{BookFlag, BookNumber};
use orderbook::OrderBook;
use orderbook::lent::BookRows;
use quotient::Quotient;
use types::{PriceLevel, Quote, Refusal, Side};

#[derive(Clone, Copy)]
pub enum Question {
    Best(Side),
    BestQuote,
    Number(BookNumber),
    OfSide(Side, SideNumber),
    OfTops(TopRatio),
    OfVolumes(VolumeRatio),
    Traded(Side, Trade),
    Flag(BookFlag),
}

// What an answer carries.
#[derive(Clone, Copy)]
pub enum Value {
    Number(u64),
    Flag(bool),
    Level(PriceLevel),
    Quote(Quote),
    Ratio(Quotient),
}

// The answer of a book that is lent.
#[tactic(auto, unfolding(crate::specs::Asked::book_ask))]
pub fn ask_at(book: BookRows<'_>, question: Question) -> Result<Value, Refusal>
    ensures { reply_of result ≡ book_ask (book_in book.entry) question }
{
    Ok(match question {
        Question::Best(side) => Value::Level(kinds::best(book, side)?),
        Question::BestQuote => Value::Quote(kinds::best_quote(book)?),
        Question::Number(q) => Value::Number(kinds::number(book, q)?),
        Question::OfSide(side, q) => Value::Number(kinds::side_number(book, side, q)?),
        Question::OfTops(q) => Value::Ratio(kinds::top_ratio(book, q)?),
        Question::OfVolumes(q) => Value::Ratio(kinds::volume_ratio(book, q)?),
        Question::Traded(side, trade) => Value::Ratio(kinds::trade_price(book, side, trade)?),
        Question::Flag(q) => Value::Flag(kinds::flag(book, q)?),
    })
}

// The book's answer to a question.
pub fn ask(book: OrderBook, question: Question) -> Result<Value, Refusal>
    ensures { reply_of result ≡ book_ask book question }
{
    ask_at(book.rows(), question)
}

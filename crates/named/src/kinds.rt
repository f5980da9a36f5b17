// The questions of one kind, of a book by value: thin, over the book lent as its rows.
ghost use Rattle.std.specs.Prelude.{◌≡◌};
ghost use Rattle.types.specs.Answers.{reply_of};
ghost use Rattle.questions.specs.Questions.{best, best_quote};
ghost use Rattle.questions.specs.Kinds.{book_number, side_number, top_ratio, volume_ratio, trade_price, book_flag};

use asked::{SideNumber, TopRatio, Trade, VolumeRatio};
use orderbook::OrderBook;
use questions::kinds;
use questions::kinds::{BookFlag, BookNumber};
use quotient::Quotient;
use types::{PriceLevel, Quote, Refusal, Side};

// The best level of a side.
pub fn best(book: OrderBook, side: Side) -> Result<PriceLevel, Refusal>
    ensures { reply_of result ≡ best side book }
{
    kinds::best(book.rows(), side)
}

// Both best levels.
pub fn best_quote(book: OrderBook) -> Result<Quote, Refusal>
    ensures { reply_of result ≡ best_quote book }
{
    kinds::best_quote(book.rows())
}

pub fn number(book: OrderBook, question: BookNumber) -> Result<u64, Refusal>
    ensures { reply_of result ≡ book_number question book }
{
    kinds::number(book.rows(), question)
}

pub fn side_number(book: OrderBook, side: Side, question: SideNumber) -> Result<u64, Refusal>
    ensures { reply_of result ≡ side_number side question book }
{
    kinds::side_number(book.rows(), side, question)
}

pub fn top_ratio(book: OrderBook, question: TopRatio) -> Result<Quotient, Refusal>
    ensures { reply_of result ≡ top_ratio question book }
{
    kinds::top_ratio(book.rows(), question)
}

pub fn volume_ratio(book: OrderBook, question: VolumeRatio) -> Result<Quotient, Refusal>
    ensures { reply_of result ≡ volume_ratio question book }
{
    kinds::volume_ratio(book.rows(), question)
}

pub fn trade_price(book: OrderBook, side: Side, trade: Trade) -> Result<Quotient, Refusal>
    ensures { reply_of result ≡ trade_price trade side book }
{
    kinds::trade_price(book.rows(), side, trade)
}

pub fn flag(book: OrderBook, question: BookFlag) -> Result<bool, Refusal>
    ensures { reply_of result ≡ book_flag question book }
{
    kinds::flag(book.rows(), question)
}

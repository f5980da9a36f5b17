// What a book answers, lent as its rows: one function a kind of question. Each tests the record once, then hands the rows that the question
// looks at to the sides.
ghost use Rattle.std.specs.Prelude.{◌≡◌};
ghost use Rattle.types.specs.Answers.{reply_of};
ghost use Rattle.questions.specs.Questions.{best, best_quote};
ghost use Rattle.orderbook.specs.Lent.{book_in};
ghost use Rattle.questions.specs.Kinds.{book_number, side_number, top_ratio, volume_ratio, trade_price, book_flag};
ghost use Rattle.questions.specs.Inner.Walked.{walked_by};

use asked::{SideNumber, TopRatio, Trade, VolumeRatio, depth};
use orderbook::lent::BookRows;
use quotient::Quotient;
use sides::{top, volume};
use types::{Price, PriceLevel, Quote, Refusal, Side};

// A number of the whole book.
#[derive(Clone, Copy)]
pub enum BookNumber {
    Spread,
    TotalLevels,
    Sequence,
    TickSize,
}

// Yes or no.
#[derive(Clone, Copy)]
pub enum BookFlag {
    HasPrice(Side, Price),
    IsEmpty,
    IsCrossed,
}

// The best level of a side.
pub fn best(book: BookRows<'_>, side: Side) -> Result<PriceLevel, Refusal>
    ensures { reply_of result ≡ best side (book_in book.entry) }
{
    if !book.is_book() {
        return Err(Refusal::NotARecord);
    }
    top::best_level(top::best_of(book.side(side)))
}

// Both best levels.
pub fn best_quote(book: BookRows<'_>) -> Result<Quote, Refusal>
    ensures { reply_of result ≡ best_quote (book_in book.entry) }
{
    if !book.is_book() {
        return Err(Refusal::NotARecord);
    }
    top::best_quote(top::best_of(book.bids), top::best_of(book.asks))
}

pub fn number(book: BookRows<'_>, question: BookNumber) -> Result<u64, Refusal>
    ensures { reply_of result ≡ book_number question (book_in book.entry) }
{
    if !book.is_book() {
        return Err(Refusal::NotARecord);
    }
    match question {
        BookNumber::Spread => top::spread(top::best_of(book.bids), top::best_of(book.asks)),
        BookNumber::TotalLevels => Ok((book.bids.count + book.asks.count) as u64),
        BookNumber::Sequence => Ok(book.sequence),
        BookNumber::TickSize => depth::tick_size(book.bids, book.asks),
    }
}

pub fn side_number(book: BookRows<'_>, side: Side, question: SideNumber) -> Result<u64, Refusal>
    ensures { reply_of result ≡ side_number side question (book_in book.entry) }
{
    if !book.is_book() {
        return Err(Refusal::NotARecord);
    }
    asked::side_number(side, book.side(side), question)
}

pub fn top_ratio(book: BookRows<'_>, question: TopRatio) -> Result<Quotient, Refusal>
    ensures { reply_of result ≡ top_ratio question (book_in book.entry) }
{
    if !book.is_book() {
        return Err(Refusal::NotARecord);
    }
    asked::top_ratio(top::best_of(book.bids), top::best_of(book.asks), question)
}

pub fn volume_ratio(book: BookRows<'_>, question: VolumeRatio) -> Result<Quotient, Refusal>
    ensures { reply_of result ≡ volume_ratio question (book_in book.entry) }
{
    if !book.is_book() {
        return Err(Refusal::NotARecord);
    }
    let depth = question.depth(types::MAX_LEVELS);
    let bid = volume::best_total(book.bids, depth);
    let ask = volume::best_total(book.asks, depth);
    asked::volume_ratio(bid, ask, question)
}

// The side that a trade walks: its own for `vwap_for_qty`, the other one for `price_impact`.
fn walked(side: Side, trade: Trade) -> Side
    ensures { result ≡ walked_by trade side }
{
    match trade {
        Trade::VwapForQty(_) => side,
        Trade::PriceImpact(_) => match side {
            Side::Bid => Side::Ask,
            Side::Ask => Side::Bid,
        },
    }
}

pub fn trade_price(book: BookRows<'_>, side: Side, trade: Trade) -> Result<Quotient, Refusal>
    ensures { reply_of result ≡ trade_price trade side (book_in book.entry) }
{
    if !book.is_book() {
        return Err(Refusal::NotARecord);
    }
    asked::trade_price(book.side(walked(side, trade)), trade)
}

pub fn flag(book: BookRows<'_>, question: BookFlag) -> Result<bool, Refusal>
    ensures { reply_of result ≡ book_flag question (book_in book.entry) }
{
    if !book.is_book() {
        return Err(Refusal::NotARecord);
    }
    match question {
        BookFlag::HasPrice(side, price) => depth::has_price(side, book.side(side), price),
        BookFlag::IsEmpty => Ok(book.bids.count + book.asks.count == 0),
        // a book's best bid is below its best ask, as the test of the record has just said
        BookFlag::IsCrossed => Ok(false),
    }
}

// What a receiver answers: 1, 2 or 16 before all else, then what its book answers. Any question, and any listing, to a receiver that is
// lent, its book as four rows; the calls that take the record by value are thin over those.
#![tactic(auto)]

ghost use Rattle.std.specs.Prelude.{◌≡◌, length};
ghost use Rattle.types.specs.Replies.{map_reply};
ghost use Rattle.types.specs.Answers.{reply_of};
ghost use Rattle.types.specs.Written.{fitted, written};
ghost use Rattle.listings.specs.Listed.{front_of};
ghost use Rattle.receiver.specs.Lent.{receiver_in};
ghost use Rattle.receiver_questions.specs.Gate.{receiver_ask, receiver_numbers};

mod gate; // gate.rt: a state's gate before an answer

use listings::Listing;
use orderbook::lent::BookRows;
use questions::{Question, Value};
use receiver::{Receiver, State};
use types::Refusal;

// The answer to a question of a receiver that is lent.
pub fn ask_at(book: BookRows<'_>, state: State, question: Question) -> Result<Value, Refusal>
    ensures { reply_of result ≡ receiver_ask (receiver_in state book.entry) question }
{
    gate::gated(state, questions::ask_at(book, question))
}

// The places that a listing of its book fills in a buffer of `room` places, or the refusal.
pub fn places_at(
    book: BookRows<'_>,
    state: State,
    listing: Listing,
    room: usize,
) -> Result<u64, Refusal>
    ensures { reply_of result ≡ map_reply length (fitted room (receiver_numbers listing (receiver_in state book.entry))) }
{
    gate::gated(state, listings::places_at(book, listing, room))
}

// Writes a listing of its book to the front of `out`.
pub fn write_at(
    book: BookRows<'_>,
    state: State,
    listing: Listing,
    out: &mut [u32],
) -> Result<u64, Refusal>
    ensures { record { answer = reply_of result; memory = out.new } ≡ written (receiver_numbers listing (receiver_in state book.entry)) out.old }
{
    let State::Live = state else {
        return places_at(book, state, listing, out.len());
    };
    listings::write_at(book, listing, out)
}

// The receiver's answer to a question.
pub fn ask(receiver: Receiver, question: Question) -> Result<Value, Refusal>
    ensures { reply_of result ≡ receiver_ask receiver question }
{
    ask_at(receiver.book.rows(), receiver.state, question)
}

// The places that a listing of its book fills in a buffer of `room` places, or the refusal.
pub fn places(receiver: Receiver, listing: Listing, room: usize) -> Result<u64, Refusal>
    ensures { reply_of result ≡ map_reply length (fitted room (receiver_numbers listing receiver)) }
{
    places_at(receiver.book.rows(), receiver.state, listing, room)
}

// Writes a listing of its book to the front of `out`.
pub fn write(receiver: Receiver, listing: Listing, out: &mut [u32]) -> Result<u64, Refusal>
    ensures { record { answer = reply_of result; memory = out.new } ≡ written (receiver_numbers listing receiver) out.old }
{
    write_at(receiver.book.rows(), receiver.state, listing, out)
}

// The front of `out` that a listing of its book fills: empty on a refusal.
pub fn list<'a>(receiver: Receiver, listing: Listing, out: &'a mut [u32]) -> &'a mut [u32]
    ensures { (result.ref_ptr ≡ out.entry.ref_ptr) × (result.now ≡ front_of (fitted (length out.old) (receiver_numbers listing receiver))) }
{
    let answer = write(receiver, listing, out);
    listings::front(answer, out)
}

// The receiver for Rust and C: it takes lines, and answers what its book answers while it is live.
ghost use Rattle.std.specs.Prelude.{◌≡◌, length};
ghost use Rattle.types.specs.Replies.{map_reply};
ghost use Rattle.types.specs.Written.{fitted, written};
ghost use Rattle.told.specs.Numbers.{tell, one_number};
ghost use Rattle.questions.specs.Asked.{values_in};
ghost use Rattle.receiver.specs.Turns.{start};
ghost use Rattle.numbered.specs.Memory.{told_left};
ghost use Rattle.exports.specs.Receivers.{held_of, held_at, lent_held, taken_by, held_ask, held_numbers};

use deltas::Counts;
use exports::{Held, TurnTold};
use told::Told;

#[unsafe(no_mangle)]
pub extern "C" fn wermazul_receiver() -> Held
    ensures { result ≡ held_of start }
{
    exports::receiving::wermazul_receiver()
}

// Takes a line, its line feed included.
#[unsafe(no_mangle)]
pub extern "C" fn wermazul_take_line(
    bp: &mut [u32; 128],
    bq: &mut [u32; 128],
    ap: &mut [u32; 128],
    aq: &mut [u32; 128],
    state: u64,
    counts: Counts,
    line: &[u8],
) -> TurnTold
    ensures { record { receiver = held_at bp.new bq.new ap.new aq.new result.state result.counts; told = result.told } ≡ taken_by (held_at bp.old bq.old ap.old aq.old state counts) line.now }
{
    exports::receiving::wermazul_take_line(bp, bq, ap, aq, state, counts, line)
}

// The receiver's answer to a question, numbered as a book's are.
#[unsafe(no_mangle)]
pub extern "C" fn wermazul_receiver_ask<'a>(
    bp: &'a [u32; 128],
    bq: &'a [u32; 128],
    ap: &'a [u32; 128],
    aq: &'a [u32; 128],
    state: u64,
    counts: Counts,
    question: u64,
    side: u64,
    small: u32,
    large: u64,
) -> Told
    ensures { result ≡ tell values_in (held_ask (lent_held bp bq ap aq state counts) question side small large) }
{
    exports::receiving::wermazul_receiver_ask(
        bp, bq, ap, aq, state, counts, question, side, small, large,
    )
}

// The places that a listing of the receiver's book fills, numbered as a book's are.
#[unsafe(no_mangle)]
pub extern "C" fn wermazul_receiver_places<'a>(
    bp: &'a [u32; 128],
    bq: &'a [u32; 128],
    ap: &'a [u32; 128],
    aq: &'a [u32; 128],
    state: u64,
    counts: Counts,
    listing: u64,
    side: u64,
    from: u64,
    to: u32,
    room: u64,
) -> Told
    ensures { result ≡ tell one_number (map_reply length (fitted room (held_numbers (lent_held bp bq ap aq state counts) listing side from to))) }
{
    exports::receiving::wermazul_receiver_places(
        bp, bq, ap, aq, state, counts, listing, side, from, to, room,
    )
}

// Writes a listing of the receiver's book to the front of lent memory: price, quantity, price, quantity.
#[unsafe(no_mangle)]
pub extern "C" fn wermazul_receiver_list<'a>(
    bp: &'a [u32; 128],
    bq: &'a [u32; 128],
    ap: &'a [u32; 128],
    aq: &'a [u32; 128],
    state: u64,
    counts: Counts,
    listing: u64,
    side: u64,
    from: u64,
    to: u32,
    out: &mut [u32],
) -> Told
    ensures { record { answer = result; memory = out.new } ≡ told_left (written (held_numbers (lent_held bp bq ap aq state counts) listing side from to) out.old) }
{
    exports::receiving::wermazul_receiver_list(
        bp, bq, ap, aq, state, counts, listing, side, from, to, out,
    )
}

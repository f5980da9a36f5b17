// The lines of the feed: a snapshot's line read and written, and any line read as the frame that it is.
#![tactic(auto)]

ghost use Rattle.std.specs.Prelude.{◌≡◌};
ghost use Rattle.frames.specs.Decode.{decode};
ghost use Rattle.lines.specs.Read.{read_of, read_as};

pub mod snapshot; // snapshot.rt: a snapshot's line, read and written

use deltas::BookDelta;
use orderbook::OrderBook;
use types::Refusal;

// What a line is: a delta, or a snapshot of this book.
#[derive(Clone, Copy)]
pub enum ReadFrame {
    Delta(BookDelta),
    Snapshot(OrderBook),
}

// What a line reads as: a frame if it is whole and this is its line, else 12. The line has its line feed.
pub fn read_frame(line: &[u8]) -> Result<ReadFrame, Refusal>
    ensures { read_of result ≡ read_as (decode line.now) }
{
    if let Ok(delta) = frames::read_delta(line) {
        return Ok(ReadFrame::Delta(delta));
    }
    Ok(ReadFrame::Snapshot(snapshot::read_snapshot(line)?))
}

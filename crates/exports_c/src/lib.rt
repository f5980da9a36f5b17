// What Rust and C link: each exported function of `exports` under its own name, with its promise stated again.
// Kept beside `exports`, word for word: the C interface wants the functions in a static library, and no theorem can stand on one.
#![tactic(auto)]

pub mod layout; // layout.rt: the archive's version, and the sizes of the records that cross
pub mod book; // book.rt: the book, its changes, its questions and its listings
pub mod ledger; // ledger.rt: the ledger
pub mod feed; // feed.rt: the lines of the feed
pub mod receiving; // receiving.rt: the receiver

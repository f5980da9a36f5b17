// Each question of a book that is handed over by value, under the original's name; thin, over the questions of one kind (kinds.rt). A crate's
// methods must stand with their type, so these are functions of a book, as the listings are. Second names are the original's, each a promise in
// docs/PROMISES.md, thin over one call.
#![tactic(auto)]

pub mod kinds; // kinds.rt: the questions of one kind, of a book by value
pub mod best; // best.rt: the best levels and what is made of them
pub mod volume; // volume.rt: counts and quantities
pub mod ratio; // ratio.rt: ratios of the sides' quantities
pub mod price; // price.rt: the price of trading a target

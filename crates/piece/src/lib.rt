// A pattern piece at one size: its points' shifts, held in a store of its own, and the calls that change them.
#![tactic(auto)]

mod lists;
mod pieces;
mod points;
mod sound;

pub use lists::{Call, Grading, ReplayLists, replay};
pub use pieces::{Piece, Returned, Ticket};
pub use sound::SoundPiece;

// A store over lent bytes, five to a cell.
#![tactic(auto)]

mod byte_store;
mod cells;
mod format;
mod window;

pub use byte_store::{ByteStore, take_once};

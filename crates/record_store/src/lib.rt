// A store over a lent slice of records, one for each location.
#![tactic(auto)]

mod cells;
mod records;

pub use cells::{Cell, Mark};
pub use records::{RecordStore, take_once};

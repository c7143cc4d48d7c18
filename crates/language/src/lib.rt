// The types that every layer shares, what a rule is and means, and the laws between these definitions.
#![tactic(auto)]

mod faults;
mod laws;
mod tables;
mod values;

pub use faults::{Fault, Layer, NamesCause, PieceCause, PlaceKind, RunCause, TableCause};
pub use laws::{
    acceptance_is_exact, answers_are_steady, answers_follow_meaning, reading_is_exact,
    runs_are_sound, runs_exist, shifts_are_exact, tables_are_judged_exactly,
};
pub use tables::{IN, Kind, Name, Node, OUT, UnknownKind, same_name};
pub use values::{Graded, Number, Scalar, Stop, Value};

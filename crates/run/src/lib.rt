// The runner of accepted rules, on any store.
#![tactic(auto)]

mod bindings;
mod blocks;
mod expressions;
mod levels;
mod machine;
mod operators;
mod runner;
mod runs;
mod tables;

pub use bindings::Binding;
pub use levels::{Frame, Level, State};
pub use runs::{RunLists, run};

// The check of a table: what it is as a rule, its names and types, and how many locations a run of it needs.
#![tactic(auto)]

mod calls;
mod checker;
mod commands;
mod cutting;
mod declarations;
mod entries;
mod expressions;
mod forms;
mod parts;
mod rules;

pub use entries::{Entry, Routine};
pub use rules::{CheckLists, Rule, check};

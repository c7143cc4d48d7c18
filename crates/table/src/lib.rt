// The form of a table: which stretch of nodes each piece of a rule takes up.
#![tactic(auto)]

mod lengths;
mod node;

pub use lengths::measure;

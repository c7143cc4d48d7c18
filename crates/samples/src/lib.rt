// Sample rules with the answers that are due, proved to be the defined ones.
#![tactic(auto)]

mod calls;
mod entries;
mod flow;
mod forms;
mod lines;
mod misuses;

pub use calls::call_samples;
pub use entries::Sample;
pub use flow::flow_samples;
pub use forms::form_refusals;
pub use lines::sample_lines;
pub use misuses::name_refusals;

// Tests of runs of accepted rules: the samples, stores in use, and the bounds of units, room and work lists.
#![tactic(auto)]

#[cfg(test)]
mod tests;

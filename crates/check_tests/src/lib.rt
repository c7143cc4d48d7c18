// Tests of check on the samples and at the bounds of tables and work lists.
#![tactic(auto)]

#[cfg(test)]
mod tests;

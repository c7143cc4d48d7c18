// Tests of pieces: a worked resize, each refusal, and the sample lines graded by a piece.
#![tactic(auto)]

#[cfg(test)]
mod tests;

// What a piece answers.
use language::{Graded, Number};

// A point's shift, and the piece's step.
#[derive(Clone, Copy, PartialEq, Eq)]
pub struct Shown {
    pub shift: Number,
    pub step: Number,
}

// What a call gives if it is not refused, as a value.
#[derive(Clone, Copy, PartialEq, Eq)]
pub enum Answer {
    Laid,
    // the number of the ticket
    Ticket(u32),
    Graded(Graded),
    // the piece's step after a keep
    Kept(Number),
    // the piece's step after an undo
    Undone(Number),
    Shown(Shown),
}

// Calls of a piece and their answers as values, what a piece is to its callers, and the laws of whole histories.
#![tactic(auto)]

ghost use Rattle.history.specs.Promise.{Always, Alike, Steady, UndoneWholly, RefusedWholly, Answered, AnsweredOnce};

mod answers;

pub use answers::{Answer, Shown};

// The laws of every history of every piece, and of any two of them. The function does nothing: its contract is the
// laws, and without their proofs the crate is refused.
pub fn laws()
    ensures always { Always }
    ensures alike { Alike }
    ensures steady { Steady }
    ensures undone_wholly { UndoneWholly }
    ensures refused_wholly { RefusedWholly }
    ensures answered { Answered }
    ensures answered_once { AnsweredOnce }
{}

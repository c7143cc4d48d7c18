// Samples of names, calls and blocks, for what the sample lines do not tell apart.
ghost use Rattle.samples.specs.Samples.{AsDue};

use crate::entries::{Sample, due, node, nodes, sample};
use language::{Fault, Graded, Kind, Layer, NamesCause, Node};

// Every answer is the defined one: the contract is one equation over the whole list.
pub fn call_samples() -> [Sample; 8]
    ensures answers_due { AsDue result }
{
    [
        sample!("a block that declares a procedure again hides the outer one from its bodies": nodes![null, proc 3 0, null, proc 3 0, call 3 0, proc 4 0, call 4 0, block 0 2 1, block 0 1 1], lists 11, step 0, allowance 1000, no names Procedure 4),
        sample!("a body sees the variable of its procedure's name": nodes![decl 2 0, read 2, whole 7, plus, assign 2, read 2, assign 1, block 0 0 2, proc 2 0, call 2 0, block 1 1 1], lists 13, step 0, allowance 1000, ok 7 5),
        sample!("commands see the procedure of a variable's name": nodes![decl 2 0, null, proc 2 0, read 2, assign 1, block 1 1 1], lists 8, step 0, allowance 1000, no names Variable 3),
        sample!("arguments go to formals in order": nodes![decl 5 0, decl 6 0, decl 2 0, decl 3 0, read 2, read 2, plus, read 3, plus, assign 1, proc 4 2, whole 10, assign 5, whole 1, assign 6, argument 5, argument 6, call 4 2, block 2 1 3], lists 21, step 0, allowance 1000, ok 21 5),
        sample!("two formals of one location": nodes![decl 5 0, decl 2 0, decl 3 0, read 2, whole 1, plus, assign 2, read 3, read 2, plus, assign 3, block 0 0 2, proc 4 2, whole 3, assign 5, argument 5, argument 5, call 4 2, read 5, assign 1, block 1 1 3], lists 23, step 0, allowance 1000, ok 8 7),
        sample!("calls inside calls": nodes![read 1, whole 1, plus, assign 1, proc 2 0, call 2 0, call 2 0, block 0 0 2, proc 3 0, call 3 0, block 0 1 1, block 0 1 1], lists 14, step 0, allowance 1000, ok 2 8),
        sample!("a variable hides the step": nodes![decl 0 0, read 0, assign 1, block 1 0 1], lists 6, step 5, allowance 1000, ok 0 2),
        sample!("a formal hides the result": nodes![decl 1 0, whole 5, assign 1, proc 2 1, argument 0, call 2 1, read 0, assign 1, block 0 1 2], lists 11, step 3, allowance 1000, ok 5 4),
    ]
}

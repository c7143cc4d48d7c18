// Samples of rules whose names or types do not fit.
ghost use Rattle.samples.specs.Samples.{AsDue};

use crate::entries::{Sample, due, node, nodes, sample};
use language::{Fault, Kind, Layer, NamesCause, Node};

// Every answer is the defined one: the contract is one equation over the whole list.
pub fn name_refusals() -> [Sample; 18]
    ensures answers_due { AsDue result }
{
    [
        sample!("two variables of one name": nodes![decl 2 0, decl 2 1, block 2 0 0], lists 5, step 0, allowance 1000, no names Repeated 1),
        sample!("two formals of one name": nodes![decl 2 0, decl 2 0, null, proc 3 2, block 0 1 0], lists 7, step 0, allowance 1000, no names Repeated 1),
        sample!("two procedures of one name": nodes![null, proc 2 0, null, proc 2 0, block 0 2 0], lists 7, step 0, allowance 1000, no names Repeated 3),
        sample!("a body is asked before its procedure's name": nodes![null, proc 2 0, read 9, assign 1, proc 2 0, block 0 2 0], lists 8, step 0, allowance 1000, no names Variable 2),
        sample!("an assignment to no variable": nodes![whole 1, assign 5], lists 4, step 0, allowance 1000, no names Variable 1),
        sample!("an argument that is no variable": nodes![decl 2 0, null, proc 3 1, argument 9, call 3 1, block 0 1 1], lists 8, step 0, allowance 1000, no names Variable 3),
        sample!("a call of no procedure": nodes![null, call 5 0, block 0 0 2], lists 5, step 0, allowance 1000, no names Procedure 1),
        sample!("a call of a variable": nodes![null, call 1 0, block 0 0 2], lists 5, step 0, allowance 1000, no names Procedure 1),
        sample!("a body does not see its own procedure": nodes![null, call 2 0, block 0 0 2, proc 2 0, null, block 0 1 1], lists 8, step 0, allowance 1000, no names Procedure 1),
        sample!("too few arguments": nodes![decl 2 0, null, proc 3 1, call 3 0, block 0 1 1], lists 7, step 0, allowance 1000, no names Arguments 3),
        sample!("too many arguments": nodes![null, proc 3 0, argument 1, call 3 1, block 0 1 1], lists 7, step 0, allowance 1000, no names Arguments 3),
        sample!("a truth in a sum": nodes![whole 1, truth 1, plus, assign 1], lists 6, step 0, allowance 1000, no names Types 2),
        sample!("a number in an or": nodes![truth 1, whole 1, or, null, null, if], lists 8, step 0, allowance 1000, no names Types 2),
        sample!("a number as a test": nodes![whole 1, null, null, if], lists 6, step 0, allowance 1000, no names Types 3),
        sample!("a number as the test of a while": nodes![whole 1, null, while], lists 5, step 0, allowance 1000, no names Types 2),
        sample!("a truth into a number": nodes![truth 1, assign 1], lists 4, step 0, allowance 1000, no names Types 1),
        sample!("an argument's type belongs to the call": nodes![decl 2 1, null, proc 3 1, argument 1, call 3 1, block 0 1 1], lists 8, step 0, allowance 1000, no names Types 4),
        sample!("a branch is asked before the test's type": nodes![whole 1, read 9, assign 1, null, if], lists 7, step 0, allowance 1000, no names Variable 1),
    ]
}

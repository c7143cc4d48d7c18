// Samples of values, branches and units, for what the sample lines do not tell apart.
ghost use Rattle.samples.specs.Samples.{AsDue};

use crate::entries::{Sample, due, node, nodes, sample};
use language::{Fault, Graded, Kind, Layer, Node, RunCause};

// Every answer is the defined one: the contract is one equation over the whole list.
pub fn flow_samples() -> [Sample; 18]
    ensures answers_due { AsDue result }
{
    let branch = nodes![read 0, whole 0, less, whole 1, assign 1, whole 2, assign 1, if];
    let first_met = nodes![read 0, whole 1, plus, assign 1, null, block 0 0 2];
    let either =
        nodes![read 0, whole 0, less, whole 0, read 0, less, or, whole 1, assign 1, null, if];
    [
        sample!("a while never entered takes one unit": nodes![truth 0, null, while], lists 5, step 0, allowance 1000, ok 0 1),
        sample!("the first branch": branch, lists 10, step -5, allowance 1000, ok 1 2),
        sample!("the second branch": branch, lists 10, step 5, allowance 1000, ok 2 2),
        sample!("less is strict": branch, lists 10, step 0, allowance 1000, ok 2 2),
        sample!("the left operand first": nodes![read 0, whole 1, plus, read 0, whole 1, plus, plus, assign 1], lists 10, step 2147483647, allowance 1000, no run Sum 2),
        sample!("a sum below the range": nodes![read 0, whole -1, plus, assign 1], lists 6, step -2147483648, allowance 1000, no run Sum 2),
        sample!("the lowest number": nodes![read 0, assign 1], lists 4, step -2147483648, allowance 1000, ok -2147483648 1),
        sample!("the highest sum": nodes![read 0, whole 1, plus, assign 1], lists 6, step 2147483646, allowance 1000, ok 2147483647 1),
        sample!("the sum is met before a unit is wanting": first_met, lists 8, step 2147483647, allowance 2, no run Sum 2),
        sample!("the unit is wanting before the sum is met": first_met, lists 8, step 2147483647, allowance 1, no run Unit 3),
        sample!("no allowance": first_met, lists 8, step 0, allowance 0, no run Unit 5),
        sample!("the last command wants a unit": first_met, lists 8, step 0, allowance 2, no run Unit 4),
        sample!("just enough units": first_met, lists 8, step 0, allowance 3, ok 1 3),
        sample!("a truth is kept": nodes![decl 2 1, truth 1, assign 2, read 2, whole 9, assign 1, null, if, block 1 0 2], lists 11, step 0, allowance 1000, ok 9 4),
        sample!("a truth begins false": nodes![decl 2 1, read 2, whole 9, assign 1, whole 4, assign 1, if, block 1 0 1], lists 10, step 0, allowance 1000, ok 4 3),
        sample!("only the right operand true": either, lists 13, step 3, allowance 1000, ok 1 2),
        sample!("only the left operand true": either, lists 13, step -3, allowance 1000, ok 1 2),
        sample!("neither operand true": either, lists 13, step 0, allowance 1000, ok 0 2),
    ]
}

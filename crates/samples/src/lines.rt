// The sample lines: rules, each with a step, an allowance and the answer that is due.
ghost use Rattle.samples.specs.Samples.{AsDue};

use crate::entries::{Sample, due, node, nodes, sample};
use language::{Fault, Graded, Kind, Layer, NamesCause, Node, RunCause};

// Every answer is the defined one: the contract is one equation over the whole list.
pub fn sample_lines() -> [Sample; 14]
    ensures answers_due { AsDue result }
{
    let a = nodes![read 0, whole 1, plus, assign 1];
    let c =
        nodes![decl 2 0, read 2, read 0, less, read 1, whole 250, plus, assign 1, read 2, whole 1, plus, assign 2, block 0 0 2, while, block 1 0 1];
    let f =
        nodes![decl 2 0, whole 1, assign 2, proc 3 0, decl 2 0, call 3 0, read 2, assign 1, block 1 0 2, block 1 1 1];
    let g =
        nodes![decl 2 0, decl 3 0, read 2, whole 1, plus, assign 2, read 3, read 2, plus, assign 3, block 0 0 2, proc 4 2, argument 1, argument 1, call 4 2, block 0 1 1];
    let h = nodes![call 2 0, proc 2 0, null, block 0 1 1];
    let i = nodes![read 0, whole 1, less, assign 1];
    let j = nodes![read 2, assign 1];
    let k = nodes![truth 1, read 0, whole 1, plus, whole 0, less, or, null, null, if];
    let l = nodes![block 0 0 0];
    let m = nodes![null];
    let n =
        nodes![read 0, whole 2, less, decl 2 0, read 1, read 2, plus, assign 1, whole 5, assign 2, block 1 0 2, read 0, whole 1, plus, assign 0, block 0 0 2, while];
    [
        sample!("A": a, lists 6, step 5, allowance 1000, ok 6 1),
        sample!("B": a, lists 6, step 2147483647, allowance 1000, no run Sum 2),
        sample!("C": c, lists 17, step 3, allowance 14, ok 750 14),
        sample!("D": c, lists 17, step 3, allowance 13, no run Unit 13),
        sample!("E": c, lists 17, step -2, allowance 1000, ok 0 2),
        sample!("F": f, lists 12, step 0, allowance 1000, ok 0 5),
        sample!("G": g, lists 18, step 0, allowance 1000, ok 2 5),
        sample!("H": h, lists 6, step 0, allowance 1000, no names Procedure 0),
        sample!("I": i, lists 6, step 0, allowance 1000, no names Types 3),
        sample!("J": j, lists 4, step 0, allowance 1000, no names Variable 0),
        sample!("K": k, lists 12, step 2147483647, allowance 1000, no run Sum 3),
        sample!("L": l, lists 3, step 0, allowance 1000, ok 0 1),
        sample!("M": m, lists 3, step 0, allowance 0, no run Unit 0),
        sample!("N": n, lists 19, step 0, allowance 1000, ok 0 13),
    ]
}

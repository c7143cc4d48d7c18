// Samples of tables that are not the form of a rule.
ghost use Rattle.samples.specs.Samples.{AsDue};

use crate::entries::{Sample, due, node, nodes, sample};
use language::{Fault, Kind, Layer, Node, TableCause};

// Every answer is the defined one: the contract is one equation over the whole list.
pub fn form_refusals() -> [Sample; 19]
    ensures answers_due { AsDue result }
{
    [
        sample!("no nodes": nodes![], lists 2, step 0, allowance 1000, no table Length 0),
        sample!("work lists one record short": nodes![null], lists 2, step 0, allowance 1000, no table WorkLists 0),
        sample!("kind 15": nodes![null, raw 15 0 0 0 0 0], lists 4, step 0, allowance 1000, no table Kind 1),
        sample!("kind 255": nodes![null, raw 255 0 0 0 0 0], lists 4, step 0, allowance 1000, no table Kind 1),
        sample!("a value that assign does not list": nodes![read 0, raw 7 1 5 0 0 0], lists 4, step 0, allowance 1000, no table Fields 1),
        sample!("a truth of 2": nodes![null, raw 0 0 2 0 0 0], lists 4, step 0, allowance 1000, no table Fields 1),
        sample!("a truth of -1": nodes![null, raw 0 0 -1 0 0 0], lists 4, step 0, allowance 1000, no table Fields 1),
        sample!("a declaration of type 2": nodes![null, raw 12 3 2 0 0 0], lists 4, step 0, allowance 1000, no table Fields 1),
        sample!("a name that plus does not list": nodes![whole 1, whole 1, raw 3 1 0 0 0 0], lists 5, step 0, allowance 1000, no table Fields 2),
        sample!("a count that null does not list": nodes![truth 1, raw 6 0 0 1 0 0], lists 4, step 0, allowance 1000, no table Fields 1),
        sample!("a second count that call does not list": nodes![truth 1, raw 10 2 0 0 1 0], lists 4, step 0, allowance 1000, no table Fields 1),
        sample!("a third count that proc does not list": nodes![null, raw 13 2 0 0 0 1], lists 4, step 0, allowance 1000, no table Fields 1),
        sample!("one operand wanting": nodes![read 0, plus], lists 4, step 0, allowance 1000, no table Pieces 1),
        sample!("a command in place of an expression": nodes![null, assign 1], lists 4, step 0, allowance 1000, no table Pieces 1),
        sample!("an argument wanting": nodes![read 0, call 2 1], lists 4, step 0, allowance 1000, no table Pieces 1),
        sample!("a declaration after the commands": nodes![null, decl 2 0, block 1 0 1], lists 5, step 0, allowance 1000, no table Pieces 2),
        sample!("two commands": nodes![null, null], lists 4, step 0, allowance 1000, no table Whole 1),
        sample!("an expression alone": nodes![read 0, whole 1, plus], lists 5, step 0, allowance 1000, no table Whole 2),
        sample!("every form is asked before any name": nodes![read 9, assign 1, raw 15 0 0 0 0 0], lists 5, step 0, allowance 1000, no table Kind 2),
    ]
}

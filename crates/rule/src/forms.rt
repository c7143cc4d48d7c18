// What a command is, with the parts of its pieces.
ghost use Rattle.language.specs.Tree.{Com};
ghost use Rattle.rule.specs.Pieces.{IsCom};
ghost use Rattle.rule.specs.Shapes.{ShowsCom};

use crate::parts::Part;
use language::{Kind, Name};

#[derive(Clone, Copy)]
pub enum ComView<'a> {
    Null,
    Assign {
        name: Name,
        value: Part<'a>,
    },
    If {
        test: Part<'a>,
        yes: Part<'a>,
        no: Part<'a>,
    },
    While {
        test: Part<'a>,
        body: Part<'a>,
    },
    Call {
        name: Name,
        args: Part<'a>,
    },
    Block {
        variables: Part<'a>,
        procs: Part<'a>,
        coms: Part<'a>,
    },
}

#[tactic(auto, using(crate::proofs::ComShapes::com_long))]
pub(crate) fn view<'a>(part: Part<'a>) -> ComView<'a>
    requires some { (c : Com) × IsCom part c }
    ensures shows { (c : Com) → IsCom part.entry c → ShowsCom result part.entry c }
{
    match part.kind() {
        Kind::Null => ComView::Null,
        Kind::Assign => ComView::Assign {
            name: part.last().name,
            value: part.body(),
        },
        Kind::If => {
            let (test, yes, no) = part.thirds();
            ComView::If { test, yes, no }
        }
        Kind::While => {
            let (test, body) = part.halves();
            ComView::While { test, body }
        }
        Kind::Call => ComView::Call {
            name: part.last().name,
            args: part.body(),
        },
        Kind::Block => {
            let (variables, procs, coms) = part.block_parts();
            ComView::Block {
                variables,
                procs,
                coms,
            }
        }
        _ => unreachable(),
    }
}

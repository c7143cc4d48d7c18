// What one node says by itself: the sort of the piece that it ends, and whether its fields are as its kind wants them.
ghost use Rattle.std.specs.Prelude.{◌≡◌};
ghost use Rattle.language.specs.Table.{formed as well_formed, bit_of};
ghost use Rattle.table.specs.Sorts.{zero_counts};

use language::{Kind, Node, Number};

// The sorts of pieces that a node can take.
#[derive(Clone, Copy, PartialEq, Eq)]
pub enum Sort {
    Expression,
    Command,
    Argument,
    Declaration,
    Procedure,
}

impl From<Kind> for Sort {
    ghost use Rattle.table.specs.Sorts.{sort_of};

    ghost from_gives = { λ kind sort. sort ≡ sort_of kind };

    fn from(kind: Kind) -> Sort {
        match kind {
            Kind::Truth | Kind::Whole | Kind::Read | Kind::Plus | Kind::Less | Kind::Or =>
                Sort::Expression,
            Kind::Null | Kind::Assign | Kind::If | Kind::While | Kind::Call | Kind::Block =>
                Sort::Command,
            Kind::Argument => Sort::Argument,
            Kind::Decl => Sort::Declaration,
            Kind::Proc => Sort::Procedure,
        }
    }
}

fn is_bit(value: Number) -> bool
    ensures { result ≡ bit_of value }
{
    value == 0 || value == 1
}

fn no_counts(node: Node) -> bool
    ensures { result ≡ zero_counts node }
{
    node.a == 0 && node.b == 0 && node.c == 0
}

// Whether unlisted fields are 0, and the value is one that the kind allows.
pub fn formed(kind: Kind, node: Node) -> bool
    ensures { result ≡ well_formed kind node }
{
    match kind {
        Kind::Truth => node.name == 0 && is_bit(node.value) && no_counts(node),
        Kind::Whole => node.name == 0 && no_counts(node),
        Kind::Read | Kind::Assign | Kind::Argument => node.value == 0 && no_counts(node),
        Kind::Plus | Kind::Less | Kind::Or | Kind::Null | Kind::If | Kind::While => {
            node.name == 0 && node.value == 0 && no_counts(node)
        }
        Kind::Call | Kind::Proc => node.value == 0 && node.b == 0 && node.c == 0,
        Kind::Decl => is_bit(node.value) && no_counts(node),
        Kind::Block => node.name == 0 && node.value == 0,
    }
}

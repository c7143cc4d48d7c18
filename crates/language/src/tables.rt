// The table form of a rule.
ghost use Rattle.std.specs.Prelude.{◌≡◌};
ghost use Rattle.language.specs.Kinds.{numbered, kind_of};
ghost use Rattle.language.specs.Same.{same};
ghost use Rattle.language.specs.Table.{type_of};

use crate::values::{Number, Scalar};

// A name in a table.
pub type Name = u16;

// The two names that are in sight for the whole rule: the step, and what the rule gives.
pub const IN: Name = 0;

pub const OUT: Name = 1;

// Whether two names are the same name. All that asks it asks here, so that names can become something else in one place.
pub fn same_name(a: Name, b: Name) -> bool
    ensures { result ≡ same a b }
{
    a == b
}

// One node of a table, in the fixed form in which it comes in: a number that is no kind is allowed here.
#[derive(Clone, Copy, PartialEq, Eq)]
pub struct Node {
    pub kind: u8,
    pub name: Name,
    pub value: Number,
    pub a: u16,
    pub b: u16,
    pub c: u16,
}

impl Node {
    // The type that the node gives a variable; no `From`, since it is one only where the node is a declaration.
    pub fn declared_type(self) -> Scalar
        ensures { result ≡ type_of self.value }
    {
        if self.value == 0 {
            Scalar::Whole
        } else {
            Scalar::Truth
        }
    }
}

#[derive(Clone, Copy, PartialEq, Eq)]
pub enum Kind {
    Truth,
    Whole,
    Read,
    Plus,
    Less,
    Or,
    Null,
    Assign,
    If,
    While,
    Call,
    Argument,
    Decl,
    Proc,
    Block,
}

// A number that no kind has.
#[derive(Clone, Copy, Debug, PartialEq, Eq)]
pub struct UnknownKind;

impl TryFrom<u8> for Kind {
    type Error = UnknownKind;

    ghost try_from_gives = { λ number result. result ≡ kind_of number };

    fn try_from(number: u8) -> Result<Kind, UnknownKind> {
        match number {
            0 => Ok(Kind::Truth),
            1 => Ok(Kind::Whole),
            2 => Ok(Kind::Read),
            3 => Ok(Kind::Plus),
            4 => Ok(Kind::Less),
            5 => Ok(Kind::Or),
            6 => Ok(Kind::Null),
            7 => Ok(Kind::Assign),
            8 => Ok(Kind::If),
            9 => Ok(Kind::While),
            10 => Ok(Kind::Call),
            11 => Ok(Kind::Argument),
            12 => Ok(Kind::Decl),
            13 => Ok(Kind::Proc),
            14 => Ok(Kind::Block),
            _ => Err(UnknownKind),
        }
    }
}

impl From<Kind> for u8 {
    ghost from_gives = { λ kind number. number ≡ numbered kind };

    fn from(kind: Kind) -> u8 {
        kind as u8
    }
}

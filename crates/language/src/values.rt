// Numbers, truths, and what a run comes to.
ghost use Rattle.std.specs.Prelude.{◌≡◌};
ghost use Rattle.language.specs.Values.{sort, alike, initial_value};

use std::fmt;

// The numbers of the engine: constants, steps and shifts.
pub type Number = i32;

// The two types of a variable.
#[derive(Clone, Copy, PartialEq, Eq)]
pub enum Scalar {
    Whole,
    Truth,
}

impl Scalar {
    // What a variable of this type holds when it is taken; as a `From` it would not be said at its uses which value.
    pub fn first_value(self) -> Value
        ensures { result ≡ initial_value self }
    {
        match self {
            Scalar::Whole => Value::Whole(0),
            Scalar::Truth => Value::Truth(false),
        }
    }
}

// What a variable holds.
#[derive(Clone, Copy, PartialEq, Eq)]
pub enum Value {
    Truth(bool),
    Whole(Number),
}

impl Value {
    pub fn scalar(self) -> Scalar
        ensures { result ≡ sort self }
    {
        match self {
            Value::Truth(_) => Scalar::Truth,
            Value::Whole(_) => Scalar::Whole,
        }
    }

    // Whether both are truths, or both whole numbers.
    pub fn is_like(self, other: Value) -> bool
        ensures { result ≡ alike (sort self) (sort other) }
    {
        self.scalar() == other.scalar()
    }
}

impl fmt::Display for Value {
    ghost use Rattle.std.specs.Prelude.{Some};
    ghost use Rattle.language.specs.Printed.{value_text};

    ghost output = { λ value. Some (value_text value) };

    fn fmt<W: fmt::Write>(&self, f: &mut fmt::Formatter<W>) -> fmt::Result {
        match self {
            Value::Truth(truth) => write!(f, "{truth}"),
            Value::Whole(number) => write!(f, "{number}"),
        }
    }
}

// What ends a run before its command is done.
#[derive(Clone, Copy, PartialEq, Eq)]
pub enum Stop {
    // a sum out of range, at the node of this plus
    Sum(usize),
    // no unit left, at the node of this command
    Unit(usize),
    // a name, a value or a location misused: no accepted rule comes to this
    Stuck,
}

// What a finished run gives: the contents of `out`, and the units taken.
#[derive(Clone, Copy, PartialEq, Eq)]
pub struct Graded {
    pub shift: Number,
    pub units: u32,
}

// The answer as it is printed: that it is one, the shift and the units.
impl fmt::Display for Graded {
    ghost use Rattle.std.specs.Prelude.{Some};
    ghost use Rattle.language.specs.Printed.{graded_text};

    ghost output = { λ graded. Some (graded_text graded) };

    fn fmt<W: fmt::Write>(&self, f: &mut fmt::Formatter<W>) -> fmt::Result {
        write!(f, "ok {} {}", self.shift, self.units)
    }
}

// The record of one location.
ghost use Rattle.std.specs.Prelude.{◌≡◌, Some, None};
ghost use Rattle.record_store.specs.Cells.{value_in, cell_of};

use language::{Number, Value};

#[derive(Clone, Copy, PartialEq, Eq)]
pub enum Mark {
    Free,
    Truth,
    Whole,
}

// The cells lie in the caller's memory in this fixed form: a free one has the number 0, a truth 0 or 1.
#[derive(Clone, Copy, PartialEq, Eq)]
pub struct Cell {
    pub mark: Mark,
    pub number: Number,
}

impl Cell {
    // The cell of a live location. Not a `From`, which has one fact and no name for it.
    pub fn holding(value: Value) -> Cell
        ensures cell { result ≡ cell_of (Some value) }
        ensures reads_back { value_in result ≡ Some value }
    {
        match value {
            Value::Truth(truth) => Cell {
                mark: Mark::Truth,
                number: Number::from(truth),
            },
            Value::Whole(number) => Cell {
                mark: Mark::Whole,
                number,
            },
        }
    }

    // The cell of a location that is not live.
    pub fn free() -> Cell
        ensures cell { result ≡ cell_of None }
        ensures reads_back { value_in result ≡ None }
    {
        Cell {
            mark: Mark::Free,
            number: 0,
        }
    }

    // What the location holds, if it is live.
    pub fn value(self) -> Option<Value>
        ensures { result ≡ value_in self }
    {
        match self.mark {
            Mark::Free => None,
            Mark::Truth => Some(Value::Truth(self.number != 0)),
            Mark::Whole => Some(Value::Whole(self.number)),
        }
    }
}

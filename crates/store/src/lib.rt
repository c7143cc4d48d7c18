// A store of variables, known by its meaning alone: a limit that never changes, and a map from live
// locations (0 to 65,535), never more of them than the limit, to values.
#![tactic(auto)]

ghost use Rattle.std.specs.Prelude.{◌≡◌, ℕ, ◌<◌, ◌≤◌, true, is_some, Some, None};
ghost use Rattle.language.specs.declared.values.Value.{Value};
ghost use Rattle.language.specs.declared.values.Stop.TheVariants.{Stuck};
ghost use Rattle.language.specs.Memory.{Memory, live};
ghost use Rattle.store.specs.Calls.{Taken, read_answer, write_answer, release_answer, after_call};

use language::{Stop, Value};
use std::error::Error;
use std::fmt;

// Every location that the limit allows is live.
#[derive(Clone, Copy, Debug, PartialEq, Eq)]
pub struct Full;

// The location is not live.
#[derive(Clone, Copy, Debug, PartialEq, Eq)]
pub struct Dead;

#[derive(Clone, Copy, Debug, PartialEq, Eq)]
pub enum WriteRefusal {
    // the location is not live
    Dead,
    // a truth in place of a whole number, or a whole number in place of a truth
    Kind,
}

impl fmt::Display for Full {
    ghost use Rattle.std.specs.Prelude.{codes};

    ghost output = { λ _. Some (codes "the store is full") };

    fn fmt<W: fmt::Write>(&self, f: &mut fmt::Formatter<W>) -> fmt::Result {
        f.write_str("the store is full")
    }
}

impl Error for Full {}

impl fmt::Display for Dead {
    ghost use Rattle.std.specs.Prelude.{codes};

    ghost output = { λ _. Some (codes "dead") };

    fn fmt<W: fmt::Write>(&self, f: &mut fmt::Formatter<W>) -> fmt::Result {
        f.write_str("dead")
    }
}

impl Error for Dead {}

impl fmt::Display for WriteRefusal {
    ghost use Rattle.store.specs.Printed.{refusal_text};

    ghost output = { λ refusal. Some (refusal_text refusal) };

    fn fmt<W: fmt::Write>(&self, f: &mut fmt::Formatter<W>) -> fmt::Result {
        f.write_str(match self {
            WriteRefusal::Dead => "dead",
            WriteRefusal::Kind => "kind",
        })
    }
}

impl Error for WriteRefusal {}

// In a run a refusal of the store is a misuse. One impl for each type of refusal, as the trait of std wants.
impl From<Full> for Stop {
    ghost from_gives = { λ _ stop. stop ≡ Stuck };

    fn from(_: Full) -> Stop {
        Stop::Stuck
    }
}

impl From<Dead> for Stop {
    ghost from_gives = { λ _ stop. stop ≡ Stuck };

    fn from(_: Dead) -> Stop {
        Stop::Stuck
    }
}

impl From<WriteRefusal> for Stop {
    ghost from_gives = { λ _ stop. stop ≡ Stuck };

    fn from(_: WriteRefusal) -> Stop {
        Stop::Stuck
    }
}

pub trait Store {
    // the limit
    ghost bound: { Self → ℕ };

    // what each location holds, if it is live
    ghost at: { Self → Memory };

    // each live location is below 65,536
    ghost low: { (s : Self) (l : ℕ) → is_some (at s l) ≡ true → l < 65536 };

    // no more locations are live than the limit
    ghost within: { (s : Self) → live (at s) ≤ bound s };

    fn limit(&self) -> u32
        ensures { result ≡ bound self.now };

    // How many locations are live.
    fn count(&self) -> u32
        ensures { result ≡ live (at self.now) };

    // Makes some location live with the value, unless the store is full; which one is left to the store.
    fn take(&mut self, value: Value) -> Result<u16, Full>
        ensures limit_kept { bound self.new ≡ bound self.old }
        ensures taken { Taken (bound self.old) (at self.old) (at self.new) value result };

    fn read(&self, location: u16) -> Result<Value, Dead>
        ensures { result ≡ read_answer (at self.now location) };

    // Replaces the value at a live location by one of the same kind.
    fn write(&mut self, location: u16, value: Value) -> Result<(), WriteRefusal>
        ensures limit_kept { bound self.new ≡ bound self.old }
        ensures answer { result ≡ write_answer (at self.old location) value }
        ensures others_kept { at self.new ≡ after_call result (at self.old) location (Some value) };

    // Ends a live location.
    fn release(&mut self, location: u16) -> Result<(), Dead>
        ensures limit_kept { bound self.new ≡ bound self.old }
        ensures answer { result ≡ release_answer (at self.old location) }
        ensures others_kept { at self.new ≡ after_call result (at self.old) location None };
}

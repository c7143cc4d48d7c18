// What the names in sight stand for during a run.
ghost use Rattle.std.specs.Prelude.{◌≡◌, ℕ, Some};
ghost use Rattle.run.specs.declared.bindings.Binding.TheVariants.{Place};
ghost use Rattle.run.specs.Names.{found, sees, as_procedure};

use language::{Name, Stop};
use scope::Scope;

#[derive(Clone, Copy)]
pub enum Binding {
    // a variable, by its location
    Place(u16),
    // a procedure, by its node and the position that its body sees from
    Procedure(usize, usize),
}

// The location of the variable of this name.
pub(crate) fn locate(scope: &Scope<'_, Binding>, name: Name) -> Result<u16, Stop>
    ensures location { result ≡ sees scope.now.records.now scope.now.head name }
{
    match scope.find(name) {
        Some(Binding::Place(location)) => Ok(location),
        _ => Err(Stop::Stuck),
    }
}

// The procedure of this name: its node, and the position that its body sees from.
pub(crate) fn find_procedure(scope: &Scope<'_, Binding>, name: Name) -> Result<(usize, usize), Stop>
    ensures procedure { result ≡ as_procedure (found scope.now.records.now scope.now.head name) }
{
    match scope.find(name) {
        Some(Binding::Procedure(at, seen)) => Ok((at, seen)),
        _ => Err(Stop::Stuck),
    }
}

// The location of a variable, of what is known to be one.
pub(crate) fn location_in(binding: Option<Binding>) -> u16
    requires variable { (location : ℕ) × (binding ≡ Some (Place location)) }
    ensures location { binding ≡ Some (Place result) }
{
    match binding {
        Some(Binding::Place(location)) => location,
        _ => unreachable(),
    }
}

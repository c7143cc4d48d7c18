// What the check knows of a name in sight.
ghost use Rattle.std.specs.Prelude.{◌≡◌, ◌<◌, ◌≤◌, ◌∷◌};
ghost use Rattle.language.specs.Sight.{look};
ghost use Rattle.language.specs.Names.{as_variable, as_procedure};
ghost use Rattle.rule.specs.Seen.{Names as Sights, Sees, sight, room, Grown, Turned, Returned, RoutineSaid};

use crate::checker::Checker;
use language::{Fault, Name, NamesCause, Scalar};
use scope::Mark;

// A procedure, by numbers, since a slice of its formals would have to live longer than the list: the number of its first formal, how many formals it has, and the locations that its body needs.
#[derive(Clone, Copy)]
pub struct Routine {
    pub first: usize,
    pub count: usize,
    pub need: usize,
}

#[derive(Clone, Copy)]
pub enum Entry {
    Variable(Scalar),
    Procedure(Routine),
    // no entry: a name that the procedures of a block do not see
    Hidden,
}

impl Checker<'_, '_, '_> {
    // The type of the variable of this name; name and place come from one node, which the caller's part names.
    pub(crate) fn variable(&self, name: Name, place: usize) -> Result<Scalar, Fault>
        ensures says { (ρ : Sights) → Sees self.now ρ → result ≡ as_variable place (look name ρ) }
    {
        match self.scope.find(name) {
            Some(Entry::Variable(t)) => Ok(t),
            _ => Err(Fault::new(NamesCause::Variable.into(), place)),
        }
    }

    // The procedure of this name.
    pub(crate) fn procedure(&self, name: Name, place: usize) -> Result<Routine, Fault>
        ensures says { (ρ : Sights) → Sees self.now ρ → RoutineSaid self.now.table.now result (as_procedure place (look name ρ)) }
    {
        match self.scope.find(name) {
            Some(Entry::Procedure(found)) => Ok(found),
            _ => Err(Fault::new(NamesCause::Procedure.into(), place)),
        }
    }

    // Puts a name in sight, where there is room.
    pub(crate) fn enter(&mut self, name: Name, entry: Entry)
        requires room { self.old.scope.top < room self.old }
        ensures sight { sight self.new ≡ (name, entry) ∷ sight self.old }
        ensures grown { Grown self.old self.new 1 }
    {
        self.scope.enter(name, entry).unwrap();
    }

    // Sees from a position that is there.
    pub(crate) fn see_from(&mut self, position: usize)
        requires there { position ≤ self.old.scope.top }
        ensures turned { Turned self.old self.new position }
    {
        self.scope.see_from(position).unwrap();
    }

    // Goes back to a mark that is there.
    pub(crate) fn back_to(&mut self, mark: Mark)
        requires there { mark.top ≤ self.old.scope.top }
        ensures returned { Returned self.old self.new mark.top mark.head }
    {
        self.scope.back_to(mark).unwrap();
    }
}

// Calls: the arguments beside the formals.
ghost use Rattle.std.specs.Prelude.{◌≡◌, ◌≤◌, length, take};
ghost use Rattle.language.specs.Tree.{call as calls};
ghost use Rattle.language.specs.Names.{check_args, check_com, all_alike};
ghost use Rattle.rule.specs.Pieces.{long};
ghost use Rattle.rule.specs.Seen.{Names as Sights, Sees, Kept, types_in};
ghost use Rattle.rule.specs.Rows.{args_from, ArgsSaid};
ghost use Rattle.rule.specs.Said.{KeptIf};

use crate::checker::Checker;
use crate::entries::Routine;
use crate::parts::Part;
use language::{Fault, Name, NamesCause, Node, Scalar};

// The types in the list are those of the formals.
fn fit(formals: &[Node], types: &[Scalar]) -> bool
    requires types { length formals.now ≤ length types.now }
    ensures alike { result ≡ all_alike (take (length formals.now) types.now) (types_in formals.now) }
{
    formals
        .iter()
        .zip(types)
        .all(|(formal, t)| *t == formal.declared_type())
}

impl Checker<'_, '_, '_> {
    // Leaves the types of the arguments in the list, which goes by number, since the checker that has it is asked meanwhile.
    fn actuals(&mut self, part: Part<'_>) -> Result<(), Fault>
        requires types { long part ≤ length self.old.types.now }
        ensures says { (ρ : Sights) → Sees self.old ρ → ArgsSaid result (check_args ρ (args_from part.entry.first part.entry.nodes.now)) (take (long part.entry) self.new.types.now) }
        ensures kept { Kept self.old self.new }
        ensures types_kept { length self.new.types.now ≡ length self.old.types.now }
    {
        for (k, node) in part.nodes.iter().enumerate() {
            self.types[k] = self.variable(node.name, part.first + k)?;
        }
        Ok(())
    }

    // The need of the procedure that is called.
    pub(crate) fn call(&mut self, name: Name, args: Part<'_>, place: usize) -> Result<usize, Fault>
        requires types { long args ≤ length self.old.types.now }
        requires looks { (ρ : Sights) × Sees self.old ρ }
        ensures says { (ρ : Sights) → Sees self.old ρ → result ≡ check_com ρ (calls place name (args_from args.entry.first args.entry.nodes.now)) }
        ensures kept { KeptIf result self.old self.new }
    {
        self.actuals(args)?;
        let Routine { first, count, need } = self.procedure(name, place)?;
        if args.nodes.len() != count {
            return Err(Fault::new(NamesCause::Arguments.into(), place));
        }
        if !fit(&self.table[first..first + count], self.types) {
            return Err(Fault::new(NamesCause::Types.into(), place));
        }
        Ok(need)
    }
}

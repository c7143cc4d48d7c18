// The names and types of commands, and the locations that they need.
ghost use Rattle.std.specs.Prelude.{◌≡◌, ℕ, ◌+◌, ◌≤◌, []};
ghost use Rattle.language.specs.Tree.{Expr, Procs, assign as assigns};
ghost use Rattle.language.specs.Spelling.{how_many_procs};
ghost use Rattle.language.specs.Sight.{member};
ghost use Rattle.language.specs.Names.{proc_names, check_com};
ghost use Rattle.rule.specs.Pieces.{IsExpr, IsProcs};
ghost use Rattle.rule.specs.Seen.{Names as Sights, Sees, sight, room, Grown};
ghost use Rattle.rule.specs.Shown.{SomeExpr};
ghost use Rattle.rule.specs.Said.{SomeCom, SomeComs, SomeBlock, SomeProc, SomeProcs, ComSays, ComsSays, BlockSays, ProcSays, ProcsSays, KeptIf, GrownIf, hidden, seen_after};

use crate::checker::Checker;
use crate::declarations::check_names;
use crate::entries::{Entry, Routine};
use crate::expressions::agree;
use crate::forms::{ComView, view};
use crate::parts::Part;
use language::{Fault, Name, NamesCause, Scalar, same_name};

// Whether one of the procedures has this name.
fn named(procs: Part<'_>, name: Name) -> bool
    requires some { (ps : Procs) × IsProcs procs ps }
    ensures found { (ps : Procs) → IsProcs procs.entry ps → result ≡ member name (seen_after ps []) }
{
    let Some((front, last)) = procs.split_last() else {
        return false;
    };
    same_name(name, last.last().name) || named(front, name)
}

impl Checker<'_, '_, '_> {
    // Hides the names of the procedures.
    fn hide(&mut self, procs: Part<'_>)
        requires some { (ps : Procs) × IsProcs procs ps × (self.old.scope.top + how_many_procs ps ≤ room self.old) }
        ensures sight { (ps : Procs) → IsProcs procs.entry ps → sight self.new ≡ hidden (proc_names ps) (sight self.old) }
        ensures grown { (ps : Procs) → IsProcs procs.entry ps → Grown self.old self.new (how_many_procs ps) }
    {
        let Some((front, last)) = procs.split_last() else {
            return;
        };
        self.enter(last.last().name, Entry::Hidden);
        self.hide(front);
    }

    fn assign(&self, name: Name, value: Part<'_>, place: usize) -> Result<usize, Fault>
        requires some { SomeExpr value }
        ensures says { (e : Expr) (ρ : Sights) → IsExpr value.entry e → Sees self.now ρ → result ≡ check_com ρ (assigns place name e) }
    {
        let t = self.expression(value)?;
        let u = self.variable(name, place)?;
        agree(t, u, place)?;
        Ok(0)
    }

    // The locations that the command needs.
    #[cycle(commands)]
    #[tactic(auto, using(crate::proofs::ComShapes::com_long))]
    pub(crate) fn command(&mut self, part: Part<'_>) -> Result<usize, Fault>
        requires some { SomeCom self.old part }
        ensures says { ComSays self.old part.entry result }
        ensures kept { KeptIf result self.old self.new }
    {
        match view(part) {
            ComView::Null => Ok(0),
            ComView::Assign { name, value } => self.assign(name, value, part.place()),
            ComView::If { test, yes, no } => {
                let t = self.expression(test)?;
                let n = self.command(yes)?;
                let m = self.command(no)?;
                agree(t, Scalar::Truth, part.place())?;
                Ok(n.max(m))
            }
            ComView::While { test, body } => {
                let t = self.expression(test)?;
                let n = self.command(body)?;
                agree(t, Scalar::Truth, part.place())?;
                Ok(n)
            }
            ComView::Call { name, args } => self.call(name, args, part.place()),
            ComView::Block {
                variables,
                procs,
                coms,
            } => { self.block(variables, procs, coms) }
        }
    }

    // The largest need of the commands.
    #[cycle(commands)]
    fn commands(&mut self, part: Part<'_>) -> Result<usize, Fault>
        requires some { SomeComs self.old part }
        ensures says { ComsSays self.old part.entry result }
        ensures kept { KeptIf result self.old self.new }
    {
        let Some((front, last)) = part.split_last() else {
            return Ok(0);
        };
        let n = self.commands(front)?;
        let m = self.command(last)?;
        Ok(n.max(m))
    }

    // One procedure: its body sees from the position `inner`, and its own formals.
    #[cycle(commands)]
    fn one_procedure(&mut self, part: Part<'_>, inner: usize) -> Result<Routine, Fault>
        requires some { SomeProc self.old part inner }
        ensures says { ProcSays self.old part.entry inner result }
        ensures kept { KeptIf result self.old self.new }
    {
        let (formals, body) = part.procedure_parts();
        check_names(formals)?;
        let mark = self.scope.mark();
        self.see_from(inner);
        self.enter_all(formals.nodes);
        let need = self.command(body)?;
        self.back_to(mark);
        Ok(Routine {
            first: formals.first,
            count: formals.nodes.len(),
            need,
        })
    }

    // Brings the procedures into sight, each after it was checked.
    #[cycle(commands)]
    fn procedures(&mut self, part: Part<'_>, inner: usize) -> Result<(), Fault>
        requires some { SomeProcs self.old part inner }
        ensures says { ProcsSays self.old part.entry inner result self.new }
        ensures grown { (ps : Procs) → IsProcs part.entry ps → GrownIf result self.old self.new (how_many_procs ps) }
    {
        let Some((front, last)) = part.split_last() else {
            return Ok(());
        };
        self.procedures(front, inner)?;
        let made = self.one_procedure(last, inner)?;
        let name = last.last().name;
        if named(front, name) {
            return Err(Fault::new(NamesCause::Repeated.into(), last.place()));
        }
        self.enter(name, Entry::Procedure(made));
        Ok(())
    }

    // The procedures see the variables, and not one another's names; the commands see all.
    #[cycle(commands)]
    fn block(
        &mut self,
        variables: Part<'_>,
        procs: Part<'_>,
        coms: Part<'_>,
    ) -> Result<usize, Fault>
        requires some { SomeBlock self.old variables procs coms }
        ensures says { BlockSays self.old variables.entry procs.entry coms.entry result }
        ensures kept { KeptIf result self.old self.new }
    {
        check_names(variables)?;
        let mark = self.scope.mark();
        self.hide(procs);
        self.enter_all(variables.nodes);
        let inner = self.scope.position();
        self.procedures(procs, inner)?;
        let need = self.commands(coms)?;
        self.back_to(mark);
        Ok(variables.nodes.len() + need)
    }
}

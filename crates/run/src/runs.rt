// A whole run of an accepted rule, on any store.
ghost use Rattle.std.specs.Prelude.{◌≡◌, ℕ, ◌+◌, ◌≤◌, [], ◌∷◌, length, Some, Ok, Err, ◌≢◌};
ghost use Rattle.language.specs.declared.values.Stop.TheVariants.{Stuck};
ghost use Rattle.language.specs.Memory.{live};
ghost use Rattle.language.specs.Outcome.{told};
ghost use Rattle.language.specs.Runs.{release, release_all, runs};
ghost use Rattle.language.specs.Table.{build};
ghost use Rattle.language.specs.Tree.{Com};
ghost use Rattle.run.specs.Machine.{outcome};
ghost use Rattle.run.specs.Running.{Fresh};
ghost use Rattle.run.specs.Parts.{units_left, number_left, whole_command, whole_result};
ghost use Rattle.run.specs.Answers.{questions, run_answer, Runnable, RunGives, NoStuckRun};

use crate::bindings::Binding;
use crate::levels::Level;
use crate::operators::whole_of;
use crate::runner::Runner;
use crate::tables::Table;
use language::{Fault, Graded, IN, Number, OUT, PieceCause, RunCause, Stop, TableCause, Value};
use rule::Rule;
use scope::Record;
use store::Store;
use table::measure;

fn release_both<S: Store>(input: u16, output: u16, store: &mut S) -> Result<(), Stop>
    ensures limit_kept { S.Store.bound store.new ≡ S.Store.bound store.old }
    ensures released { (u : ℕ) → release_all (input ∷ output ∷ []) (S.Store.at store.old) u (outcome result (S.Store.at store.new) u) }
{
    store.release(input)?;
    store.release(output)?;
    Ok(())
}

impl Runner<'_, '_, '_> {
    // Performs the rule's command, with `in` and `out` at these locations; gives the units left. `Fresh` is asked by each of
    // the three, as it is over with the first step. The two locations are taken one after the other, so they are no struct.
    fn perform_rule<S: Store>(
        &mut self,
        store: &mut S,
        input: u16,
        output: u16,
    ) -> Result<u32, Stop>
        requires fresh { Fresh self.old }
        ensures limit_kept { S.Store.bound store.new ≡ S.Store.bound store.old }
        ensures performed { (c : Com) → build self.old.table.nodes.now ≡ Ok c → whole_command (S.Store.bound store.old) input output c (S.Store.at store.old) self.old.units (units_left result (S.Store.at store.new)) }
    {
        self.scope.enter(IN, Binding::Place(input)).unwrap();
        self.scope.enter(OUT, Binding::Place(output)).unwrap();
        self.perform(store)
    }

    // The same, and then what `out` holds, beside the units left.
    fn result_of<S: Store>(
        &mut self,
        store: &mut S,
        input: u16,
        output: u16,
    ) -> Result<(Number, u32), Stop>
        requires fresh { Fresh self.old }
        ensures limit_kept { S.Store.bound store.new ≡ S.Store.bound store.old }
        ensures result { (c : Com) → build self.old.table.nodes.now ≡ Ok c → whole_result (S.Store.bound store.old) input output c (S.Store.at store.old) self.old.units (number_left result (S.Store.at store.new)) }
    {
        let left = self.perform_rule(store, input, output)?;
        let value = store.read(output)?;
        Ok((whole_of(value)?, left))
    }

    // A whole run: takes a location for each of the two names, and releases both at every end.
    fn run_table<S: Store>(&mut self, store: &mut S, step: Number) -> Result<(Number, u32), Stop>
        requires fresh { Fresh self.old }
        ensures limit_kept { S.Store.bound store.new ≡ S.Store.bound store.old }
        ensures ran { (c : Com) → build self.old.table.nodes.now ≡ Ok c → runs (S.Store.bound store.old) c step (S.Store.at store.old) self.old.units (number_left result (S.Store.at store.new)) }
    {
        let input = store.take(Value::Whole(step))?;
        let output = store.take(Value::Whole(0))?;
        let result = self.result_of(store, input, output);
        release_both(input, output, store)?;
        result
    }
}

// The refusal that tells of a stop. No `TryFrom`: it would need an error for the stop that is proved not to come.
fn refusal(stop: Stop) -> Fault
    requires not_stuck { stop ≢ Stuck }
    ensures told { told (Err stop) ≡ Some (Err result) }
{
    match stop {
        Stop::Sum(at) => Fault::new(RunCause::Sum.into(), at),
        Stop::Unit(at) => Fault::new(RunCause::Unit.into(), at),
        Stop::Stuck => unreachable(),
    }
}

// The lists that a run works in: the lengths of the table's stretches, the names in sight, and the stack.
#[derive(Drop)]
pub struct RunLists<'l, 'n, 'v> {
    pub lens: &'l mut [usize],
    pub names: &'n mut [Record<Binding>],
    pub levels: &'v mut [Level],
}

// Asks whether each of the three lists is long enough, and then whether the store has room for the rule's need. Check asks
// the same of lists of other types.
fn ask<S: Store>(rule: &Rule<'_>, store: &S, lists: &RunLists<'_, '_, '_>) -> Result<(), Fault>
    ensures answer { result ≡ questions (length rule.now.nodes.now) rule.now.need (length lists.now.lens.now) (length lists.now.names.now) (length lists.now.levels.now) (S.Store.bound store.now) (live (S.Store.at store.now)) }
{
    let least = rule.nodes().len() + 2;
    if lists.lens.len() < least || lists.names.len() < least || lists.levels.len() < least {
        return Err(Fault::new(TableCause::WorkLists.into(), 0));
    }
    let room = store.limit() - store.count();
    if (room as usize) < rule.need() {
        return Err(Fault::new(PieceCause::Room.into(), 0));
    }
    Ok(())
}

// Runs the rule at the step on the store, with the three lists to work in: the shift and the units taken, or the
// refusal. The store then means what it did before.
pub fn run<S: Store>(
    rule: &Rule<'_>,
    step: Number,
    allowance: u32,
    store: &mut S,
    lists: RunLists<'_, '_, '_>,
) -> Result<Graded, Fault>
    ensures answers { Some result ≡ run_answer rule.now.nodes.now rule.now.need step allowance (length lists.entry.lens.now) (length lists.entry.names.now) (length lists.entry.levels.now) (S.Store.bound store.old) (live (S.Store.at store.old)) }
    ensures own_run { (c : Com) → Runnable rule.now.nodes.now rule.now.need (length lists.entry.lens.now) (length lists.entry.names.now) (length lists.entry.levels.now) (S.Store.bound store.old) (live (S.Store.at store.old)) c → RunGives (S.Store.bound store.old) c step (S.Store.at store.old) allowance result }
    ensures never_stuck { (c : Com) → Runnable rule.now.nodes.now rule.now.need (length lists.entry.lens.now) (length lists.entry.names.now) (length lists.entry.levels.now) (S.Store.bound store.old) (live (S.Store.at store.old)) c → NoStuckRun (S.Store.bound store.old) c step (S.Store.at store.old) allowance }
    ensures store_kept { S.Store.at store.new ≡ S.Store.at store.old }
    ensures limit_kept { S.Store.bound store.new ≡ S.Store.bound store.old }
{
    ask(rule, store, &lists)?;
    let RunLists {
        lens,
        names,
        levels,
    } = lists;
    let nodes = rule.nodes();
    measure(nodes, lens)?;
    let table = Table {
        nodes,
        lens: &lens[..nodes.len()],
    };
    let ran = Runner::new(table, names, levels, allowance).run_table(store, step);
    // no `map_err`: that the stop is one that a refusal tells of is known in this arm alone
    match ran {
        Ok((shift, left)) => Ok(Graded {
            shift,
            units: allowance - left,
        }),
        Err(stop) => Err(refusal(stop)),
    }
}

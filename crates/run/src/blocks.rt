// Blocks and calls: their variables, procedures and commands. Each function takes the parts of a runner that it
// uses; as methods of the runner they were no plainer, since each would have to say that the other parts stay. Declarations and
// arguments are given by number, since what is said of them is said of the table's nodes; the room for what is to be entered
// is asked by each, since it does not hold at all times.
ghost use Rattle.std.specs.Prelude.{◌≡◌, ℕ, ◌+◌, ◌-◌, ◌<◌, ◌≤◌, length};
ghost use Rattle.language.specs.Runs.{release_all};
ghost use Rattle.run.specs.Shapes.{ComsBefore, ProcsBefore, back};
ghost use Rattle.run.specs.Names.{SameBelow, VariablesAt, locations_from};
ghost use Rattle.run.specs.Levels.{frames};
ghost use Rattle.run.specs.Machine.{outcome, Opened, BoundTo, pushed, Listed, head, ProceduresIn};

use crate::bindings::{Binding, locate, location_in};
use crate::levels::{Frame, Stack};
use crate::tables::Table;
use language::Stop;
use scope::Scope;
use store::Store;

// Takes a location for each of the declarations, and brings them into sight.
pub(crate) fn open_block<S: Store>(
    table: Table<'_>,
    from: usize,
    count: usize,
    scope: &mut Scope<'_, Binding>,
    store: &mut S,
) -> Result<(), Stop>
    requires nodes { from + count ≤ length table.nodes.now }
    requires room { scope.old.top + count ≤ length scope.old.records.now }
    ensures limit_kept { S.Store.bound store.new ≡ S.Store.bound store.old }
    ensures older_kept { SameBelow scope.old.records.now scope.new.records.now scope.old.top }
    ensures length_kept { length scope.new.records.now ≡ length scope.old.records.now }
    ensures top_grown { scope.old.top ≤ scope.new.top }
    ensures opened { Opened (S.Store.bound store.old) table.entry.nodes.now from count scope.old (S.Store.at store.old) scope.new (S.Store.at store.new) result }
{
    for node in &table.nodes[from..from + count] {
        let first = node.declared_type().first_value();
        let location = store.take(first)?;
        scope.enter(node.name, Binding::Place(location)).unwrap();
    }
    Ok(())
}

// Releases the locations of the records from number `from` to `end`. By number, since the scope shows its records
// only one by one; an iterator is no plainer here.
pub(crate) fn close_block<S: Store>(
    scope: &Scope<'_, Binding>,
    from: usize,
    end: usize,
    store: &mut S,
) -> Result<(), Stop>
    requires order { from ≤ end }
    requires within { end ≤ scope.now.top }
    requires variables { VariablesAt scope.now.records.now from (end - from) }
    ensures limit_kept { S.Store.bound store.new ≡ S.Store.bound store.old }
    ensures closed { (u : ℕ) → release_all (locations_from scope.now.records.now from (end - from)) (S.Store.at store.old) u (outcome result (S.Store.at store.new) u) }
{
    for k in from..end {
        let location = location_in(scope.entry_at(k + 1));
        store.release(location)?;
    }
    Ok(())
}

impl Stack<'_> {
    // Puts a frame like `frame` for each of the `count` commands that end right before `end`, the first one on top.
    // Gives where they begin.
    pub(crate) fn push_commands(
        &mut self,
        table: Table<'_>,
        mut end: usize,
        count: usize,
        frame: Frame,
    ) -> usize
        requires room { self.old.depth + count ≤ length self.old.levels.now }
        requires inside { end ≤ length table.nodes.now }
        requires commands { ComsBefore table.nodes.now table.lens.now 0 end count }
        ensures depth { self.new.depth ≡ self.old.depth + count }
        ensures end { result ≡ back table.entry.lens.now end count }
        ensures frames { frames self.new.levels.now self.new.depth ≡ pushed table.entry.lens.now frame.state frame.position frame.top end count (frames self.old.levels.now self.old.depth) }
        ensures length_kept { length self.new.levels.now ≡ length self.old.levels.now }
    {
        for _ in 0..count {
            let at = end - 1;
            self.push(Frame { at, ..frame });
            end = table.start(at);
        }
        end
    }

    // Notes the `count` procedures that end right before `end` on the levels above the frames, the first one first.
    // By number: over `iter_mut().rev()` it was tried, and the proof of what the levels hold then did not close.
    fn list_procedures(&mut self, table: Table<'_>, mut end: usize, count: usize)
        requires room { self.old.depth + count ≤ length self.old.levels.now }
        requires inside { end ≤ length table.nodes.now }
        requires procedures { ProcsBefore table.nodes.now table.lens.now end count }
        ensures listed { Listed table.entry.lens.now self.new.levels.now self.old.depth end count }
        ensures depth_kept { self.new.depth ≡ self.old.depth }
        ensures frames_kept { frames self.new.levels.now self.old.depth ≡ frames self.old.levels.now self.old.depth }
        ensures length_kept { length self.new.levels.now ≡ length self.old.levels.now }
    {
        for left in (0..count).rev() {
            let at = end - 1;
            self.levels[self.depth + left].frame.at = at;
            end = table.start(at);
        }
    }
}

// Brings the `count` procedures that are noted above the frames into sight: each sees from where the first is
// entered.
fn enter_procedures(
    table: Table<'_>,
    stack: &Stack<'_>,
    count: usize,
    scope: &mut Scope<'_, Binding>,
)
    requires within { stack.now.depth + count ≤ length stack.now.levels.now }
    requires room { scope.old.top + count ≤ length scope.old.records.now }
    requires listed { (e : ℕ) × (e ≤ length table.nodes.now) × Listed table.lens.now stack.now.levels.now stack.now.depth e count × ProcsBefore table.nodes.now table.lens.now e count }
    ensures older_kept { SameBelow scope.old.records.now scope.new.records.now scope.old.top }
    ensures length_kept { length scope.new.records.now ≡ length scope.old.records.now }
    ensures top_after { scope.new.top ≡ scope.old.top + count }
    ensures head_after { scope.new.head ≡ head scope.old.top scope.old.head count }
    ensures declared { (e : ℕ) → Listed table.entry.lens.now stack.now.levels.now stack.now.depth e count → ProcsBefore table.entry.nodes.now table.entry.lens.now e count → ProceduresIn table.entry.nodes.now table.entry.lens.now scope.new.records.now scope.old.top scope.old.head e count }
{
    let seen = scope.position();
    for level in &stack.levels[stack.depth..stack.depth + count] {
        let at = level.frame.at;
        scope
            .enter(table.node(at).name, Binding::Procedure(at, seen))
            .unwrap();
    }
}

// How many records are in use once `count` procedures are brought into sight, and the position that is then seen from.
// The scope is lent by `&mut`, though it is not written: of a list that is lent by `&` the proof knows no bound of its
// length, and the sum might not fit.
pub(crate) fn after_procedures(scope: &mut Scope<'_, Binding>, count: usize) -> (usize, usize)
    requires room { scope.old.top + count ≤ length scope.old.records.now }
    ensures kept { scope.new ≡ scope.old }
    ensures top { result.0 ≡ scope.old.top + count }
    ensures position { result.1 ≡ head scope.old.top scope.old.head count }
{
    let top = scope.used() + count;
    let position = if count == 0 { scope.position() } else { top };
    (top, position)
}

// Brings the `count` procedures that end right before `end` into sight, with the levels above the frames to work in.
pub(crate) fn declare_procedures(
    table: Table<'_>,
    end: usize,
    count: usize,
    scope: &mut Scope<'_, Binding>,
    stack: &mut Stack<'_>,
)
    requires room { stack.old.depth + count ≤ length stack.old.levels.now }
    requires records { scope.old.top + count ≤ length scope.old.records.now }
    requires inside { end ≤ length table.nodes.now }
    requires procedures { ProcsBefore table.nodes.now table.lens.now end count }
    ensures depth_kept { stack.new.depth ≡ stack.old.depth }
    ensures frames_kept { frames stack.new.levels.now stack.old.depth ≡ frames stack.old.levels.now stack.old.depth }
    ensures levels_kept { length stack.new.levels.now ≡ length stack.old.levels.now }
    ensures older_kept { SameBelow scope.old.records.now scope.new.records.now scope.old.top }
    ensures length_kept { length scope.new.records.now ≡ length scope.old.records.now }
    ensures top_after { scope.new.top ≡ scope.old.top + count }
    ensures head_after { scope.new.head ≡ head scope.old.top scope.old.head count }
    ensures declared { ProceduresIn table.entry.nodes.now table.entry.lens.now scope.new.records.now scope.old.top scope.old.head end count }
{
    stack.list_procedures(table, end, count);
    enter_procedures(table, stack, count, scope);
}

// Brings the formals that stand from `formals` on into sight where `seen` is seen, each as the location of its
// argument; the arguments stand from `arguments` on.
pub(crate) fn bind_arguments(
    table: Table<'_>,
    arguments: usize,
    formals: usize,
    count: usize,
    seen: usize,
    scope: &mut Scope<'_, Binding>,
) -> Result<(), Stop>
    requires arguments { arguments + count ≤ length table.nodes.now }
    requires formals { formals + count ≤ length table.nodes.now }
    requires room { scope.old.top + count ≤ length scope.old.records.now }
    requires seen { seen ≤ scope.old.top }
    ensures older_kept { SameBelow scope.old.records.now scope.new.records.now scope.old.top }
    ensures length_kept { length scope.new.records.now ≡ length scope.old.records.now }
    ensures top_grown { scope.old.top ≤ scope.new.top }
    ensures bound { BoundTo table.entry.nodes.now arguments formals count scope.old seen scope.new result }
{
    let caller = scope.position();
    let mut inner = seen;
    let arguments = &table.nodes[arguments..arguments + count];
    let formals = &table.nodes[formals..formals + count];
    for (argument, formal) in arguments.iter().zip(formals) {
        scope.see_from(caller).unwrap();
        let location = locate(scope, argument.name)?;
        scope.see_from(inner).unwrap();
        scope.enter(formal.name, Binding::Place(location)).unwrap();
        inner = scope.position();
    }
    scope.see_from(inner).unwrap();
    Ok(())
}

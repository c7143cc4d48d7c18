// A run under way.
ghost use Rattle.std.specs.Prelude.{◌≡◌};

use crate::bindings::Binding;
use crate::levels::{Level, Stack};
use crate::tables::Table;
use scope::{Record, Scope};

// The rule's table, the names that are in sight, the stack, and the units that are left. That every frame has room
// for what it can still do is a clause of `step` and `unwind`, since it does not hold between the parts of a step.
#[derive(Drop)]
pub struct Runner<'t, 'r, 'l> {
    pub(crate) table: Table<'t>,
    pub(crate) scope: Scope<'r, Binding>,
    pub(crate) stack: Stack<'l>,
    pub(crate) units: u32,
}

impl<'t, 'r, 'l> Runner<'t, 'r, 'l> {
    // Nothing is in sight, and there are no frames.
    pub(crate) fn new(
        table: Table<'t>,
        names: &'r mut [Record<Binding>],
        levels: &'l mut [Level],
        units: u32,
    ) -> Runner<'t, 'r, 'l>
        ensures table { result.table ≡ table.entry }
        ensures names { result.scope.records.now ≡ names.old }
        ensures nothing_in_sight { result.scope.top ≡ 0 }
        ensures seen { result.scope.head ≡ 0 }
        ensures levels { result.stack.levels.now ≡ levels.old }
        ensures no_frames { result.stack.depth ≡ 0 }
        ensures units { result.units ≡ units }
    {
        Runner {
            table,
            scope: Scope::new(names),
            stack: Stack {
                levels,
                depth: 0,
                height: 0,
            },
            units,
        }
    }
}

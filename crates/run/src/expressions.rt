// Expressions: their nodes are worked out in order, on the values above the frames.
ghost use Rattle.std.specs.Prelude.{◌≡◌, ◌+◌, ◌-◌, ◌<◌, ◌≤◌, [], length};
ghost use Rattle.table.specs.Stretches.{node_at};
ghost use Rattle.table.specs.Walk.{start_at};
ghost use Rattle.run.specs.Shapes.{kind_at};
ghost use Rattle.run.specs.Names.{sees};
ghost use Rattle.run.specs.Levels.{values};
ghost use Rattle.run.specs.Evaluation.{fetched, node_done, Operands, NodeValued, nodes_done, only};
ghost use Rattle.run.specs.Running.{ChangesOnlyValues};

use crate::bindings::locate;
use crate::operators::operate;
use crate::runner::Runner;
use language::{Kind, Name, Stop, Value};
use store::Store;

impl Runner<'_, '_, '_> {
    // What the variable of this name holds.
    fn fetch<S: Store>(&self, store: &S, name: Name) -> Result<Value, Stop>
        ensures fetched { result ≡ fetched (S.Store.at store.now) (sees self.now.scope.records.now self.now.scope.head name) }
    {
        let location = locate(&self.scope, name)?;
        Ok(store.read(location)?)
    }

    // The two newest values, the older one first.
    fn operands(&mut self) -> Result<(Value, Value), Stop>
        requires within { self.old.stack.depth + self.old.stack.height ≤ length self.old.stack.levels.now }
        ensures operands { Operands self.old.stack.levels.now self.old.stack.depth self.old.stack.height self.new.stack.height result }
        ensures kept { ChangesOnlyValues self.old self.new }
        ensures levels_kept { self.new.stack.levels.now ≡ self.old.stack.levels.now }
    {
        let right = self.stack.pop_value().ok_or(Stop::Stuck)?;
        let left = self.stack.pop_value().ok_or(Stop::Stuck)?;
        Ok((left, right))
    }

    // The value of one node, from the two newest where it is an operator, which takes these off.
    fn node_value<S: Store>(&mut self, store: &S, at: usize) -> Result<Value, Stop>
        requires inside { at < length self.old.table.nodes.now }
        requires within { self.old.stack.depth + self.old.stack.height ≤ length self.old.stack.levels.now }
        ensures done { NodeValued (node_done (sees self.old.scope.records.now self.old.scope.head) (S.Store.at store.now) (kind_at self.old.table.nodes.now at) at (node_at self.old.table.nodes.now at) (values self.old.stack.levels.now self.old.stack.depth self.old.stack.height)) self.old.stack.levels.now self.old.stack.depth self.old.stack.height self.new.stack.height result }
        ensures kept { ChangesOnlyValues self.old self.new }
        ensures levels_kept { self.new.stack.levels.now ≡ self.old.stack.levels.now }
    {
        let node = self.table.node(at);
        let kind = self.table.kind(at).ok_or(Stop::Stuck)?;
        match kind {
            Kind::Truth => Ok(Value::Truth(node.value != 0)),
            Kind::Whole => Ok(Value::Whole(node.value)),
            Kind::Read => self.fetch(store, node.name),
            operator => {
                let (left, right) = self.operands()?;
                operate(operator, at, left, right)
            }
        }
    }

    // The value of the expression that the node ends.
    pub(crate) fn evaluate<S: Store>(&mut self, store: &S, at: usize) -> Result<Value, Stop>
        requires inside { at < length self.old.table.nodes.now }
        requires begins { start_at self.old.table.lens.now at ≤ at }
        requires room { self.old.stack.depth + (at + 1 - start_at self.old.table.lens.now at) ≤ length self.old.stack.levels.now }
        ensures value { result ≡ only (nodes_done self.old.table.nodes.now (sees self.old.scope.records.now self.old.scope.head) (S.Store.at store.now) (start_at self.old.table.lens.now at) (at + 1 - start_at self.old.table.lens.now at) []) }
        ensures kept { ChangesOnlyValues self.old self.new }
    {
        self.stack.height = 0;
        for j in self.table.start(at)..self.table.end(at) {
            let value = self.node_value(store, j)?;
            self.stack.push_value(value);
        }
        match self.stack.pop_value() {
            Some(value) if self.stack.height == 0 => Ok(value),
            _ => Err(Stop::Stuck),
        }
    }
}

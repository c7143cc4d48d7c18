// The runner: one step at a time of the newest frame. What the steps ask (`Ready`, the frame's state and kind, the names'
// procedures) holds of the frame that was just taken off, and not of a runner at all times, so it is asked by each. The store
// is no part of a runner, so it goes beside the frame or the node.
ghost use Rattle.std.specs.Prelude.{◌≡◌, ℕ, ◌+◌, ◌-◌, ◌<◌, ◌≤◌, [], ◌∷◌, length, Some};
ghost use Rattle.language.specs.declared.tables.Kind.TheVariants.{Assign, If, While, Call, Block};
ghost use Rattle.language.specs.Runs.{release_all};
ghost use Rattle.table.specs.Walk.{start_at};
ghost use Rattle.run.specs.declared.levels.State.TheVariants.{Run};
ghost use Rattle.run.specs.Shapes.{kind_at, ExprKind};
ghost use Rattle.run.specs.Names.{locations_from, weights};
ghost use Rattle.run.specs.Running.{ChangesOnlyValues, KeepsTable, frames_of, deepest_of};
ghost use Rattle.run.specs.Machine.{outcome, Tested, Assigned, ProceduresOk, EndOk, Good, Ready, Steps, Unwound, Ran, block_locations};

use crate::bindings::{find_procedure, locate};
use crate::blocks::{
    after_procedures, bind_arguments, close_block, declare_procedures, open_block,
};
use crate::levels::{Frame, State, tick};
use crate::operators::truth_of;
use crate::runner::Runner;
use language::{Kind, Name, Stop};
use store::Store;

impl Runner<'_, '_, '_> {
    // Whether the test that the node ends is true.
    fn holds<S: Store>(&mut self, store: &S, at: usize) -> Result<bool, Stop>
        requires inside { at < length self.old.table.nodes.now }
        requires expression { ExprKind (kind_at self.old.table.nodes.now at) }
        requires procedures { ProceduresOk self.old.table.nodes.now self.old.table.lens.now self.old.scope.records.now self.old.scope.top }
        requires room { self.old.stack.depth + (at + 1 - start_at self.old.table.lens.now at) ≤ deepest_of self.old }
        ensures tested { Tested self.old.table.nodes.now self.old.table.lens.now self.old.scope.records.now self.old.scope.head (S.Store.at store.now) at result }
        ensures kept { ChangesOnlyValues self.old self.new }
    {
        let value = self.evaluate(store, at)?;
        truth_of(value)
    }

    // Gives the variable of this name the value of the expression that the node ends.
    fn assign<S: Store>(&mut self, store: &mut S, at: usize, name: Name) -> Result<(), Stop>
        requires inside { at < length self.old.table.nodes.now }
        requires expression { ExprKind (kind_at self.old.table.nodes.now at) }
        requires procedures { ProceduresOk self.old.table.nodes.now self.old.table.lens.now self.old.scope.records.now self.old.scope.top }
        requires room { self.old.stack.depth + (at + 1 - start_at self.old.table.lens.now at) ≤ deepest_of self.old }
        ensures limit_kept { S.Store.bound store.new ≡ S.Store.bound store.old }
        ensures assigned { Assigned self.old.table.nodes.now self.old.table.lens.now self.old.scope.records.now self.old.scope.head (S.Store.at store.old) at name (S.Store.at store.new) result }
        ensures kept { ChangesOnlyValues self.old self.new }
    {
        let value = self.evaluate(store, at)?;
        let location = locate(&self.scope, name)?;
        Ok(store.write(location, value)?)
    }

    fn begin_assign<S: Store>(&mut self, store: &mut S, frame: Frame) -> Result<(), Stop>
        requires ready { Ready self.old frame }
        requires runs { frame.state ≡ Run }
        requires kind { kind_at self.old.table.nodes.now frame.at ≡ Some Assign }
        ensures limit_kept { S.Store.bound store.new ≡ S.Store.bound store.old }
        ensures stepped { Steps (S.Store.bound store.old) self.old frame (S.Store.at store.old) self.new (S.Store.at store.new) result }
        ensures kept { KeepsTable self.old self.new }
    {
        self.units = tick(frame.at, self.units)?;
        let name = self.table.node(frame.at).name;
        self.assign(store, frame.at - 1, name)
    }

    // One of the two commands takes the conditional's place.
    fn begin_if<S: Store>(&mut self, store: &S, frame: Frame) -> Result<(), Stop>
        requires ready { Ready self.old frame }
        requires runs { frame.state ≡ Run }
        requires kind { kind_at self.old.table.nodes.now frame.at ≡ Some If }
        ensures stepped { Steps (S.Store.bound store.now) self.old frame (S.Store.at store.now) self.new (S.Store.at store.now) result }
        ensures kept { KeepsTable self.old self.new }
    {
        self.units = tick(frame.at, self.units)?;
        let other = frame.at - 1;
        let then = self.table.start(other) - 1;
        let test = self.table.start(then) - 1;
        let at = if self.holds(store, test)? {
            then
        } else {
            other
        };
        self.stack.push(Frame { at, ..frame });
        Ok(())
    }

    // The body is put on top of the loop, which stays under it and then begins again.
    fn begin_while<S: Store>(&mut self, store: &S, frame: Frame) -> Result<(), Stop>
        requires ready { Ready self.old frame }
        requires runs { frame.state ≡ Run }
        requires kind { kind_at self.old.table.nodes.now frame.at ≡ Some While }
        ensures stepped { Steps (S.Store.bound store.now) self.old frame (S.Store.at store.now) self.new (S.Store.at store.now) result }
        ensures kept { KeepsTable self.old self.new }
    {
        self.units = tick(frame.at, self.units)?;
        let at = frame.at - 1;
        let test = self.table.start(at) - 1;
        if self.holds(store, test)? {
            self.stack.push(frame);
            self.stack.push(Frame { at, ..frame });
        }
        Ok(())
    }

    // The body of the procedure takes the call's place, with each formal another name of its argument.
    fn begin_call<S: Store>(&mut self, store: &S, frame: Frame) -> Result<(), Stop>
        requires ready { Ready self.old frame }
        requires runs { frame.state ≡ Run }
        requires kind { kind_at self.old.table.nodes.now frame.at ≡ Some Call }
        ensures stepped { Steps (S.Store.bound store.now) self.old frame (S.Store.at store.now) self.new (S.Store.at store.now) result }
        ensures kept { KeepsTable self.old self.new }
    {
        self.units = tick(frame.at, self.units)?;
        let table = self.table;
        let node = table.node(frame.at);
        let (at, seen) = find_procedure(&self.scope, node.name)?;
        if table.node(at).a != node.a {
            return Err(Stop::Stuck);
        }
        let count = node.a as usize;
        let arguments = table.start(frame.at);
        bind_arguments(
            table,
            arguments,
            table.start(at),
            count,
            seen,
            &mut self.scope,
        )?;
        self.stack.push(Frame {
            at: at - 1,
            top: self.scope.used(),
            position: self.scope.position(),
            ..frame
        });
        Ok(())
    }

    // The block's commands are put on top of a frame that ends the block.
    fn begin_block<S: Store>(&mut self, store: &mut S, frame: Frame) -> Result<(), Stop>
        requires ready { Ready self.old frame }
        requires runs { frame.state ≡ Run }
        requires kind { kind_at self.old.table.nodes.now frame.at ≡ Some Block }
        ensures limit_kept { S.Store.bound store.new ≡ S.Store.bound store.old }
        ensures stepped { Steps (S.Store.bound store.old) self.old frame (S.Store.at store.old) self.new (S.Store.at store.new) result }
        ensures kept { KeepsTable self.old self.new }
    {
        self.units = tick(frame.at, self.units)?;
        let table = self.table;
        let node = table.node(frame.at);
        let from = table.start(frame.at);
        open_block(table, from, node.a as usize, &mut self.scope, store)?;
        // the procedures come into sight last: where they end is known when the commands after them were gone over
        let procedures = node.b as usize;
        let (top, position) = after_procedures(&mut self.scope, procedures);
        let inner = Frame {
            top,
            position,
            ..frame
        };
        self.stack.push(Frame {
            state: State::End,
            ..inner
        });
        let end = self
            .stack
            .push_commands(table, frame.at, node.c as usize, inner);
        declare_procedures(table, end, procedures, &mut self.scope, &mut self.stack);
        Ok(())
    }

    // Releases the locations of the block that the frame is to end.
    fn release_block<S: Store>(&self, store: &mut S, frame: Frame) -> Result<(), Stop>
        requires inside { frame.at < length self.now.table.nodes.now }
        requires ends { EndOk self.now.table.nodes.now self.now.scope.records.now frame }
        requires there { frame.top ≤ self.now.scope.top }
        ensures limit_kept { S.Store.bound store.new ≡ S.Store.bound store.old }
        ensures released { (u : ℕ) → release_all (block_locations self.now.table.nodes.now self.now.scope.records.now frame) (S.Store.at store.old) u (outcome result (S.Store.at store.new) u) }
    {
        let node = self.table.node(frame.at);
        let end = frame.top - node.b as usize;
        close_block(&self.scope, end - node.a as usize, end, store)
    }

    // One step of the frame, which was the newest. It is the project's rule that it matches on the state and the kind together.
    fn step<S: Store>(&mut self, store: &mut S, frame: Frame) -> Result<(), Stop>
        requires within { self.old.stack.depth < deepest_of self.old }
        requires good { Good self.old.table.nodes.now self.old.table.lens.now self.old.scope.records.now (deepest_of self.old) self.old.scope.top (frame ∷ frames_of self.old) }
        ensures limit_kept { S.Store.bound store.new ≡ S.Store.bound store.old }
        ensures stepped { Steps (S.Store.bound store.old) self.old frame (S.Store.at store.old) self.new (S.Store.at store.new) result }
        ensures kept { KeepsTable self.old self.new }
    {
        self.scope.restore(frame.top, frame.position).unwrap();
        let kind = self.table.kind(frame.at).unwrap();
        match (frame.state, kind) {
            (State::End, _) => self.release_block(store, frame),
            (State::Run, Kind::Null) => {
                self.units = tick(frame.at, self.units)?;
                Ok(())
            }
            (State::Run, Kind::Assign) => self.begin_assign(store, frame),
            (State::Run, Kind::If) => self.begin_if(store, frame),
            (State::Run, Kind::While) => self.begin_while(store, frame),
            (State::Run, Kind::Call) => self.begin_call(store, frame),
            (State::Run, Kind::Block) => self.begin_block(store, frame),
            _ => unreachable(),
        }
    }

    // Leaves all frames of a run that is stopped: every block's locations are released. Gives what the run is
    // stopped by.
    fn unwind<S: Store>(&mut self, store: &mut S, mut stop: Stop) -> Stop
        requires good { Good self.old.table.nodes.now self.old.table.lens.now self.old.scope.records.now (deepest_of self.old) self.old.scope.top (frames_of self.old) }
        ensures limit_kept { S.Store.bound store.new ≡ S.Store.bound store.old }
        ensures unwound { Unwound (S.Store.bound store.old) self.old.table.nodes.now self.old.table.lens.now (deepest_of self.old) self.old.scope.records.now self.old.scope.top (frames_of self.old) stop (S.Store.at store.old) (S.Store.at store.new) result }
    {
        while let Some(frame) = self.stack.pop() {
            if let State::End = frame.state {
                if let Err(other) = self.release_block(store, frame) {
                    stop = other;
                }
            }
        }
        stop
    }

    // Runs the command of the whole table with the names that are in sight; gives the units left.
    pub(crate) fn perform<S: Store>(&mut self, store: &mut S) -> Result<u32, Stop>
        requires no_frames { self.old.stack.depth ≡ 0 }
        requires levels { length self.old.table.nodes.now + weights self.old.table.lens.now self.old.scope.records.now self.old.scope.head ≤ deepest_of self.old }
        requires records { self.old.scope.top + length self.old.table.nodes.now + weights self.old.table.lens.now self.old.scope.records.now self.old.scope.head ≤ length self.old.scope.records.now }
        requires procedures { ProceduresOk self.old.table.nodes.now self.old.table.lens.now self.old.scope.records.now self.old.scope.top }
        ensures limit_kept { S.Store.bound store.new ≡ S.Store.bound store.old }
        ensures ran { Ran (S.Store.bound store.old) self.old.table.nodes.now self.old.table.lens.now self.old.scope.records.now self.old.scope.head (S.Store.at store.old) self.old.units (S.Store.at store.new) result }
    {
        self.stack.push(Frame {
            state: State::Run,
            at: self.table.nodes.len() - 1,
            top: self.scope.used(),
            position: self.scope.position(),
        });
        while let Some(frame) = self.stack.pop() {
            if let Err(stop) = self.step(store, frame) {
                return Err(self.unwind(store, stop));
            }
        }
        Ok(self.units)
    }
}

// The stack of a run: frames, and above them the values of the expression that is worked out.
ghost use Rattle.std.specs.Prelude.{◌≡◌, ◌+◌, ◌<◌, ◌≤◌, ◌∷◌, length};
ghost use Rattle.run.specs.Levels.{no_level, frames, values, Popped, PoppedValue, Ticked};

use language::{Stop, Value};

// What a frame waits for: its command is to run, or its block is to end.
#[derive(Clone, Copy)]
pub enum State {
    Run,
    End,
}

// A command or a block, by its node, with the number of records in use and the position to see from: two numbers and no
// mark of the list of names, since the definitions read them.
#[derive(Clone, Copy)]
pub struct Frame {
    pub state: State,
    pub at: usize,
    pub top: usize,
    pub position: usize,
}

// One level of the stack: it serves as a frame or as a value. No enum of the two, since what lies on the stack is known
// from where it lies, and each reading would have to answer for the other case.
#[derive(Clone, Copy)]
pub struct Level {
    pub(crate) frame: Frame,
    pub(crate) value: Value,
}

impl Level {
    // Something to fill a list of levels with.
    pub fn blank() -> Level
        ensures blank { result ≡ no_level }
    {
        Level {
            frame: Frame {
                state: State::Run,
                at: 0,
                top: 0,
                position: 0,
            },
            value: Value::Truth(false),
        }
    }
}

// The levels, lent since nothing here allocates. The first `depth` of them are frames; the values of the expression that is worked out stand
// above these, `height` of them.
#[derive(Drop)]
pub struct Stack<'l> {
    pub(crate) levels: &'l mut [Level],
    pub(crate) depth: usize,
    pub(crate) height: usize,
    ghost within: { depth ≤ length levels.now },
}

impl Stack<'_> {
    pub(crate) fn push(&mut self, frame: Frame)
        requires room { self.old.depth < length self.old.levels.now }
        ensures depth { self.new.depth ≡ self.old.depth + 1 }
        ensures frames { frames self.new.levels.now self.new.depth ≡ frame ∷ frames self.old.levels.now self.old.depth }
        ensures length_kept { length self.new.levels.now ≡ length self.old.levels.now }
    {
        self.levels[self.depth].frame = frame;
        self.depth += 1;
    }

    // Takes the newest frame off.
    pub(crate) fn pop(&mut self) -> Option<Frame>
        ensures popped { Popped self.old.levels.now self.old.depth self.new.depth result }
        ensures levels_kept { self.new.levels.now ≡ self.old.levels.now }
    {
        let depth = self.depth.checked_sub(1)?;
        self.depth = depth;
        Some(self.levels[depth].frame)
    }

    pub(crate) fn push_value(&mut self, value: Value)
        requires room { self.old.depth + self.old.height < length self.old.levels.now }
        ensures height { self.new.height ≡ self.old.height + 1 }
        ensures values { values self.new.levels.now self.new.depth self.new.height ≡ value ∷ values self.old.levels.now self.old.depth self.old.height }
        ensures depth_kept { self.new.depth ≡ self.old.depth }
        ensures frames_kept { frames self.new.levels.now self.old.depth ≡ frames self.old.levels.now self.old.depth }
        ensures length_kept { length self.new.levels.now ≡ length self.old.levels.now }
    {
        self.levels[self.depth + self.height].value = value;
        self.height += 1;
    }

    // Takes the newest value off.
    pub(crate) fn pop_value(&mut self) -> Option<Value>
        requires within { self.old.depth + self.old.height ≤ length self.old.levels.now }
        ensures popped { PoppedValue self.old.levels.now self.old.depth self.old.height self.new.height result }
        ensures depth_kept { self.new.depth ≡ self.old.depth }
        ensures levels_kept { self.new.levels.now ≡ self.old.levels.now }
    {
        let height = self.height.checked_sub(1)?;
        self.height = height;
        Some(self.levels[self.depth + height].value)
    }
}

// The command at a node takes a unit.
pub(crate) fn tick(at: usize, units: u32) -> Result<u32, Stop>
    ensures ticked { Ticked at units result }
{
    units.checked_sub(1).ok_or(Stop::Unit(at))
}

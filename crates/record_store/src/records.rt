// A store over a lent slice of cells, one for each location.
ghost use Rattle.std.specs.Prelude.{◌≡◌, ◌<◌, ◌≤◌, true, drop, is_some, Some, None};
ghost use Rattle.language.specs.Memory.{live};
ghost use Rattle.store.specs.Calls.{Taken, write_answer, release_answer, after_call};
ghost use Rattle.record_store.specs.Cells.{span, meant, Formed, HeldFrom, Found, cleared, cells_after_call, cells_taken, top_taken, top_released, HighestTaken};
ghost use Rattle.record_store.specs.Bounds.{meant_low, live_span};

use crate::cells::Cell;
use language::Value;
use store::{Dead, Full, Store, WriteRefusal};

// The first 65,536 of the cells count, one for each location; the rest is never written. A take hands out the
// highest free cell, so locations that are taken and released like a stack are found at once.
#[derive(Drop)]
pub struct RecordStore<'a> {
    cells: &'a mut [Cell],
    count: u32,
    // every counted cell from here on is held, so a free one is looked for below
    top: usize,
    ghost counted: { count ≡ live (meant cells.now) },
    ghost well_formed: { Formed cells.now },
    ghost top_within: { top ≤ span cells.now },
    ghost held_from_top: { HeldFrom cells.now top },
}

impl<'a> RecordStore<'a> {
    // An empty store over the first 65,536 of the cells, or as many as there are.
    pub fn over(cells: &'a mut [Cell]) -> RecordStore<'a>
        ensures limit { span result.cells.now ≡ span cells.old }
        ensures none_live { meant result.cells.now ≡ (λ _. None) }
        ensures cells_free { result.cells.now ≡ cleared cells.old }
        ensures top_after { result.top ≡ span cells.old }
        ensures rest_kept { drop 65536 result.cells.now ≡ drop 65536 cells.old }
        ensures same_slice { result.cells.ghost_name ≡ cells.entry.ghost_name }
    {
        let top = counted(cells);
        clear(cells);
        RecordStore {
            cells,
            count: 0,
            top,
        }
    }

    // The location that a take hands out.
    fn highest_free(&self) -> Option<u16>
        ensures { Found self.now.cells.now result }
    {
        // over `rposition` it was tried, and the proof did not close: std has no lemma on the items from the back, for `find` after
        // `rev` neither
        for i in (0..self.top).rev() {
            if self.cells[i].value().is_none() {
                return Some(i as u16);
            }
        }
        None
    }

    // What the location holds, if it is live.
    fn found(&self, location: u16) -> Option<Value>
        ensures within { is_some result ≡ true → location < span self.now.cells.now }
        ensures value { result ≡ meant self.now.cells.now location }
    {
        self.cells.get(location as usize)?.value()
    }
}

// The byte store's calls have the same shape; what each says beside the trait's words is of its own memory, so they are not one.
impl<'a> Store for RecordStore<'a> {
    ghost bound = { λ s. span s.cells.now };

    ghost at = { λ s. meant s.cells.now };

    ghost low = { λ s l. meant_low s.cells.now l };

    ghost within = { λ s. live_span s.cells.now };

    fn limit(&self) -> u32 {
        counted(self.cells) as u32
    }

    fn count(&self) -> u32 {
        self.count
    }

    fn take(&mut self, value: Value) -> Result<u16, Full>
        ensures limit_kept { span self.new.cells.now ≡ span self.old.cells.now }
        ensures taken { Taken (span self.old.cells.now) (meant self.old.cells.now) (meant self.new.cells.now) value result }
        ensures highest_free { HighestTaken result self.old.cells.now }
        ensures cells_after { self.new.cells.now ≡ cells_taken result self.old.cells.now value }
        ensures top_after { self.new.top ≡ top_taken result self.old.top }
        ensures rest_kept { drop 65536 self.new.cells.now ≡ drop 65536 self.old.cells.now }
        ensures same_slice { self.new.cells.ghost_name ≡ self.old.cells.ghost_name }
    {
        let location = self.highest_free().ok_or(Full)?;
        let i = location as usize;
        self.cells[i] = Cell::holding(value);
        self.count += 1;
        self.top = i;
        Ok(location)
    }

    fn read(&self, location: u16) -> Result<Value, Dead> {
        self.found(location).ok_or(Dead)
    }

    fn write(&mut self, location: u16, value: Value) -> Result<(), WriteRefusal>
        ensures limit_kept { span self.new.cells.now ≡ span self.old.cells.now }
        ensures answer { result ≡ write_answer (meant self.old.cells.now location) value }
        ensures others_kept { meant self.new.cells.now ≡ after_call result (meant self.old.cells.now) location (Some value) }
        ensures cells_after { self.new.cells.now ≡ cells_after_call result self.old.cells.now location (Some value) }
        ensures top_after { self.new.top ≡ self.old.top }
        ensures rest_kept { drop 65536 self.new.cells.now ≡ drop 65536 self.old.cells.now }
        ensures same_slice { self.new.cells.ghost_name ≡ self.old.cells.ghost_name }
    {
        let old = self.found(location).ok_or(WriteRefusal::Dead)?;
        if !old.is_like(value) {
            return Err(WriteRefusal::Kind);
        }
        self.cells[location as usize] = Cell::holding(value);
        Ok(())
    }

    fn release(&mut self, location: u16) -> Result<(), Dead>
        ensures limit_kept { span self.new.cells.now ≡ span self.old.cells.now }
        ensures answer { result ≡ release_answer (meant self.old.cells.now location) }
        ensures others_kept { meant self.new.cells.now ≡ after_call result (meant self.old.cells.now) location None }
        ensures cells_after { self.new.cells.now ≡ cells_after_call result self.old.cells.now location None }
        ensures top_after { self.new.top ≡ top_released result self.old.top location }
        ensures rest_kept { drop 65536 self.new.cells.now ≡ drop 65536 self.old.cells.now }
        ensures same_slice { self.new.cells.ghost_name ≡ self.old.cells.ghost_name }
    {
        self.found(location).ok_or(Dead)?;
        let i = location as usize;
        self.cells[i] = Cell::free();
        self.count -= 1;
        self.top = self.top.max(i + 1);
        Ok(())
    }
}

// How many cells count.
fn counted(cells: &[Cell]) -> usize
    ensures { result ≡ span cells.now }
{
    cells.len().min(65536)
}

// Frees every cell that counts.
fn clear(cells: &mut [Cell])
    ensures { cells.new ≡ cleared cells.old }
{
    let n = counted(cells);
    cells[..n].fill(Cell::free());
}

// A store that is made, used once and gone: the lender has its slice back as the call left it.
pub fn take_once(cells: &mut [Cell], value: Value) -> Result<u16, Full>
    ensures cells_after { cells.new ≡ cells_taken result (cleared cells.old) value }
    ensures rest_kept { drop 65536 cells.new ≡ drop 65536 cells.old }
{
    let mut store = RecordStore::over(cells);
    store.take(value)
}

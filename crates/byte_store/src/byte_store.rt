// A store over a lent slice of bytes, five to a cell, one cell for each location.
ghost use Rattle.std.specs.Prelude.{◌≡◌, ◌<◌, true, length, is_some, Some, None};
ghost use Rattle.language.specs.Memory.{live};
ghost use Rattle.store.specs.Calls.{Taken, write_answer, release_answer, after_call};
ghost use Rattle.byte_store.specs.Layout.{cells, meaning, WellFormed, RestKept, cleared, bytes_after_call, bytes_taken};
ghost use Rattle.byte_store.specs.Free.{FreeWithin, NextTaken, from_taken, Chosen, Room};
ghost use Rattle.byte_store.specs.Laws.{live_low, live_le_cells};

use crate::cells;
use crate::window::Window;
use language::Value;
use store::{Dead, Full, Store, WriteRefusal};

// As many cells count as fit, and at most 65,536; what lies after them is never written. A take hands out the first
// free cell after the one that was handed out last, going round at the end.
#[derive(Drop)]
pub struct ByteStore<'a> {
    bytes: &'a mut [u8],
    count: u32,
    // the cell after the one that was handed out last, where the next search starts
    from: usize,
    // where the free cells are: a search looks nowhere else
    window: Window,
    ghost counted: { count ≡ live (meaning bytes.now) },
    ghost well_formed: { WellFormed bytes.now },
    ghost free_within: { FreeWithin (cells bytes.now) (meaning bytes.now) window.low window.high },
}

impl<'a> ByteStore<'a> {
    // An empty store over `bytes`: every counted cell is made all 0.
    pub fn over(bytes: &'a mut [u8]) -> ByteStore<'a>
        ensures cells_free { result.bytes.now ≡ cleared bytes.old }
        ensures length_kept { length result.bytes.now ≡ length bytes.old }
        ensures limit_kept { cells result.bytes.now ≡ cells bytes.old }
        ensures none_live { meaning result.bytes.now ≡ (λ _. None) }
        ensures from_after { result.from ≡ 0 }
        ensures rest_kept { RestKept bytes.old result.bytes.now }
        ensures same_slice { result.bytes.ghost_name ≡ bytes.entry.ghost_name }
    {
        cells::clear(bytes);
        let high = cells::counted(bytes);
        ByteStore {
            bytes,
            count: 0,
            from: 0,
            window: Window { low: 0, high },
        }
    }

    fn found(&self, location: u16) -> Option<Value>
        ensures within { is_some result ≡ true → location < cells self.now.bytes.now }
        ensures value { result ≡ meaning self.now.bytes.now location }
    {
        cells::found(self.bytes, location)
    }

    // The first free cell from `from` on, going round at the end, and the window once it is held.
    #[tactic(auto, using(crate::proofs::Kept::live_gap, crate::proofs::Kept::live_full))]
    fn next_free(&self) -> (Option<u16>, Window)
        ensures chosen { Chosen (cells self.now.bytes.now) (meaning self.now.bytes.now) self.now.from result.1.low result.1.high result.0 }
        ensures room { Room (cells self.now.bytes.now) (meaning self.now.bytes.now) result.0 }
    {
        let Window { low, high } = self.window;
        // the cells below `low` are held, and those from `high` on
        let start = self.from.max(low);
        if let Some(location) = cells::first_free(self.bytes, start, high) {
            let low = if start == low {
                location as usize + 1
            } else {
                low
            };
            return (Some(location), Window { low, high });
        }
        // so are those from `start` on
        let high = high.min(start);
        match cells::first_free(self.bytes, low, high) {
            Some(location) => {
                let low = location as usize + 1;
                (Some(location), Window { low, high })
            }
            None => (None, Window { low: high, high }),
        }
    }
}

// The record store's calls have the same shape; what each says beside the trait's words is of its own memory, so they are not one.
impl<'a> Store for ByteStore<'a> {
    ghost bound = { λ s. cells s.bytes.now };

    ghost at = { λ s. meaning s.bytes.now };

    ghost low = { λ s l. live_low s.bytes.now l };

    ghost within = { λ s. live_le_cells s.bytes.now };

    fn limit(&self) -> u32 {
        cells::counted(self.bytes) as u32
    }

    fn count(&self) -> u32 {
        self.count
    }

    fn take(&mut self, value: Value) -> Result<u16, Full>
        ensures limit_kept { cells self.new.bytes.now ≡ cells self.old.bytes.now }
        ensures taken { Taken (cells self.old.bytes.now) (meaning self.old.bytes.now) (meaning self.new.bytes.now) value result }
        ensures next_free { NextTaken result (cells self.old.bytes.now) (meaning self.old.bytes.now) self.old.from }
        ensures from_after { self.new.from ≡ from_taken result self.old.from }
        ensures bytes_after { self.new.bytes.now ≡ bytes_taken result self.old.bytes.now (Some value) }
        ensures rest_kept { RestKept self.old.bytes.now self.new.bytes.now }
        ensures same_slice { self.new.bytes.ghost_name ≡ self.old.bytes.ghost_name }
    {
        let (free, narrowed) = self.next_free();
        // with `ok_or` and `?` the window would have to be narrowed first, where it is not true yet of the bytes
        match free {
            Some(location) => {
                cells::put_cell(self.bytes, location, Some(value));
                self.count += 1;
                self.from = location as usize + 1;
                self.window = narrowed;
                Ok(location)
            }
            None => {
                self.window = narrowed;
                Err(Full)
            }
        }
    }

    fn read(&self, location: u16) -> Result<Value, Dead> {
        self.found(location).ok_or(Dead)
    }

    fn write(&mut self, location: u16, value: Value) -> Result<(), WriteRefusal>
        ensures limit_kept { cells self.new.bytes.now ≡ cells self.old.bytes.now }
        ensures answer { result ≡ write_answer (meaning self.old.bytes.now location) value }
        ensures others_kept { meaning self.new.bytes.now ≡ after_call result (meaning self.old.bytes.now) location (Some value) }
        ensures bytes_after { self.new.bytes.now ≡ bytes_after_call result self.old.bytes.now location (Some value) }
        ensures from_after { self.new.from ≡ self.old.from }
        ensures rest_kept { RestKept self.old.bytes.now self.new.bytes.now }
        ensures same_slice { self.new.bytes.ghost_name ≡ self.old.bytes.ghost_name }
    {
        let old = self.found(location).ok_or(WriteRefusal::Dead)?;
        if !old.is_like(value) {
            return Err(WriteRefusal::Kind);
        }
        cells::put_cell(self.bytes, location, Some(value));
        Ok(())
    }

    fn release(&mut self, location: u16) -> Result<(), Dead>
        ensures limit_kept { cells self.new.bytes.now ≡ cells self.old.bytes.now }
        ensures answer { result ≡ release_answer (meaning self.old.bytes.now location) }
        ensures others_kept { meaning self.new.bytes.now ≡ after_call result (meaning self.old.bytes.now) location None }
        ensures bytes_after { self.new.bytes.now ≡ bytes_after_call result self.old.bytes.now location None }
        ensures from_after { self.new.from ≡ self.old.from }
        ensures rest_kept { RestKept self.old.bytes.now self.new.bytes.now }
        ensures same_slice { self.new.bytes.ghost_name ≡ self.old.bytes.ghost_name }
    {
        self.found(location).ok_or(Dead)?;
        cells::put_cell(self.bytes, location, None);
        self.count -= 1;
        self.window = self.window.with(location);
        Ok(())
    }
}

// A store that is made, used once and gone: the lender has its bytes back as the call left them.
pub fn take_once(bytes: &mut [u8], value: Value) -> Result<u16, Full>
    ensures bytes_after { bytes.new ≡ bytes_taken result (cleared bytes.old) (Some value) }
    ensures rest_kept { RestKept bytes.old bytes.new }
{
    ByteStore::over(bytes).take(value)
}

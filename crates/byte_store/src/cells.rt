// The cells of a row of bytes.
ghost use Rattle.std.specs.Prelude.{◌≡◌, ◌<◌, ◌≤◌, true, is_some, None};
ghost use Rattle.language.specs.Memory.{put};
ghost use Rattle.byte_store.specs.Layout.{cells, meaning, WellFormed, RestKept, with_cell, cleared};
ghost use Rattle.byte_store.specs.Free.{FirstFree};

use crate::format::{CELL, decode, encode};
use language::Value;

// A location is a number of 16 bits.
const LOCATIONS: usize = 65536;

// How many cells count.
pub(crate) fn counted(bytes: &[u8]) -> usize
    ensures { result ≡ cells bytes.now }
{
    (bytes.len() / CELL).min(LOCATIONS)
}

// What a location holds, if it is live.
pub(crate) fn found(bytes: &[u8], location: u16) -> Option<Value>
    ensures within { is_some result ≡ true → location < cells bytes.now }
    ensures value { result ≡ meaning bytes.now location }
{
    let start = CELL * location as usize;
    decode(bytes.get(start..start + CELL)?)
}

// Writes the bytes of a counted cell.
pub(crate) fn put_cell(bytes: &mut [u8], location: u16, held: Option<Value>)
    requires { location < cells bytes.old }
    ensures bytes { bytes.new ≡ with_cell bytes.old location held }
    ensures means { meaning bytes.new ≡ put (meaning bytes.old) location held }
    ensures limit_kept { cells bytes.new ≡ cells bytes.old }
    ensures rest_kept { RestKept bytes.old bytes.new }
    ensures well_formed { WellFormed bytes.old → WellFormed bytes.new }
{
    let start = CELL * location as usize;
    bytes[start..start + CELL].copy_from_slice(&encode(held));
}

// Makes every counted cell all 0.
pub(crate) fn clear(bytes: &mut [u8])
    ensures cells_free { bytes.new ≡ cleared bytes.old }
    ensures none_live { meaning bytes.new ≡ (λ _. None) }
    ensures rest_kept { RestKept bytes.old bytes.new }
    ensures well_formed { WellFormed bytes.new }
{
    let end = CELL * counted(bytes);
    bytes[..end].fill(0);
}

// The first free cell from `low` on, below `high`. Over `find` it was tried, and the proof of which cells were passed did
// not close.
pub(crate) fn first_free(bytes: &[u8], low: usize, high: usize) -> Option<u16>
    requires { high ≤ cells bytes.now }
    ensures { FirstFree (meaning bytes.now) low high result }
{
    for i in low..high {
        let location = i as u16;
        if found(bytes, location).is_none() {
            return Some(location);
        }
    }
    None
}

// The names in sight, over a lent slice of records, for every type of entry: the latest entry of a name is the
// one that counts, and an earlier position sees what it saw, whatever is entered later.
#![tactic(auto)]

ghost use Rattle.std.specs.Prelude.{◌≡◌, ℕ, ◌+◌, ◌≤◌, [], ◌∷◌, length, slice_set};
ghost use Rattle.language.specs.Sight.{look};
ghost use Rattle.scope.specs.Sight.{in_sight, Down};
ghost use Rattle.scope.specs.Calls.{enter_answer, go_answer, restore_answer, after, linked, entered};

#[cfg(test)]
mod tests;

use language::{Name, same_name};

// Every record is in use.
#[derive(Clone, Copy, Debug, PartialEq, Eq)]
pub struct NoRoom;

// No such position: fewer records are in use.
#[derive(Clone, Copy, Debug, PartialEq, Eq)]
pub struct NotThere;

// A name with its entry, and the position that it was entered at.
#[derive(Clone, Copy)]
pub struct Record<E> {
    name: Name,
    entry: E,
    next: usize,
}

impl<E: Copy> Record<E> {
    // Something to fill a list of records with.
    pub fn blank(entry: E) -> Record<E>
        ensures { result ≡ linked 0 entry 0 }
    {
        Record {
            name: 0,
            entry,
            next: 0,
        }
    }
}

// The first `top` records are in use; `head` is the position that is seen from, 0 where nothing is in sight. The records
// are lent, since nothing here allocates: so they are counted, and linked by their positions.
#[derive(Drop)]
pub struct Scope<'a, E> {
    records: &'a mut [Record<E>],
    top: usize,
    head: usize,
    ghost within: { top ≤ length records.now },
    ghost low: { head ≤ top },
    ghost down: { Down records.now top },
}

// How many records were in use at some time, and the position that was seen from.
#[derive(Clone, Copy)]
pub struct Mark {
    top: usize,
    head: usize,
    ghost low: { head ≤ top },
}

impl<'a, E: Copy> Scope<'a, E> {
    // Nothing is in sight. Whatever the records hold is allowed.
    pub fn new(records: &'a mut [Record<E>]) -> Scope<'a, E>
        ensures nothing_in_sight { in_sight result.records.now result.head ≡ [] }
        ensures top_after { result.top ≡ 0 }
        ensures head_after { result.head ≡ 0 }
        ensures records_kept { result.records.now ≡ records.old }
        ensures same_slice { result.records.ghost_name ≡ records.entry.ghost_name }
    {
        Scope {
            records,
            top: 0,
            head: 0,
        }
    }

    // Puts the name in sight before all others, unless there is no room.
    pub fn enter(&mut self, name: Name, entry: E) -> Result<(), NoRoom>
        ensures answer { result ≡ enter_answer self.old.top (length self.old.records.now) }
        ensures sight_entered { in_sight self.new.records.now self.new.head ≡ after result ((name, entry) ∷ in_sight self.old.records.now self.old.head) (in_sight self.old.records.now self.old.head) }
        ensures older_kept { (h : ℕ) → h ≤ self.old.top → in_sight self.new.records.now h ≡ in_sight self.old.records.now h }
        ensures others_kept { self.new.records.now ≡ after result (slice_set self.old.records.now self.old.top (linked name entry self.old.head)) self.old.records.now }
        ensures top_after { self.new.top ≡ after result (self.old.top + 1) self.old.top }
        ensures head_after { self.new.head ≡ after result (self.old.top + 1) self.old.head }
        ensures length_kept { length self.new.records.now ≡ length self.old.records.now }
        ensures same_slice { self.new.records.ghost_name ≡ self.old.records.ghost_name }
    {
        let i = self.top;
        if i >= self.records.len() {
            return Err(NoRoom);
        }
        self.records[i] = Record {
            name,
            entry,
            next: self.head,
        };
        self.top = i + 1;
        self.head = i + 1;
        Ok(())
    }

    // The latest entry of the name in sight.
    pub fn find(&self, name: Name) -> Option<E>
        ensures { result ≡ look name (in_sight self.now.records.now self.now.head) }
    {
        // a chain of records is walked, not a row: no `for` goes over it
        let mut position = self.head;
        while position > 0 {
            let record = self.records[position - 1];
            if same_name(name, record.name) {
                return Some(record.entry);
            }
            position = record.next;
        }
        None
    }

    // What to go back to later.
    pub fn mark(&self) -> Mark
        ensures top { result.top ≡ self.now.top }
        ensures head { result.head ≡ self.now.head }
    {
        Mark {
            top: self.top,
            head: self.head,
        }
    }

    // Lets go of every record since the mark, and sees what was in sight there.
    pub fn back_to(&mut self, mark: Mark) -> Result<(), NotThere>
        ensures answer { result ≡ go_answer mark.top self.old.top }
        ensures sight_after { in_sight self.new.records.now self.new.head ≡ in_sight self.old.records.now (after result mark.head self.old.head) }
        ensures records_kept { self.new.records.now ≡ self.old.records.now }
        ensures top_after { self.new.top ≡ after result mark.top self.old.top }
        ensures head_after { self.new.head ≡ after result mark.head self.old.head }
        ensures same_slice { self.new.records.ghost_name ≡ self.old.records.ghost_name }
    {
        self.restore(mark.top, mark.head)
    }

    // Lets go of every record from number `top` on, and sees from the position.
    pub fn restore(&mut self, top: usize, position: usize) -> Result<(), NotThere>
        ensures answer { result ≡ restore_answer position top self.old.top }
        ensures sight_after { in_sight self.new.records.now self.new.head ≡ in_sight self.old.records.now (after result position self.old.head) }
        ensures records_kept { self.new.records.now ≡ self.old.records.now }
        ensures top_after { self.new.top ≡ after result top self.old.top }
        ensures head_after { self.new.head ≡ after result position self.old.head }
        ensures same_slice { self.new.records.ghost_name ≡ self.old.records.ghost_name }
    {
        if position > top || top > self.top {
            return Err(NotThere);
        }
        self.head = position;
        self.top = top;
        Ok(())
    }

    // The latest entry in sight from a position, if that many records are in use.
    pub fn entry_at(&self, position: usize) -> Option<E>
        ensures latest { result ≡ entered self.now.records.now self.now.top position }
    {
        let index = position.checked_sub(1)?;
        if index >= self.top {
            return None;
        }
        Some(self.records[index].entry)
    }

    // How many records are in use.
    pub fn used(&self) -> usize
        ensures top { result ≡ self.now.top }
    {
        self.mark().top
    }

    // The position that is seen from.
    pub fn position(&self) -> usize
        ensures head { result ≡ self.now.head }
        ensures there { result ≤ self.now.top }
    {
        self.mark().head
    }

    // Sees from another position; every record stays.
    pub fn see_from(&mut self, position: usize) -> Result<(), NotThere>
        ensures answer { result ≡ go_answer position self.old.top }
        ensures sight_after { in_sight self.new.records.now self.new.head ≡ in_sight self.old.records.now (after result position self.old.head) }
        ensures records_kept { self.new.records.now ≡ self.old.records.now }
        ensures top_kept { self.new.top ≡ self.old.top }
        ensures head_after { self.new.head ≡ after result position self.old.head }
        ensures same_slice { self.new.records.ghost_name ≡ self.old.records.ghost_name }
    {
        let top = self.top;
        self.restore(top, position)
    }
}

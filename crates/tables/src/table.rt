// The table of processes: for each its class, what remains of it, and its variables.
ghost use Rattle.std.specs.Prelude.{◌≡◌, length, take, slice_index_or, slice_set};
ghost use Rattle.tables.specs.Rows.{rows_of, no_entry};
ghost use Rattle.tables.specs.Moving.{with_left};

use processes::left::Left;
use values::row::Row;

// A process: the number of its class, how many variables it has, and what remains of it.
#[derive(Clone, Copy)]
pub struct Entry {
    pub class: u8,
    pub variables: u8,
    pub left: Left,
}

// The variables stand apart, eight rows to a process: memory that a site lends can take their place later.
#[derive(Clone, Copy)]
pub struct Table {
    pub entries: [Entry; 8],
    pub rows: [[Row; 8]; 8],
}

// The rows of the variables that a process has.
fn first_rows(rows: &[Row], count: u8) -> &[Row]
    ensures { result.now ≡ take count rows.now }
{
    &rows[..rows.len().min(count as usize)]
}

impl Table {
    // The rows of process `p`; none where there is no such process.
    // By index, as its entry stands at the same index of another array.
    pub fn rows_of(&self, p: u8) -> &[Row]
        ensures { result.now ≡ rows_of self.now p }
    {
        let i = p as usize;
        if i < self.rows.len() {
            first_rows(&self.rows[i], self.entries[i].variables)
        } else {
            &[]
        }
    }

    // Makes process `p` another one; nothing where there is no such process.
    // By index, here and in `put`: what a write through `get_mut` leaves is not proved.
    pub fn set(&mut self, p: u8, entry: Entry, rows: [Row; 8])
        ensures entries { self.new.entries ≡ slice_set self.old.entries p entry }
        ensures rows { self.new.rows ≡ slice_set self.old.rows p rows }
        ensures places { length self.old.entries ≡ 8 }
        ensures width { length self.old.rows ≡ 8 }
    {
        let i = p as usize;
        if i < self.rows.len() {
            self.entries[i] = entry;
            self.rows[i] = rows;
        }
    }

    // Puts what remains of process `p`, and its rows, in place; nothing where there is no such process.
    pub fn put(&mut self, p: u8, left: Left, rows: [Row; 8])
        ensures entries { self.new.entries ≡ slice_set self.old.entries p (with_left (slice_index_or self.old.entries p no_entry) left) }
        ensures rows { self.new.rows ≡ slice_set self.old.rows p rows }
    {
        let i = p as usize;
        if i < self.rows.len() {
            self.entries[i].left = left;
            self.rows[i] = rows;
        }
    }
}

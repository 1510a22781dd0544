// The arrays of a parity table, as a caller lends them, and what is left in them: what the caller is told of each row in place of the keys, and zeros in
// the rows after those that are kept.
ghost use Rattle.std.specs.Prelude.{ℕ, ◌*◌, ◌<◌, ◌≤◌, length, get_or};
ghost use Rattle.rules.specs.Limits.{max_letters, max_rows};
ghost use Rattle.explore.specs.Cells.{source_in};
ghost use Rattle.translate.specs.Lending.{SameLent};
ghost use Rattle.translate.specs.Rows.{Unpacked, RowsLeft};

use explore::codes::SPAN;
use records::Record;

// The lent arrays, and how many rows there may be: slices side by side, since the caller lends them so.
#[derive(Drop)]
pub(crate) struct Lent<'a> {
    pub capacity: usize,
    pub targets: &'a mut [u16],
    pub priorities: &'a mut [u8],
    pub sources: &'a mut [u8],
    pub records: &'a mut [u32],
}

// Writes the source states of rows, and their record numbers in place of their keys.
fn unpack(keys: &mut [u32], sources: &mut [u8])
    requires { (length keys.old ≤ length sources.old) × ((i : ℕ) → i < length keys.old → source_in (get_or keys.old i 0) < 256) }
    ensures { Unpacked (length keys.old) keys.old keys.new sources.old sources.new }
{
    // the first i rows are unpacked
    for (i, key) in keys.iter_mut().enumerate() {
        sources[i] = (*key / SPAN) as u8;
        let order = Record { code: *key % SPAN };
        *key = order.number();
    }
}

impl<'a> Lent<'a> {
    // Unpacks the first rows, and clears those after them up to the capacity, in all four arrays.
    pub(crate) fn leave_rows(&mut self, letters: usize, rows: usize)
        requires { ((letters ≤ max_letters) × (rows ≤ self.old.capacity) × (self.old.capacity ≤ max_rows) × (self.old.capacity * letters ≤ length self.old.targets.now) × (self.old.capacity * letters ≤ length self.old.priorities.now) × (self.old.capacity ≤ length self.old.sources.now) × (self.old.capacity ≤ length self.old.records.now)) × ((i : ℕ) → i < rows → source_in (get_or self.old.records.now i 0) < 256) }
        ensures rows { RowsLeft letters rows self.old.capacity self.old.targets.now self.new.targets.now self.old.priorities.now self.new.priorities.now self.old.sources.now self.new.sources.now self.old.records.now self.new.records.now }
        ensures same { SameLent self.old self.new }
    {
        unpack(&mut self.records[..rows], self.sources);
        let from = rows * letters;
        let to = self.capacity * letters;
        self.targets[from..to].fill(0);
        self.priorities[from..to].fill(0);
        self.sources[rows..self.capacity].fill(0);
        self.records[rows..self.capacity].fill(0);
    }
}

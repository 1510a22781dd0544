// The exploration: rows are read by number, letters rising within each; a key is filed as it is found, a cell written as it is read.
// It ends without an answer once more rows are reached than the capacity.
ghost use Rattle.std.specs.Prelude.{◌+◌, ◌*◌, ◌<◌, ◌≤◌, length};
ghost use Rattle.rules.specs.Limits.{max_rows};
ghost use Rattle.explore.specs.Cells.{span, step_in};
ghost use Rattle.explore.specs.Transitions.{IsStep};
ghost use Rattle.explore.specs.Filing.{Filed};
ghost use Rattle.explore.specs.Index.{max_slots, Linked};
ghost use Rattle.explore.specs.Lending.{lent_in, SameLent};
ghost use Rattle.explore.specs.Exploring.{LinkRoom, CellRead, Known, RowRead, RowRoom, Stage, RowsRead, AllRead};

use crate::Rule;
use crate::check::Checked;
use crate::codes::{CROSSING, INSIDE, SPAN, key_of};
use crate::effects::write_effects;
use crate::filing::file_key;
use crate::index::Index;
use rules::limit::{MAX_LETTERS, MAX_ROWS, NO_ROW};

// Up to how many rows a small index serves, and its slots. While few rows are known, clearing the large one would take longer than reading them.
const FEW_LIMIT: usize = 128;

const FEW_SLOTS: usize = 256;

// The rows that it has room for: the next row leads to one more for each letter at most.
const FEW_ROWS: usize = FEW_LIMIT + MAX_LETTERS as usize;

// The slots of the large index.
const SLOTS: usize = 16384;

// How far an exploration has come: the rows below `row` are read, and `known` rows are known.
#[derive(Clone, Copy)]
pub(crate) struct Progress {
    pub row: usize,
    pub known: usize,
}

// The rows of an exploration in the lent arrays, of which there may be so many. They are slices, one for each part of a row: the caller lends them.
// How many are known is no field: each step gives that count back, as the value of an Option, which is none where there is no room. A field would be
// a second place to say so.
#[derive(Drop)]
pub(crate) struct Rows<'a> {
    pub capacity: usize,
    pub keys: &'a mut [u32],
    pub targets: &'a mut [u16],
    pub priorities: &'a mut [u8],
}

// A transition: the key to which it leads, and its priority.
#[derive(Clone, Copy)]
pub(crate) struct Transition {
    pub key: u32,
    pub priority: u8,
}

// The transition of a code, by the effect of its marks; none where it is missing.
fn transition_of(code: u32, effect: u32) -> Option<Transition>
    requires { effect < 256 * span }
    ensures { IsStep (step_in code effect) result }
{
    if code < CROSSING {
        return None;
    }
    if code < INSIDE {
        let key = key_of(code % CROSSING / SPAN, code % SPAN);
        return Some(Transition { key, priority: 1 });
    }
    let key = key_of(code / 65536 % 1024, effect % SPAN);
    let priority = (effect / SPAN) as u8;
    Some(Transition { key, priority })
}

impl<'a> Rows<'a> {
    // Reads a cell, number p of the parity table, whose code and effect are given, and gives how many rows are known then.
    fn read_cell<const SLOTS: usize, const ROOM: usize>(
        &mut self,
        code: u32,
        effect: u32,
        p: usize,
        n: usize,
        index: &mut Index<SLOTS, ROOM>,
    ) -> Option<usize>
        requires { Filed self.old.capacity n self.old.keys.now × Linked n self.old.keys.now index.old.heads index.old.links × (n < self.old.capacity → n < ROOM) × (effect < 256 * span) × (p < length self.old.targets.now) × (p < length self.old.priorities.now) }
        ensures cell { CellRead (step_in code effect) self.old.capacity n p (lent_in self.old) (lent_in self.new) index.new.heads index.new.links result }
        ensures same { SameLent self.old self.new }
    {
        let Some(step) = transition_of(code, effect) else {
            self.targets[p] = NO_ROW;
            self.priorities[p] = 0;
            return Some(n);
        };
        let keys = &mut *self.keys;
        let row = file_key(step.key, n, self.capacity, keys, index)?;
        self.targets[p] = row.number as u16;
        self.priorities[p] = step.priority;
        Some(row.known)
    }

    // Reads row i by all letters, and gives how many rows are known then.
    fn read_row<R: Rule, const SLOTS: usize, const ROOM: usize>(
        &mut self,
        checked: Checked,
        i: usize,
        n: usize,
        index: &mut Index<SLOTS, ROOM>,
    ) -> Option<usize>
        requires { (i < n) × Known R.effect checked.task checked.cells.now self.old.capacity n (i * checked.task.letters) (lent_in self.old) × Linked n self.old.keys.now index.old.heads index.old.links × LinkRoom self.old.capacity (n + checked.task.letters) ROOM }
        ensures row { RowRead R.effect checked.entry.task checked.entry.cells.now self.old.capacity n i (lent_in self.old) (lent_in self.new) index.new.heads index.new.links result }
        ensures same { SameLent self.old self.new }
    {
        let m = checked.task.letters;
        let key = self.keys[i];
        let first = (key / SPAN) as usize * m;
        let row = &checked.cells[first..first + m];
        let mut effects = [0; MAX_LETTERS as usize];
        let stride = write_effects::<R>(key % SPAN, row, &mut effects);
        let mut known = n;
        // row i is read by the letters below a, and `known` rows are known
        for (a, code) in row.iter().enumerate() {
            known = self.read_cell(*code, effects[a * stride], i * m + a, known, index)?;
        }
        Some(known)
    }

    // Reads rows from where an exploration has come, with an index of its own, until all are read or more than `limit` are known.
    fn read_from<R: Rule, const SLOTS: usize, const ROOM: usize>(
        &mut self,
        checked: Checked,
        from: Progress,
        limit: usize,
    ) -> Option<Progress>
        requires { Stage R.effect checked.task checked.cells.now self.old.capacity from.row from.known (lent_in self.old) × (0 < SLOTS) × (SLOTS ≤ max_slots) × (from.known ≤ ROOM) × (ROOM ≤ max_rows) × LinkRoom self.old.capacity (limit + checked.task.letters) ROOM }
        ensures rows { RowsRead R.effect checked.entry.task checked.entry.cells.now from.known limit self.old.capacity (lent_in self.old) (lent_in self.new) result }
        ensures same { SameLent self.old self.new }
    {
        let keys = &mut *self.keys;
        let mut index = Index::<SLOTS, ROOM>::of(from.known, keys);
        let mut known = from.known;
        let mut i = from.row;
        // a while: its bound grows as rows are found; the rows below i are read, and `known` rows are known
        while i < known && known <= limit {
            known = self.read_row::<R, SLOTS, ROOM>(checked, i, known, &mut index)?;
            i += 1;
        }
        Some(Progress { row: i, known })
    }

    // Reads all rows, and gives how many there are. A small index serves while it has room for the next row's targets.
    pub(crate) fn explore<R: Rule>(&mut self, checked: Checked) -> Option<usize>
        requires { RowRoom checked.task.letters self.old.capacity self.old.targets.now self.old.priorities.now self.old.keys.now }
        ensures all { AllRead R.effect checked.entry.task checked.entry.cells.now self.old.capacity (lent_in self.old) (lent_in self.new) result }
        ensures same { SameLent self.old self.new }
    {
        self.keys[0] = checked.task.start;
        let first = Progress { row: 0, known: 1 };
        let few = self.read_from::<R, FEW_SLOTS, FEW_ROWS>(checked, first, FEW_LIMIT)?;
        if few.row == few.known {
            return Some(few.known);
        }
        let all = self.read_from::<R, SLOTS, MAX_ROWS>(checked, few, self.capacity)?;
        Some(all.known)
    }
}

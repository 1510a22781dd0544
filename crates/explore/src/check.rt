// Whether an exploration can be made at all, and a task for which it can.
ghost use Rattle.std.specs.Prelude.{◌≡◌, length};
ghost use Rattle.rules.specs.Basics.{any};
ghost use Rattle.explore.specs.Cells.{strays};
ghost use Rattle.explore.specs.Exploring.{is_unfit, Closed};

use crate::codes::{SPAN, strays};
use crate::rows::Rows;
use crate::{Task, are_short};
use rules::limit::MAX_LETTERS;

// A task with its cells, every code of which leads to one of the states.
#[derive(Clone, Copy)]
pub(crate) struct Checked<'a> {
    pub task: Task,
    pub cells: &'a [u32],
    ghost closed: { Closed task cells.now },
}

// Some code leads to no state below n: no early exit and no branch.
fn any_strays(cells: &[u32], n: usize) -> bool
    ensures { result ≡ any (strays n) cells.now }
{
    cells
        .iter()
        .fold(false, |found, code| found | strays(*code, n))
}

// The letters or the capacity are out of range, a lent array is too short, or the start or a code leads outside the cells.
pub(crate) fn is_unfit(task: Task, cells: &[u32], rows: &Rows) -> bool
    ensures { result ≡ is_unfit task cells.now rows.now.capacity (length rows.now.keys.now) (length rows.now.targets.now) (length rows.now.priorities.now) }
{
    let m = task.letters;
    if (m == 0) | (usize::from(MAX_LETTERS) < m) {
        return true;
    }
    let states = cells.len() / m;
    let outside = (states <= (task.start / SPAN) as usize) | any_strays(cells, states);
    let keys = rows.keys.len();
    let short = are_short(
        rows.capacity,
        m as u8,
        rows.targets.len(),
        rows.priorities.len(),
        keys,
        keys,
    );
    outside | short
}

// The exploration of rows that are numbers. It knows no table: a row is a key, made of a state and a memory, and a cell is a code.
// It rests on `records`, which moves the memories. `find_rows` numbers the rows that the first one reaches by discovery: `ExploreSays`.
#![tactic(auto)]

mod check;
pub mod codes;
mod effects;
mod filing;
mod index;
mod rows;

ghost use Rattle.std.specs.Prelude.{◌≡◌};
ghost use Rattle.rules.specs.Numbered.{number_of};
ghost use Rattle.rules.specs.Says.{are_short};
ghost use Rattle.explore.specs.Exploring.{ExploreSays, refusal_for, lent};

use crate::check::Checked;
pub use crate::effects::{Pairs, Rule};
use crate::rows::Rows;
use rules::limit::MAX_ROWS;
use rules::refusal::Refusal;

// What is explored: the letters, and the key of the first row.
#[derive(Clone, Copy)]
pub struct Task {
    pub letters: usize,
    pub start: u32,
}

// Why there is no answer: there are more rows than the capacity; or the codes lead outside the cells, a size is out of range or an array too short.
#[derive(Clone, Copy, PartialEq, Eq)]
pub enum Unexplored {
    Full,
    Unfit,
}

impl From<Unexplored> for Refusal {
    ghost from_gives = { λ unexplored refusal. number_of refusal ≡ refusal_for unexplored };

    fn from(unexplored: Unexplored) -> Refusal {
        match unexplored {
            Unexplored::Full => Refusal::Full,
            Unexplored::Unfit => Refusal::Arrays,
        }
    }
}

// The capacity is out of range, or an array is too short: the first two need an entry for each row and letter, the others for each row.
// It takes lengths and no slices: the arrays are of three kinds, and only how long they are is asked.
pub fn are_short(
    capacity: usize,
    letters: u8,
    targets: usize,
    priorities: usize,
    sources: usize,
    records: usize,
) -> bool
    ensures { result ≡ are_short capacity letters targets priorities sources records }
{
    if (capacity == 0) | (MAX_ROWS < capacity) {
        return true;
    }
    let cells = capacity * usize::from(letters);
    (targets < cells) | ((priorities < cells) | ((sources < capacity) | (records < capacity)))
}

// All rows of a task by a rule: their keys, targets and priorities, in the lent arrays, and how many there are.
pub fn find_rows<R: Rule>(
    task: Task,
    cells: &[u32],
    capacity: usize,
    keys: &mut [u32],
    targets: &mut [u16],
    priorities: &mut [u8],
) -> Result<usize, Unexplored>
    ensures { ExploreSays R.effect task cells.now capacity (lent keys.old targets.old priorities.old) (lent keys.new targets.new priorities.new) result }
{
    let mut rows = Rows {
        capacity,
        keys,
        targets,
        priorities,
    };
    if check::is_unfit(task, cells, &rows) {
        return Err(Unexplored::Unfit);
    }
    let checked = Checked { task, cells };
    rows.explore::<R>(checked).ok_or(Unexplored::Full)
}

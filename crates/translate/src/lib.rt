// Translates a Rabin table into a parity table, by index appearance records.
// It rests on `survey`, which lays a table out and says what counts where, and on `explore`, which finds the rows. `translate_table` keeps
// the promise `TranslateSays` of the rules, with it demand 3 of the arrays as they are left, `TranslationAgrees`, and what the rows mean, `TranslationMeans`.
#![tactic(auto)]

use crate::cells::encode_cells;
use crate::lent::Lent;
use explore::{Pairs, Task, are_short, find_rows};
use rules::limit::{HEADER_SIZE, MAX_LETTERS, MAX_STATES};
use rules::refusal::Refusal;
use survey::lay_table;
use tables::letters_of;

mod cells;
mod lent;
mod surveyed;

ghost use Rattle.std.specs.Prelude.{◌≡◌, ◌*◌, ◌≤◌};
ghost use Rattle.rules.specs.Limits.{max_states, max_letters};
ghost use Rattle.rules.specs.Numbered.{number_in};
ghost use Rattle.rules.specs.Says.{TranslateSays, TranslationAgrees, TranslationMeans, row_arrays};
ghost use Rattle.survey.specs.Layouts.{HasCells};
ghost use Rattle.translate.specs.Answers.{rows_in};
ghost use Rattle.translate.specs.Lending.{arrays_in, SameLent};

// The cells for which small arrays are enough, and the bytes of a table with so many.
const FEW_CELLS: usize = 64;

const FEW_BYTES: usize = HEADER_SIZE + 3 * FEW_CELLS;

// The cells that a table can have.
const MAX_CELLS: usize = MAX_STATES as usize * MAX_LETTERS as usize;

impl<'a> Lent<'a> {
    // Translates a table of at most CELLS cells, with local arrays for so many.
    fn translate<const CELLS: usize>(&mut self, table: &[u8]) -> Result<usize, Refusal>
        requires { (CELLS ≤ max_states * max_letters) × HasCells table.now CELLS }
        ensures says { TranslateSays table.now self.old.capacity (arrays_in self.old) (arrays_in self.new) (number_in result) (rows_in result) }
        ensures agrees { TranslationAgrees table.now self.new.targets.now self.new.priorities.now self.new.sources.now (number_in result) (rows_in result) }
        ensures means { TranslationMeans table.now self.old.capacity (number_in result) }
        ensures same { SameLent self.old self.new }
    {
        let mut cell_targets = [0; CELLS];
        let mut cell_marks = [0; CELLS];
        let laid = lay_table(table, &mut cell_targets, &mut cell_marks)?;
        let short = are_short(
            self.capacity,
            letters_of(table),
            self.targets.len(),
            self.priorities.len(),
            self.sources.len(),
            self.records.len(),
        );
        if short {
            return Err(Refusal::Arrays);
        }
        let mut cells = [0; CELLS];
        let start = encode_cells(laid, &cell_targets, &cell_marks, &mut cells);
        let letters = laid.letters;
        let task = Task { letters, start };
        let used = laid.states * letters;
        // the keys of the rows are in the array of record numbers until they are unpacked
        let found = find_rows::<Pairs>(
            task,
            &cells[..used],
            self.capacity,
            self.records,
            self.targets,
            self.priorities,
        );
        self.leave_rows(letters, found.unwrap_or(0));
        found.map_err(Refusal::from)
    }
}

// The parity table of a Rabin table, in the lent arrays, and the number of its rows. Of few bytes it has few cells: clearing arrays for the most would take
// the longest.
pub fn translate_table(
    table: &[u8],
    capacity: usize,
    targets: &mut [u16],
    priorities: &mut [u8],
    sources: &mut [u8],
    records: &mut [u32],
) -> Result<usize, Refusal>
    ensures says { TranslateSays table.now capacity (row_arrays targets.old priorities.old sources.old records.old) (row_arrays targets.new priorities.new sources.new records.new) (number_in result) (rows_in result) }
    ensures agrees { TranslationAgrees table.now targets.new priorities.new sources.new (number_in result) (rows_in result) }
    ensures means { TranslationMeans table.now capacity (number_in result) }
{
    let mut lent = Lent {
        capacity,
        targets,
        priorities,
        sources,
        records,
    };
    if table.len() <= FEW_BYTES {
        return lent.translate::<FEW_CELLS>(table);
    }
    lent.translate::<MAX_CELLS>(table)
}

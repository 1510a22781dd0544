// A table that passed its check, as a system whose transitions are marked with the pairs that require them, read from its bytes. A search reads each
// cell once, so nothing is laid out before.
ghost use Rattle.std.specs.Prelude.{◌≡◌, length};
ghost use Rattle.rules.specs.Tables.{table_of, system_of, required_byte};
ghost use Rattle.forecast.specs.Cells.{system_at, required_at, CellsRoom};

use components::marked::Marked;
use tables::Table;

#[derive(Clone, Copy)]
pub(crate) struct Cells<'a> {
    states: usize,
    letters: usize,
    targets: &'a [u8],
    marks: &'a [u8],
    ghost room: { CellsRoom states letters (length targets.now) (length marks.now) },
}

impl<'a> Cells<'a> {
    // The cells of a table.
    pub(crate) fn of(table: Table<'a>) -> Cells<'a>
        ensures system { system_at result.states result.letters result.targets.now ≡ system_of (table_of table.entry.bytes.now) }
        ensures marks { required_at result.letters result.marks.now ≡ required_byte (table_of table.entry.bytes.now) }
    {
        Cells {
            states: table.states(),
            letters: table.letters(),
            targets: table.targets(),
            marks: table.marks(),
        }
    }
}

impl<'a> Marked for Cells<'a> {
    ghost system = { λ c. system_at c.states c.letters c.targets.now };

    ghost marks = { λ c. required_at c.letters c.marks.now };

    fn states(self) -> usize {
        self.states
    }

    fn letters(self) -> usize {
        self.letters
    }

    // 255, which is no state, where the transition is missing.
    fn go(self, state: usize, letter: usize) -> usize {
        usize::from(self.targets[state * self.letters + letter])
    }

    // The second of the cell's two bytes.
    fn marks(self, state: usize, letter: usize) -> u8 {
        self.marks[2 * (state * self.letters + letter) + 1]
    }
}

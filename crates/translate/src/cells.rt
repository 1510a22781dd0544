// A laid-out table as a task for the exploration: the key at which each state is entered, and a code for each cell.
ghost use Rattle.std.specs.Prelude.{◌≡◌, ◌*◌, ◌<◌, ◌≤◌, length};
ghost use Rattle.survey.specs.Parts.{Listed};
ghost use Rattle.translate.specs.Cells.{Written, CellsEncoded};
ghost use Rattle.translate.specs.Surveyed.{key_at, code_at, code_in_cell};

use crate::surveyed::Surveyed;
use explore::codes::{CROSSING, INSIDE, SPAN};
use records::Record;
use rules::limit::MAX_STATES;
use survey::{Laid, survey_cells};

impl<'a> Surveyed<'a> {
    // Writes the key at which each state is entered: its pairs rising.
    fn write_entries(self, entries: &mut [u32])
        requires { self.states ≤ length entries.old }
        ensures { Listed self.entry.states (key_at self.entry) entries.new }
    {
        let counted = &self.counted[..self.states];
        // the keys of the states below q are written
        for (q, pairs) in counted.iter().enumerate() {
            let order = Record::rising(*pairs);
            entries[q] = q as u32 * SPAN + order.code;
        }
    }

    // The code of cell c, a transition of state q, by the keys at which the states are entered.
    fn code(self, q: usize, c: usize, entries: &[u32]) -> u32
        requires { (q < self.states) × (c < self.states * self.letters) × Listed self.states (key_at self) entries.now }
        ensures { result ≡ code_in_cell self.entry q c }
    {
        let target = self.targets[c];
        let state = usize::from(target);
        if self.states <= state {
            return 0;
        }
        if self.homes[state] == self.homes[q] {
            let marks = self.marks[c];
            let counted = self.counted[q];
            let prohibited = (marks % 256) as u8 & counted;
            let required = (marks / 256) as u8 & counted;
            return INSIDE
                + (65536 * u32::from(target) + (u32::from(prohibited) + 256 * u32::from(required)));
        }
        CROSSING + entries[state]
    }

    // Writes the codes of all cells. The result is the key at which the first state is entered.
    fn write_codes(self, first: usize, cells: &mut [u32]) -> u32
        requires { (first < self.states) × (self.states * self.letters ≤ length cells.old) }
        ensures { (result ≡ key_at self.entry first) × Written self.entry.states self.entry.letters (code_at self.entry) cells.new }
    {
        let mut entries = [0; MAX_STATES as usize];
        self.write_entries(&mut entries);
        // the codes of the states below q are written
        for q in 0..self.states {
            // and those of q by the letters below a
            for a in 0..self.letters {
                let c = q * self.letters + a;
                cells[c] = self.code(q, c, &entries);
            }
        }
        entries[first]
    }
}

// Writes the codes of the cells of a table that is laid out. The result is the key at which its start is entered.
pub(crate) fn encode_cells(laid: Laid, targets: &[u16], marks: &[u16], cells: &mut [u32]) -> u32
    requires { (laid.states * laid.letters ≤ length targets.now) × (laid.states * laid.letters ≤ length marks.now) × (laid.states * laid.letters ≤ length cells.old) }
    ensures { CellsEncoded laid.states laid.letters laid.start targets.now marks.now cells.new result }
{
    let Laid {
        states,
        letters,
        start,
    } = laid;
    let mut homes = [0; MAX_STATES as usize];
    let mut counted = [0; MAX_STATES as usize];
    survey_cells(states, letters, targets, marks, &mut homes, &mut counted);
    let surveyed = Surveyed {
        states,
        letters,
        targets,
        marks,
        homes: &homes,
        counted: &counted,
    };
    surveyed.write_codes(start, cells)
}

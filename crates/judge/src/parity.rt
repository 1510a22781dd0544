// A parity table that passed its check, as an automaton. A transition's mark is its priority.
ghost use Rattle.std.specs.Prelude.{◌≡◌, ◌<◌, ◌≤◌, ltb, max, IfOk, MatchOption};
ghost use Rattle.rules.specs.Limits.{max_rows, no_row};
ghost use Rattle.rules.specs.Judges.{parity_system, priority_at, parity_good, parity_fault};
ghost use Rattle.rules.specs.Numbered.{number_in};
ghost use Rattle.rules.specs.Tables.{bad_targets};
ghost use Rattle.rules.proofs.Refusals.{parity_facts};
ghost use Rattle.judge.specs.Sums.{nothing_above, largest_joins};

use crate::automaton::{Automaton, Reached};
use rules::limit::{MAX_LETTERS, MAX_ROWS, NO_ROW};
use rules::refusal::Refusal;

// Some target is neither a row nor that of a missing transition. `tables` has the same over bytes: one function for both would have to speak
// of an order on any type, where each of the two speaks of numbers.
fn bad_targets(targets: &[u16], rows: u16) -> bool
    ensures { result ≡ bad_targets rows no_row targets.now }
{
    let mut bad = false;
    // bad says whether one of the targets so far is wrong
    for target in targets {
        bad |= !((*target < rows) | (*target == NO_ROW));
    }
    bad
}

// A parity table with at most ROOM rows: slices side by side, since the caller lends them so.
#[derive(Clone, Copy)]
pub(crate) struct Parity<'a, const ROOM: usize> {
    rows: usize,
    letters: usize,
    targets: &'a [u16],
    priorities: &'a [u8],
    ghost well_formed: { parity_fault rows letters targets.now priorities.now ≡ 0 },
    ghost fits: { (rows ≤ ROOM) × (ROOM ≤ max_rows) },
}

impl<'a> Parity<'a, MAX_ROWS> {
    // The parity table of these sizes and arrays, or its refusal.
    pub(crate) fn check(
        rows: usize,
        letters: usize,
        targets: &'a [u16],
        priorities: &'a [u8],
    ) -> Result<Parity<'a, MAX_ROWS>, Refusal>
        ensures number { number_in result ≡ parity_fault rows letters targets.now priorities.now }
        ensures same { IfOk result (λ table. (table.rows ≡ rows) × (table.letters ≡ letters) × (table.targets.now ≡ targets.now) × (table.priorities.now ≡ priorities.now)) }
    {
        if (rows == 0)
            | ((MAX_ROWS < rows) | ((letters == 0) | (usize::from(MAX_LETTERS) < letters)))
        {
            return Err(Refusal::Parity);
        }
        let cells = rows * letters;
        if (targets.len() < cells) | (priorities.len() < cells) {
            return Err(Refusal::Parity);
        }
        if bad_targets(&targets[..cells], rows as u16) {
            return Err(Refusal::Parity);
        }
        Ok(Parity {
            rows,
            letters,
            targets,
            priorities,
        })
    }
}

impl<'a, const ROOM: usize> Parity<'a, ROOM> {
    // The same table, where its rows fit into less room.
    pub(crate) fn within<const LESS: usize>(self) -> Option<Parity<'a, LESS>>
        requires { LESS ≤ max_rows }
        ensures { MatchOption result (LESS < self.entry.rows) (λ table. (table.rows ≡ self.entry.rows) × (table.letters ≡ self.entry.letters) × (table.targets.now ≡ self.entry.targets.now) × (table.priorities.now ≡ self.entry.priorities.now)) }
    {
        let Parity {
            rows,
            letters,
            targets,
            priorities,
        } = self;
        if LESS < rows {
            return None;
        }
        Some(Parity {
            rows,
            letters,
            targets,
            priorities,
        })
    }
}

impl<'a, const ROOM: usize> Automaton<ROOM> for Parity<'a, ROOM> {
    type Mark = u8;

    ghost system = { λ a. parity_system a.rows a.letters a.targets.now };

    ghost start = { λ a. 0 };

    ghost mark = { λ a. priority_at a.letters a.priorities.now };

    ghost test = { ltb };

    ghost join = { max };

    ghost good = { λ a. parity_good a.letters a.priorities.now };

    fn letters(self) -> u8 {
        self.letters as u8
    }

    fn start(self) -> usize {
        0
    }

    // A letter's column of the table is computed while the row is still being loaded.
    fn step(self, place: usize, letter: usize) -> Option<Reached<u8>> {
        let first = place * self.letters;
        let targets = self.targets;
        let column = &targets[letter..];
        let target = usize::from(column[first]);
        if self.rows <= target {
            return None;
        }
        let priorities = self.priorities;
        let priority = priorities[first + letter];
        Some(Reached {
            place: target,
            mark: priority,
        })
    }

    fn join(self, one: u8, other: u8) -> u8 {
        one.max(other)
    }

    fn accepts(self, peak: u8) -> bool {
        peak % 2 == 0
    }

    ghost blank = { nothing_above };

    ghost joins = { largest_joins };

    ghost begins = { λ a. (parity_facts a.rows a.letters a.targets.now a.priorities.now a.well_formed).some_rows };

    ghost fits = { λ a. a.fits };
}

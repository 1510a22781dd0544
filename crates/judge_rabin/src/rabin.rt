// A Rabin table that passed its check, as an automaton. A transition's mark is both its sets of pairs as one mask, the required pairs above
// the prohibited ones.
ghost use Rattle.rules.specs.Basics.{bit};
ghost use Rattle.rules.specs.Judges.{satisfies};
ghost use Rattle.rules.specs.Tables.{table_of};
ghost use Rattle.rules.proofs.Bits.{bit_none};
ghost use Rattle.rules.proofs.Refusals.{table_facts};
ghost use Rattle.tables.specs.Parts.{system_in};
ghost use Rattle.judge.specs.Sums.{union_joins};
ghost use Rattle.judge_rabin.specs.Marks.{mask_at};
ghost use Rattle.std.specs.Prelude.{bit_or};
ghost use Rattle.std.proofs.Common.{lit≤};

use judge::automaton::{Automaton, Reached};
use rules::limit::MAX_STATES;
use tables::{Table, letters_of, mask_of};

// The states that there is room for.
const ROOM: usize = MAX_STATES as usize;

#[derive(Clone, Copy)]
pub(crate) struct Rabin<'a> {
    pub(crate) table: Table<'a>,
}

impl<'a> Automaton<ROOM> for Rabin<'a> {
    type Mark = u16;

    ghost system = { λ a. system_in a.table.bytes.now };

    ghost start = { λ a. (table_of a.table.bytes.now).start };

    ghost mark = { λ a. mask_at (table_of a.table.bytes.now) };

    ghost test = { bit };

    ghost join = { bit_or };

    ghost good = { λ a. satisfies (table_of a.table.bytes.now) };

    fn letters(self) -> u8 {
        letters_of(self.table.bytes)
    }

    fn start(self) -> usize {
        self.table.start()
    }

    // Once the state is known, one product and one read follow: the targets are sliced before, and a letter's column of them while the state is
    // still being loaded.
    fn step(self, place: usize, letter: usize) -> Option<Reached<u16>> {
        let table = self.table;
        let first = place * table.letters();
        let targets = table.targets();
        let column = &targets[letter..];
        let target = usize::from(column[first]);
        if table.states() <= target {
            return None;
        }
        let marks = table.marks();
        let at = 2 * (first + letter);
        Some(Reached {
            place: target,
            mark: mask_of(marks[at], marks[at + 1]),
        })
    }

    fn join(self, one: u16, other: u16) -> u16 {
        one | other
    }

    // Some pair is required and not prohibited, unless all required pairs are prohibited.
    fn accepts(self, union: u16) -> bool {
        let prohibited = union % 256;
        let required = union / 256;
        required & prohibited != required
    }

    ghost blank = { bit_none };

    ghost joins = { union_joins };

    ghost begins = { λ a. (table_facts a.table.bytes.now a.table.well_formed).start_state };

    ghost fits = { λ a. ((table_facts a.table.bytes.now a.table.well_formed).sizes.most_states, lit≤ tt) };
}

// Laid-out cells as a system whose transitions are marked with the pairs that they require, and who takes its components.
ghost use Rattle.std.specs.Prelude.{◌≡◌, ◌*◌, ◌≤◌, length};
ghost use Rattle.std.proofs.Common.{sym, ◌∙◌};
ghost use Rattle.rules.specs.Judges.{parity_system};
ghost use Rattle.rules.specs.Limits.{max_states};
ghost use Rattle.survey.specs.Layouts.{required_of};
ghost use Rattle.survey.specs.Parts.{SurveyedIn};

use components::marked::{Marked, Taker};
use components::named::Names;
use rules::limit::MAX_STATES;

// Laid-out cells: slices side by side, since the caller lends them so.
#[derive(Clone, Copy)]
pub(crate) struct Cells<'a> {
    pub(crate) states: usize,
    pub(crate) letters: usize,
    pub(crate) targets: &'a [u16],
    pub(crate) marks: &'a [u16],
    ghost target_room: { states * letters ≤ length targets.now },
    ghost mark_room: { states * letters ≤ length marks.now },
}

impl<'a> Marked for Cells<'a> {
    ghost system = { λ x. parity_system x.states x.letters x.targets.now };

    ghost marks = { λ x. required_of x.letters x.marks.now };

    fn states(self) -> usize {
        self.states
    }

    fn letters(self) -> usize {
        self.letters
    }

    fn go(self, state: usize, letter: usize) -> usize {
        usize::from(self.targets[state * self.letters + letter])
    }

    // The required byte, which lies above the prohibited one.
    fn marks(self, state: usize, letter: usize) -> u8 {
        (self.marks[state * self.letters + letter] / 256) as u8
    }
}

// For each state the pairs that count in its component. An array of its own and not the one that is lent: a search for any taker would have to
// promise that the taker still holds what was lent to it.
#[derive(Drop)]
pub(crate) struct Counted {
    pub(crate) sets: [u8; MAX_STATES as usize],
    ghost room: { length sets ≡ max_states },
}

impl Taker for Counted {
    ghost holds = { λ x. SurveyedIn x.sets };

    fn take(&mut self, members: &[u16], set: u8, entries: &mut [u16]) {
        Names.take(members, set, entries);
        // the states passed have the set
        for q in members {
            let q = usize::from(*q);
            // a taker cannot ask that the states are few; those of a table are
            if q < self.sets.len() {
                self.sets[q] = set;
            }
        }
    }

    ghost lasts = { λ x es es' s marks done done' h size same others. (λ q l d. others q (sym (same q) ∙ d) ∙ h.0 q l (sym (same q) ∙ d), λ q l d. h.1 q l (sym (same q) ∙ d)) };
}

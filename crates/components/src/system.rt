// A transition system in an array, without marks: the cell of state q and letter a is number q · m + a of m letters, and a target that is no state
// means that there is no transition.
ghost use Rattle.std.specs.Prelude.{◌≡◌, ◌*◌, ◌<◌, ◌≤◌, length, is_some, IfSome};
ghost use Rattle.components.specs.Places.{done_number};

use crate::marked::Marked;

// More than there are states or letters.
pub(crate) const LIMIT: usize = 65535;

// A system that fits: its states and letters are few enough, and there is a target for each cell.
#[derive(Clone, Copy)]
pub(crate) struct System<'a> {
    pub(crate) states: usize,
    pub(crate) letters: usize,
    targets: &'a [u16],
    ghost few_states: { states < done_number },
    ghost few_letters: { letters < done_number },
    ghost cells: { states * letters ≤ length targets.now },
}

impl<'a> System<'a> {
    ghost use Rattle.components.specs.Calls.{cells_fit};
    ghost use Rattle.components.specs.Views.{IsSystem};

    // The system, if it fits.
    pub(crate) fn new(states: usize, letters: usize, targets: &'a [u16]) -> Option<System<'a>>
        ensures fits { is_some result ≡ cells_fit states letters (length targets.now) }
        ensures same { IfSome result (IsSystem states letters targets.now) }
    {
        if (LIMIT <= states) | (LIMIT <= letters) {
            return None;
        }
        if targets.len() < states * letters {
            return None;
        }
        Some(System {
            states,
            letters,
            targets,
        })
    }
}

impl<'a> Marked for System<'a> {
    ghost use Rattle.components.specs.Views.{system_of, no_marks};

    ghost system = { system_of };

    ghost marks = { no_marks };

    fn states(self) -> usize {
        self.states
    }

    fn letters(self) -> usize {
        self.letters
    }

    fn go(self, state: usize, letter: usize) -> usize {
        usize::from(self.targets[state * self.letters + letter])
    }

    fn marks(self, _state: usize, _letter: usize) -> u8 {
        0
    }
}

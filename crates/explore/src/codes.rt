// Keys, and the codes of cells: a missing transition is below `CROSSING`, a crossing is `CROSSING` and the key at which it enters, an inside
// transition is `INSIDE`, 65,536 times the target state, and the marks. They are numbers and no enum: a cell takes four bytes of a lent array, and
// loops over cells have no branch, so that they become vector code.
ghost use Rattle.std.specs.Prelude.{◌≡◌, ◌<◌};
ghost use Rattle.explore.specs.Cells.{span, key_of, marks_in, state_in, strays};

// One more than the largest memory.
pub const SPAN: u32 = 262144;

// What is added for the kind of a transition that is there.
pub const CROSSING: u32 = 268435456;

pub const INSIDE: u32 = 536870912;

// The marks in a code.
pub(crate) fn marks_of(code: u32) -> u16
    ensures { result ≡ marks_in code }
{
    (code % 65536) as u16
}

// The key of a state with a memory.
pub(crate) fn key_of(state: u32, memory: u32) -> u32
    requires { (state < 1024) × (memory < span) }
    ensures { result ≡ key_of state memory }
{
    state * SPAN + memory
}

// The state to which a code leads.
fn state_of(code: u32) -> u32
    ensures { result ≡ state_in code }
{
    if code < INSIDE {
        return code % CROSSING / SPAN;
    }
    code / 65536 % 1024
}

// The transition of a code is there and leads to no state below n. There is no branch, so that a loop over codes becomes vector code.
pub(crate) fn strays(code: u32, n: usize) -> bool
    ensures { result ≡ strays n code }
{
    (CROSSING <= code) & (n <= state_of(code) as usize)
}

// From bytes to two arrays with an entry for each cell. Nothing that follows in a translation looks at the bytes of the cells.
ghost use Rattle.std.specs.Prelude.{◌≡◌, suc, ◌+◌, ◌*◌, ◌<◌, ◌≤◌, length, get_or};
ghost use Rattle.rules.specs.Basics.{tabulate};
ghost use Rattle.rules.specs.Limits.{max_states, max_letters};
ghost use Rattle.rules.specs.Says.{over};
ghost use Rattle.survey.specs.Layouts.{wide_target};

use rules::limit::{NO_ROW, NO_STATE};
use tables::mask_of;

// The sizes and the start of a table that is laid out.
#[derive(Clone, Copy)]
pub struct Laid {
    pub states: usize,
    pub letters: usize,
    pub start: usize,
    pub ghost sizes: { (states ≤ max_states) × (letters ≤ max_letters) × (start < states) },
}

// A target as 16 bits. The rules fix both numbers of a missing transition.
fn wide_target(target: u8) -> u16
    ensures { result ≡ wide_target target }
{
    if target == NO_STATE {
        NO_ROW
    } else {
        u16::from(target)
    }
}

// Lays out the targets, one byte for each cell.
pub(crate) fn lay_targets(bytes: &[u8], targets: &mut [u16])
    requires { length bytes.now ≤ length targets.old }
    ensures { targets.new ≡ over (tabulate (length bytes.now) 0 (λ c. wide_target (get_or bytes.now c 0))) targets.old }
{
    for (c, target) in bytes.iter().enumerate() {
        targets[c] = wide_target(*target);
    }
}

// Lays out the marks, two bytes for each cell. How many cells is said apart: half of a length is no plainer.
pub(crate) fn lay_marks(bytes: &[u8], cells: usize, marks: &mut [u16])
    requires { (2 * cells ≤ length bytes.now) × (cells ≤ length marks.old) }
    ensures { marks.new ≡ over (tabulate cells 0 (λ c. get_or bytes.now (suc (2 * c)) 0 * 256 + get_or bytes.now (2 * c) 0)) marks.old }
{
    for (c, pair) in bytes[..2 * cells].chunks_exact(2).enumerate() {
        marks[c] = mask_of(pair[0], pair[1]);
    }
}

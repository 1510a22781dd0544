// The parts of the table check that look at several sizes or at every cell. The loops have no early exit and no branch: each cell costs
// the same few operations.
ghost use Rattle.std.specs.Prelude.{◌≡◌, ◌*◌, ◌≤◌, eqb, length};
ghost use Rattle.rules.specs.Basics.{pick};
ghost use Rattle.rules.specs.Limits.{max_pairs, no_state};
ghost use Rattle.rules.specs.Tables.{bad_sizes, bad_targets, bad_marks};

use crate::mask_of;
use rules::limit::{MAX_LETTERS, MAX_PAIRS, MAX_STATES, NO_STATE};

// A size is out of range.
pub(crate) fn bad_sizes(n: u8, m: u8, k: u8) -> bool
    ensures { result ≡ bad_sizes n m k }
{
    let states = (1 <= n) & (n <= MAX_STATES);
    let letters = (1 <= m) & (m <= MAX_LETTERS);
    !(states & letters & (k <= MAX_PAIRS))
}

// Some target is neither a state nor that of a missing transition. The judge's test of 16-bit targets stays beside it: one for any number would
// have to speak of an order on any type, which is no plainer.
pub(crate) fn bad_targets(targets: &[u8], n: u8) -> bool
    ensures { result ≡ bad_targets n no_state targets.now }
{
    let mut bad = false;
    // bad says whether one of the targets so far is wrong
    for target in targets {
        bad |= !((*target < n) | (*target == NO_STATE));
    }
    bad
}

// The bits that the mask of a transition must not have: all where it is missing, else those above pair k in both sets.
fn barred_bits(target: u8, above: u16) -> u16
    ensures { result ≡ pick (eqb target no_state) 65535 above }
{
    if target == NO_STATE { 65535 } else { above }
}

// Some cell has a bit above pair k, or any bit on a missing transition. Both sets of a cell are tested as one mask, which is read from
// its two bytes at once.
pub(crate) fn bad_marks(targets: &[u8], marks: &[u8], k: u8) -> bool
    requires { (2 * length targets.now ≤ length marks.now) × (k ≤ max_pairs) }
    ensures { result ≡ bad_marks k targets.now marks.now }
{
    let high = 256 - (1u16 << k);
    let above = high * 256 + high;
    let mut bad = false;
    // bad says whether one of the cells so far has a bit that it must not have
    for (c, target) in targets.iter().enumerate() {
        let mask = mask_of(marks[2 * c], marks[2 * c + 1]);
        bad |= mask & barred_bits(*target, above) != 0;
    }
    bad
}

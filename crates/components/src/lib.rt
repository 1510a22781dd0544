// The components of a transition system in time linear in its cells, and all that a state reaches with a path to each, for any number of
// states below 65,535. It rests on `rules`. `search` hands the components of any system that is `Marked` to any `Taker`, each with the marks of its
// inside transitions. The other calls know a system only as an array of targets: the cell of state q and letter a is number q · m + a, and a target
// that is no state means that there is no transition. `search`, `find_components`, `find_reached` and `path_to` keep the promises
// `ComponentsTaken`, `ComponentsFound`, `ReachFound` and `PathFound` of this crate, for all sizes and arrays; what does not fit is answered as such.
#![tactic(auto)]

pub mod marked;
pub mod named;
mod reach;
mod system;
mod walk;

ghost use Rattle.std.specs.Prelude.{◌≡◌, ◌≤◌, length, is_some, unwrap_or, IfSome};
ghost use Rattle.components.specs.Views.{IsSystem};
ghost use Rattle.components.specs.Handing.{ComponentsTaken};
ghost use Rattle.components.specs.Calls.{cells_fit, components_fit, reach_fits, ComponentsFound, ReachFound, PathFound};

use marked::{Marked, Taker};
use named::Names;
use system::{LIMIT, System};

// The system, if a search for components can begin. It needs five entries of `work` for each state, which a quotient tests since a product
// could wrap. Of `work` and `out`, which are lent to be written, only how long they are is asked.
fn searchable<'a>(
    states: usize,
    letters: usize,
    targets: &'a [u16],
    work: usize,
    out: usize,
) -> Option<System<'a>>
    ensures fits { is_some result ≡ components_fit states letters (length targets.now) work out }
    ensures same { IfSome result (IsSystem states letters targets.now) }
{
    let system = System::new(states, letters, targets)?;
    if (states <= work / 5) & (states <= out) {
        Some(system)
    } else {
        None
    }
}

// The system, if a search from a state can begin: the letters are bytes, it begins at a state, and four arrays have an entry for each state. It
// takes eight parameters, since the test that is promised (`reach_fits`) is of the lengths of four arrays, and a struct for these would be made
// and taken apart once.
fn reachable<'a>(
    states: usize,
    letters: usize,
    targets: &'a [u16],
    from: usize,
    numbers: usize,
    queue: usize,
    parents: usize,
    by: usize,
) -> Option<System<'a>>
    ensures fits { is_some result ≡ reach_fits states letters from (length targets.now) numbers queue parents by }
    ensures same { IfSome result (IsSystem states letters targets.now) }
{
    let system = System::new(states, letters, targets)?;
    let arrays = (states <= numbers) & ((states <= queue) & ((states <= parents) & (states <= by)));
    if (letters <= 256) & ((from < states) & arrays) {
        Some(system)
    } else {
        None
    }
}

// Hands over the components of all that the states from `from` up to `to` reach, and no others, each with the marks of its inside transitions; false
// where the sizes or an array do not fit. The arrays have an entry for each state, `work` four; that it has room a quotient tests, since a product
// could wrap. The entries of the states that are not reached are as they were. What `numbers` and `work` hold afterwards
// is unspecified; `numbers` is written to its end, so the time is linear in its length too.
pub fn search<C: Marked, T: Taker>(
    system: C,
    from: usize,
    to: usize,
    numbers: &mut [u16],
    work: &mut [u16],
    entries: &mut [u16],
    taker: &mut T,
) -> bool
    ensures { ComponentsTaken (C.system system) (C.marks system) T.holds from to (length numbers.old) (length work.old) entries.old entries.new taker.old taker.new result }
{
    let states = system.states();
    let arrays = (states <= numbers.len())
        & ((states <= work.len() / 4) & (states <= entries.len()));
    let range = (from <= to) & ((to <= states) & arrays);
    let fits = (states < LIMIT) & ((system.letters() < LIMIT) & range);
    if fits {
        walk::search(system, from, to, numbers, work, entries, taker);
    }
    fits
}

// The smallest state of each state's component, in the first entries of `out`; false where the sizes or an array do not fit. What `work`
// holds afterwards is unspecified. The answer is a `bool`: there is nothing beside it, as what is found lies in the arrays that are lent.
pub fn find_components(
    states: usize,
    letters: usize,
    targets: &[u16],
    work: &mut [u16],
    out: &mut [u16],
) -> bool
    ensures { ComponentsFound states letters targets.now work.old out.old out.new result }
{
    let Some(system) = searchable(states, letters, targets, work.len(), out.len()) else {
        return false;
    };
    let (numbers, work) = work.split_at_mut(states);
    walk::search(system, 0, states, numbers, work, out, &mut Names);
    true
}

// All that a state reaches: how many states are met, and in the arrays for each state its place plus 1, or 0 where it is not reached, and
// for each place the state, the place that it was met from and the letter, entries past these untouched. `None` where the sizes or an array do
// not fit. The 0 is a number of its own, and no `Option`, since the arrays go out to C as they are.
pub fn find_reached(
    states: usize,
    letters: usize,
    targets: &[u16],
    from: usize,
    numbers: &mut [u16],
    queue: &mut [u16],
    parents: &mut [u16],
    by: &mut [u8],
) -> Option<usize>
    ensures fits { is_some result ≡ reach_fits states letters from (length targets.now) (length numbers.old) (length queue.old) (length parents.old) (length by.old) }
    ensures found { ReachFound states letters from targets.now numbers.old numbers.new queue.old queue.new parents.old parents.new by.old by.new (unwrap_or result 0) }
{
    let system = reachable(
        states,
        letters,
        targets,
        from,
        numbers.len(),
        queue.len(),
        parents.len(),
        by.len(),
    )?;
    Some(reach::search(system, from, numbers, queue, parents, by))
}

// The letters of a path to the state at a place, at the end of `out`, and where they begin.
pub fn path_to(place: usize, parents: &[u16], by: &[u8], out: &mut [u8]) -> usize
    ensures { PathFound place parents.now by.now out.old out.new result }
{
    let mut begin = out.len();
    let mut i = place;
    // the letters from begin on lead from the state at place i to that at the place asked for; a `while`, as i goes where the parents lead
    while (i != 0) & ((begin != 0) & ((i < parents.len()) & (i < by.len()))) {
        begin -= 1;
        out[begin] = by[i];
        i = usize::from(parents[i]);
    }
    begin
}

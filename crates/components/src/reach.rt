// A breadth-first search from one state: states are queued as they are met, each with the place of the state that led to it and the letter.
ghost use Rattle.std.specs.Prelude.{◌≡◌, ◌+◌, ◌<◌, ◌≤◌, length};
ghost use Rattle.components.specs.Places.{at};
ghost use Rattle.components.specs.Views.{system_of};
ghost use Rattle.components.specs.Reaches.{Untouched, ReachSays};
ghost use Rattle.components.specs.Meeting.{QueuedIn, ReadSays};

use crate::marked::Marked;
use crate::system::System;

// The states that are met, and how many: each state's place plus 1, and for each place the state, the place that it was met from and the letter.
// A state that is not met has 0 for its place plus 1, and each of the four is an array, since these arrays go out to C as they are.
#[derive(Drop)]
struct Met<'a> {
    numbers: &'a mut [u16],
    queue: &'a mut [u16],
    parents: &'a mut [u16],
    by: &'a mut [u8],
    count: usize,
}

impl<'a> Met<'a> {
    // Reads letter a of the state at place k: meets its target, unless that is no state or is met already.
    fn read_letter(&mut self, system: System, target: usize, k: usize, a: usize)
        requires { QueuedIn (system_of system) self.old k a × (k < self.old.count) × (a < system.letters) × (target ≡ (system_of system).go (at self.old.queue.now k) a) }
        ensures { ReadSays (system_of system.entry) self.old self.new k (a + 1) × (at self.new.queue.now k ≡ at self.old.queue.now k) }
    {
        if system.states <= target {
            return;
        }
        if self.numbers[target] != 0 {
            return;
        }
        self.numbers[target] = (self.count + 1) as u16;
        self.queue[self.count] = target as u16;
        self.parents[self.count] = k as u16;
        self.by[self.count] = a as u8;
        self.count += 1;
    }

    // Reads all letters of the state at place k.
    fn read_state(&mut self, system: System, k: usize)
        requires { QueuedIn (system_of system) self.old k 0 × (k < self.old.count) }
        ensures { ReadSays (system_of system.entry) self.old self.new (k + 1) 0 }
    {
        let q = usize::from(self.queue[k]);
        // the letters below a of the state at place k are read
        for a in 0..system.letters {
            self.read_letter(system, system.go(q, a), k, a);
        }
    }
}

// Meets all that a state reaches, and gives how many states these are.
pub(crate) fn search(
    system: System,
    from: usize,
    numbers: &mut [u16],
    queue: &mut [u16],
    parents: &mut [u16],
    by: &mut [u8],
) -> usize
    requires { (system.letters ≤ 256) × (from < system.states) × (system.states ≤ length numbers.old) × (system.states ≤ length queue.old) × (system.states ≤ length parents.old) × (system.states ≤ length by.old) }
    ensures says { ReachSays (system_of system.entry) from result numbers.new queue.new parents.new by.new }
    ensures untouched { Untouched system.entry.states result numbers.old numbers.new queue.old queue.new parents.old parents.new by.old by.new }
{
    numbers[..system.states].fill(0);
    numbers[from] = 1;
    queue[0] = from as u16;
    let mut met = Met {
        numbers,
        queue,
        parents,
        by,
        count: 1,
    };
    let mut k = 0;
    // all letters of the states at the places below k are read; a `while`, as the states that are met become more
    while k < met.count {
        met.read_state(system, k);
        k += 1;
    }
    met.count
}

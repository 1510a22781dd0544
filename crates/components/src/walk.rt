// A depth-first search for components, in Tarjan's way. States are open from when they are met until their component is known. The open states are
// on a stack; some of them are visited, each of which but the last went on to the next by the letter that it reads next. A visited state knows the
// lowest number that it leads to, and the marks found so far in its component. When its letters are read and none leads lower than itself, it and the
// open states above it are a component, which is handed over. The time is linear in the cells: each letter is read once, each state opened and handed
// over once. All memory is the caller's, as there is no heap: the numbers, an array that is split into four equal parts, of at least n entries for n
// states, and the entries, which have an open state's next letter.
ghost use Rattle.std.specs.Prelude.{◌≡◌, ℕ, ◌+◌, ◌*◌, ◌-◌, ◌<◌, ◌≤◌, length};
ghost use Rattle.components.specs.Places.{done_number, at};
ghost use Rattle.components.specs.Walking.{Room, SearchedIn, KeptIn, Scanned, entered, numbered, begun, kept, next_is, visit_at, JoinSays, DoneFrom, HandSays, TurnSays, WalkSays, SearchSays};

use crate::marked::{Marked, Taker};

// The number of a state whose component is known, and of what is no state; 0 is that of a state not yet met. Two numbers stand for this, as the
// array that is lent holds numbers of 16 bits.
const DONE: u16 = 65535;

// What is known of each state: its number, and while it is open the letter that it reads next.
#[derive(Drop)]
struct States<'a> {
    numbers: &'a mut [u16],
    nexts: &'a mut [u16],
}

// The open states, and for each visited state but the last, in the order met, which it is, the lowest number that it leads to, and the marks found.
#[derive(Drop)]
struct Open<'a> {
    stack: &'a mut [u16],
    path: &'a mut [u16],
    lows: &'a mut [u16],
    sets: &'a mut [u16],
    count: usize,
    depth: usize,
}

// The state that is visited last: the letter that it reads next, the lowest number that it leads to, and the marks found.
#[derive(Clone, Copy)]
struct Visit {
    state: usize,
    next: usize,
    low: u16,
    set: u8,
}

// A visit after its letters up to one that leads to a state not yet met are read, and that state; or all its letters.
#[derive(Clone, Copy)]
struct Reading {
    visit: Visit,
    fresh: Option<usize>,
}

impl Visit {
    // The letter that led on is read: what it led to is done.
    fn passed(self) -> Visit
        requires { self.next < done_number }
        ensures { result ≡ record self { next = self.next + 1 } }
    {
        Visit {
            state: self.state,
            next: self.next + 1,
            low: self.low,
            set: self.set,
        }
    }

    // The letter that led on is read: what it led to leads lower than itself, so it shares the component and is visited no longer.
    fn joined<C: Marked>(self, system: C, last: Visit) -> Visit
        requires { (self.state < (C.system system).states) × (self.next < (C.system system).letters) × ((C.system system).letters < done_number) }
        ensures { JoinSays (C.marks system) self last result }
    {
        let marks = system.marks(self.state, self.next);
        Visit {
            state: self.state,
            next: self.next + 1,
            low: self.low.min(last.low),
            set: self.set | last.set | marks,
        }
    }
}

impl<'a> States<'a> {
    // Reads on, up to the first letter that leads to a state not yet met. A transition stays in the component exactly if its target is open.
    fn scan<C: Marked>(&self, system: C, visit: Visit) -> Reading
        requires state { (visit.state < (C.system system).states) × (visit.next ≤ (C.system system).letters) × (visit.low ≤ done_number) }
        requires numbers { ((C.system system).states ≤ length self.now.numbers.now) × ((q : ℕ) → (C.system system).states ≤ q → q < length self.now.numbers.now → at self.now.numbers.now q ≡ done_number) }
        ensures { Scanned (C.system system) (C.marks system) self.now visit result }
    {
        let mut low = visit.low;
        let mut set = visit.set;
        // so many letters from the visit's next one on are read: none leads to a state not yet met; they are counted from 0, since that was faster
        // (docs/DECISIONS.md, "The forecast")
        for after in 0..system.letters() - visit.next {
            let letter = visit.next + after;
            let target = system.go(visit.state, letter);
            // a target past the numbers is no state
            if self.numbers.len() <= target {
                continue;
            }
            let number = self.numbers[target];
            if number == 0 {
                return Reading {
                    visit: Visit {
                        state: visit.state,
                        next: letter,
                        low,
                        set,
                    },
                    fresh: Some(target),
                };
            }
            low = low.min(number);
            let marks = system.marks(visit.state, letter);
            // a choice and no branch: nobody can guess which targets are done
            set |= if number == DONE { 0 } else { marks };
        }
        Reading {
            visit: Visit {
                state: visit.state,
                next: system.letters(),
                low,
                set,
            },
            fresh: None,
        }
    }
}

impl<'a> Open<'a> {
    // Opens a state and visits it.
    fn enter(&mut self, q: usize, states: &mut States) -> Visit
        requires { (q < done_number) × (self.old.count < done_number) × (self.old.count < length self.old.stack.now) × (q < length states.old.numbers.now) }
        ensures { (self.new ≡ entered q self.old) × (states.new ≡ numbered q (self.old.count + 1) states.old) × (result ≡ begun q (self.old.count + 1)) }
    {
        self.stack[self.count] = q as u16;
        self.count += 1;
        states.numbers[q] = self.count as u16;
        Visit {
            state: q,
            next: 0,
            low: self.count as u16,
            set: 0,
        }
    }

    // Keeps a visit while a state is visited that it goes on to.
    fn keep(&mut self, visit: Visit, states: &mut States)
        requires small { (visit.state < done_number) × (visit.next < done_number) × (visit.state < length states.old.nexts.now) }
        requires room { (self.old.depth < done_number) × (self.old.depth < length self.old.path.now) × (self.old.depth < length self.old.lows.now) × (self.old.depth < length self.old.sets.now) }
        ensures { (self.new ≡ kept visit self.old) × (states.new ≡ next_is visit.state visit.next states.old) }
    {
        self.path[self.depth] = visit.state as u16;
        self.lows[self.depth] = visit.low;
        self.sets[self.depth] = u16::from(visit.set);
        states.nexts[visit.state] = visit.next as u16;
        self.depth += 1;
    }

    // Goes back to the visit that was kept last.
    fn back(&mut self, states: &States) -> Visit
        requires room { (0 < self.old.depth) × (self.old.depth ≤ length self.old.path.now) × (self.old.depth ≤ length self.old.lows.now) × (self.old.depth ≤ length self.old.sets.now) }
        requires visits { (k : ℕ) → k < self.old.depth → (at self.old.path.now k < length states.now.nexts.now) × (at self.old.sets.now k < 256) }
        ensures { (self.new ≡ record self.old { depth = self.old.depth - 1 }) × (result ≡ visit_at self.old states.now (self.old.depth - 1)) }
    {
        self.depth -= 1;
        let state = usize::from(self.path[self.depth]);
        Visit {
            state,
            next: usize::from(states.nexts[state]),
            low: self.lows[self.depth],
            set: self.sets[self.depth] as u8,
        }
    }

    // The states from this place on are done, marked from the last one down until the first is met: a loop over the places was slower
    // (docs/DECISIONS.md, "The forecast").
    fn mark_done(&self, from: usize, states: &mut States)
        requires room { (from < self.now.count) × (self.now.count ≤ length self.now.stack.now) × ((i : ℕ) → i < self.now.count → at self.now.stack.now i < length states.old.numbers.now) }
        requires differ { (i : ℕ) → i < self.now.count → at self.now.stack.now i ≡ at self.now.stack.now from → i ≡ from }
        ensures { DoneFrom from self.now states.old states.new }
    {
        let first = usize::from(self.stack[from]);
        let mut place = self.count - 1;
        let mut q = usize::from(self.stack[place]);
        // the states above this place are done
        while q != first {
            states.numbers[q] = DONE;
            place -= 1;
            q = usize::from(self.stack[place]);
        }
        states.numbers[first] = DONE;
    }

    // Hands over the states from this place on, a component, with the marks found there.
    fn hand_over<T: Taker>(&self, from: usize, set: u8, states: &mut States, taker: &mut T)
        requires room { (from < self.now.count) × (self.now.count ≤ length self.now.stack.now) × ((i : ℕ) → i < self.now.count → (at self.now.stack.now i < length states.old.numbers.now) × (at self.now.stack.now i < length states.old.nexts.now)) }
        requires differ { (i : ℕ) → i < self.now.count → at self.now.stack.now i ≡ at self.now.stack.now from → i ≡ from }
        ensures { HandSays T.holds from set self.now states.old states.new taker.old taker.new }
    {
        taker.take(&self.stack[from..self.count], set, states.nexts);
        self.mark_done(from, states);
    }

    // One turn of the search: reads on, and goes on to a state not yet met, or back. None at the end.
    fn turn<C: Marked, T: Taker>(
        &mut self,
        system: C,
        visit: Visit,
        states: &mut States,
        taker: &mut T,
    ) -> Option<Visit>
        requires { SearchedIn (C.system system) (C.marks system) self.old states.old visit }
        ensures { TurnSays (C.system system) (C.marks system) T.holds self.old self.new states.old states.new taker.old taker.new result }
    {
        let reading = states.scan(system, visit);
        let last = reading.visit;
        if let Some(target) = reading.fresh {
            self.keep(last, states);
            return Some(self.enter(target, states));
        }
        if last.low == states.numbers[last.state] {
            let from = usize::from(last.low) - 1;
            self.hand_over(from, last.set, states, taker);
            self.count = from;
            if self.depth == 0 {
                return None;
            }
            return Some(self.back(states).passed());
        }
        Some(self.back(states).joined(system, last))
    }

    // Searches from a state, unless it is met already. All that it reaches is handed over afterwards.
    fn walk<C: Marked, T: Taker>(
        &mut self,
        system: C,
        root: usize,
        states: &mut States,
        taker: &mut T,
    )
        requires { KeptIn (C.system system) (C.marks system) self.old states.old × (self.old.count ≡ 0) × (self.old.depth ≡ 0) × (root < (C.system system).states) }
        ensures { WalkSays (C.system system) (C.marks system) T.holds root self.old self.new states.old states.new taker.old taker.new }
    {
        if states.numbers[root] != 0 {
            return;
        }
        let mut last = Some(self.enter(root, states));
        // the states met are open, or handed over and done; a `while`, as it ends when no state is visited any more
        while let Some(visit) = last {
            last = self.turn(system, visit, states, taker);
        }
    }
}

// Hands over the components of all that the states from `from` up to `to` reach. The numbers past the states are those of what is done: where there
// is one for each number that a target can be, a missing transition is looked up like any other.
pub(crate) fn search<C: Marked, T: Taker>(
    system: C,
    from: usize,
    to: usize,
    numbers: &mut [u16],
    work: &mut [u16],
    entries: &mut [u16],
    taker: &mut T,
)
    requires small { ((C.system system).states < done_number) × ((C.system system).letters < done_number) × (from ≤ to) × (to ≤ (C.system system).states) }
    requires room { ((C.system system).states ≤ length numbers.old) × (4 * (C.system system).states ≤ length work.old) × ((C.system system).states ≤ length entries.old) }
    ensures { SearchSays (C.system system) (C.marks system) T.holds from to entries.old entries.new taker.old taker.new }
{
    let n = system.states();
    numbers.fill(DONE);
    numbers[..n].fill(0);
    // split by its own length, and not by the states: where that length is a constant, so are the places of the parts
    let part = work.len() / 4;
    let (stack, rest) = work.split_at_mut(part);
    let (path, rest) = rest.split_at_mut(part);
    let (lows, sets) = rest.split_at_mut(part);
    let mut states = States {
        numbers,
        nexts: entries,
    };
    let mut open = Open {
        stack,
        path,
        lows,
        sets,
        count: 0,
        depth: 0,
    };
    // no state is open, and what the states before this one reach is handed over
    for root in from..to {
        open.walk(system, root, &mut states, taker);
    }
}

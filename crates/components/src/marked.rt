// A system whose transitions are marked, as a search reads it, and who takes the components that are found.
ghost use Rattle.std.specs.Prelude.{◌≡◌, true, Bool, List, ℕ, ◌<◌, ◌≤◌, length, EachIndex, slice_index};
ghost use Rattle.rules.specs.Systems.{System};
ghost use Rattle.components.specs.Places.{at};
ghost use Rattle.components.specs.Visiting.{IsComponent};
ghost use Rattle.components.specs.Handing.{Holds, Lasts, HandedOver, SameBeside};

// A system, with a set of marks on each transition. A target that is no state means that there is no transition.
pub trait Marked: Copy {
    ghost system: { Self → System };

    ghost marks: { Self → ℕ → ℕ → ℕ };

    fn states(self) -> usize
        ensures { result ≡ (system self).states };

    fn letters(self) -> usize
        ensures { result ≡ (system self).letters };

    // Where a letter leads from a state.
    fn go(self, state: usize, letter: usize) -> usize
        requires { (state < (system self).states) × (letter < (system self).letters) }
        ensures { result ≡ (system self).go state letter };

    // The marks of the transition.
    fn marks(self, state: usize, letter: usize) -> u8
        requires { (state < (system self).states) × (letter < (system self).letters) }
        ensures { result ≡ marks self state letter };
}

// Who takes the components. While a state is open the search keeps its next letter in the entry of that state; once its component is handed over, the
// entry is the taker's.
pub trait Taker {
    // What holds of a taker and the entries once the components of these states of a system with these marks are handed over.
    ghost holds: { Holds Self };

    // Takes a component: its states, and a set with the marks of its inside transitions.
    fn take(&mut self, members: &[u16], set: u8, entries: &mut [u16])
        requires some { 0 < length members.now }
        requires room { EachIndex members.now (λ i. slice_index members.now i < length entries.old) }
        ensures entries { SameBeside members.now entries.old entries.new }
        ensures holds { (s : System) (marks : ℕ → ℕ → ℕ) (done done' : ℕ → Bool) → holds self.old entries.old s marks done → IsComponent s marks members.now set
            → HandedOver members.now done done' → holds self.new entries.new s marks done' };

    // It holds whatever the entries of the other states are.
    ghost lasts: { Lasts holds };
}

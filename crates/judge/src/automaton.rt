// What the run over a looped word knows of a table, of whatever kind.
ghost use Rattle.std.specs.Prelude.{◌≡◌, ℕ, ◌<◌, ◌≤◌, Bool, false, List};
ghost use Rattle.std.proofs.Common.{lit≤};
ghost use Rattle.rules.specs.Limits.{max_rows};
ghost use Rattle.rules.specs.Systems.{System};
ghost use Rattle.rules.specs.Runs.{Taken};
ghost use Rattle.judge.specs.Passes.{FewBytes, SumsUp, Joins, StepSays};

// A type of numbers, for the marks of an automaton: the run keeps a mark for each place, so they are no wider than they need to be.
pub trait Number: Copy {
    // The number that a value is.
    ghost value: { Self → ℕ };

    fn zero() -> Self
        ensures { value result ≡ 0 };

    // So an array with one for each place fits in memory.
    ghost few_bytes: { FewBytes Self.row };
}

impl Number for u8 {
    ghost value = { λ n. n };

    fn zero() -> u8 {
        0
    }

    ghost few_bytes = { lit≤ tt };
}

impl Number for u16 {
    ghost value = { λ n. n };

    fn zero() -> u16 {
        0
    }

    ghost few_bytes = { lit≤ tt };
}

// Where letters lead, and what the transitions on the way amount to.
#[derive(Clone, Copy)]
pub struct Reached<M> {
    pub place: usize,
    pub mark: M,
}

// A deterministic automaton with a mark on each transition, and at most ROOM places.
pub trait Automaton<const ROOM: usize>: Copy {
    // What a transition's mark is kept in.
    type Mark: Number;

    // Its places, letters and targets, and the place where each run begins.
    ghost system: { Self → System };

    ghost start: { Self → ℕ };

    // The mark of a transition. Marks are read by tests: what two are joined to passes just the tests that one of the two passes.
    ghost mark: { Self → Taken → ℕ };

    ghost test: { ℕ → ℕ → Bool };

    ghost join: { ℕ → ℕ → ℕ };

    // Whether the transitions that recur are good.
    ghost good: { Self → List Taken → Bool };

    fn letters(self) -> u8
        ensures { result ≡ (system self).letters };

    fn start(self) -> usize
        ensures { result ≡ start self };

    // The transition of a place by a letter, or none where it is missing.
    fn step(self, place: usize, letter: usize) -> Option<Reached<Self::Mark>>
        requires { (place < (system self).states) × (letter < (system self).letters) }
        ensures { StepSays Self.Mark.value (system self) (mark self) place letter result };

    // Two marks as one.
    fn join(self, one: Self::Mark, other: Self::Mark) -> Self::Mark
        ensures { Self.Mark.value result ≡ join (Self.Mark.value one) (Self.Mark.value other) };

    // What some marks amount to.
    fn sum(self, marks: &[Self::Mark]) -> Self::Mark
        ensures { SumsUp test Self.Mark.value marks.now (Self.Mark.value result) }
    {
        let mut sum = Self::Mark::zero();
        // sum is what the marks so far amount to
        for mark in marks {
            sum = self.join(sum, *mark);
        }
        sum
    }

    // Whether the transitions are good that a mark sums up.
    fn accepts(self, sum: Self::Mark) -> bool
        ensures { (xs : List Taken) → SumsUp test (mark self) xs (Self.Mark.value sum) → result ≡ good self xs };

    // No mark passes no test; and joining is what it is said to be.
    ghost blank: { (i : ℕ) → test i 0 ≡ false };

    ghost joins: { Joins test join };

    // The start is a place, and there is room for the places, which are few.
    ghost begins: { (a : Self) → start a < (system a).states };

    ghost fits: { (a : Self) → ((system a).states ≤ ROOM) × (ROOM ≤ max_rows) };
}

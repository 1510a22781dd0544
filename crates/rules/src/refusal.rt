// The refusals by name (RULES, "Refusals"), each with its number.
ghost use Rattle.std.specs.Prelude.{◌≡◌};
ghost use Rattle.rules.specs.Numbered.{number_of, number_in};

// Why a table, a word or an array is refused.
#[derive(Clone, Copy, PartialEq, Eq)]
pub enum Refusal {
    // Fewer bytes than the header has, or than the sizes demand.
    Short = 1,
    // A size out of range.
    Sizes = 2,
    // More bytes than the sizes demand.
    Long = 3,
    // The start is no state.
    Start = 4,
    // A target that is neither a state nor that of a missing transition.
    Target = 5,
    // A bit above pair k, or any bit on a missing transition.
    Marks = 6,
    // The capacity out of range, or a lent array too short.
    Arrays = 7,
    // More reachable rows than the capacity.
    Full = 8,
    // A byte of a word that is no letter.
    Letter = 9,
    // The loop empty, or a piece of a word too long.
    Loop = 10,
    // A parity table whose sizes, arrays or targets are out of range.
    Parity = 11,
}

impl From<Refusal> for u8 {
    ghost from_gives = { λ refusal number. number ≡ number_of refusal };

    fn from(refusal: Refusal) -> u8 {
        refusal as u8
    }
}

// The number of a result: 0 where there is no refusal. A function and no `From`, since neither type is of this crate.
pub fn number_in<T: Copy>(answer: Result<T, Refusal>) -> u8
    ensures { result ≡ number_in answer }
{
    match answer {
        Ok(_) => 0,
        Err(refusal) => u8::from(refusal),
    }
}

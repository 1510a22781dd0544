// Looped words: their refusals, the run over a word, the rest of a piece, and the judge of parity tables.
// It rests on `rules` alone. `judge_parity` and `rest_of` keep the promises `ParitySays` and `RestSays` of the rules, for all arrays, sizes and
// places; `run` judges a word on an automaton of any kind, and `words` has the refusals of a word.
#![tactic(auto)]

pub mod automaton;
mod parity;
pub mod run;
pub mod words;

ghost use Rattle.std.specs.Prelude.{◌≡◌, length};
ghost use Rattle.rules.specs.Says.{ParitySays, ParityMeans, RestSays};
ghost use Rattle.judge.specs.Judgements.{answer_of, answer_in};
ghost use Rattle.judge.specs.Parts.{rest_at};

use parity::Parity;
use rules::limit::MAX_ROWS;
use rules::refusal::Refusal;
use run::judge_word;
use std::fmt;

// A judge's answer to a looped word, for both kinds of table: the letters read before a missing transition, or a refusal's number.
// The rules name this form, so a refusal is its number here (RULES, "Forms").
#[derive(Clone, Copy, PartialEq, Eq)]
pub enum Judged {
    Accepts,
    Rejects,
    Stops(u32),
    Refused(u8),
}

impl From<Result<Judged, Refusal>> for Judged {
    ghost from_gives = { λ answer judged. answer_of judged ≡ answer_in answer };

    fn from(answer: Result<Judged, Refusal>) -> Judged {
        match answer {
            Ok(judged) => judged,
            Err(refusal) => Judged::Refused(u8::from(refusal)),
        }
    }
}

impl fmt::Display for Judged {
    ghost use Rattle.std.specs.Prelude.{Some};
    ghost use Rattle.judge.specs.Judgements.{answer_text};

    ghost output = { λ judged. Some (answer_text judged) };

    fn fmt<W: fmt::Write>(&self, f: &mut fmt::Formatter<W>) -> fmt::Result {
        match self {
            Judged::Accepts => f.write_str("accepts"),
            Judged::Rejects => f.write_str("rejects"),
            Judged::Stops(read) => write!(f, "stops {read}"),
            Judged::Refused(number) => write!(f, "refused {number}"),
        }
    }
}

// The rows for which the small arrays have room, and the middle ones: clearing arrays for the most rows would take longer than a short word
// on a table with fewer.
const SMALL_ROWS: usize = 64;

const MIDDLE_ROWS: usize = 1024;

// The answer of a table with more than a few rows, or the refusal of the word. It is a call of its own for each size, so that a smaller table makes no
// room for larger arrays, and so that the run's loop has registers enough.
#[inline(never)]
fn judge_larger<const ROOM: usize>(
    table: Parity<'_, ROOM>,
    lead: &[u8],
    looped: &[u8],
) -> Result<Judged, Refusal>
    ensures { ParitySays table.entry.rows table.entry.letters table.entry.targets.now table.entry.priorities.now lead.now looped.now (answer_in result) }
{
    judge_word(table, lead, looped)
}

// The answer of a parity table, or the refusal of the table or of the word.
fn answer_or_refusal(
    rows: usize,
    letters: usize,
    targets: &[u16],
    priorities: &[u8],
    lead: &[u8],
    looped: &[u8],
) -> Result<Judged, Refusal>
    ensures { ParitySays rows letters targets.now priorities.now lead.now looped.now (answer_in result) }
{
    let table = Parity::check(rows, letters, targets, priorities)?;
    if let Some(small) = table.within::<SMALL_ROWS>() {
        return judge_word(small, lead, looped);
    }
    if let Some(middle) = table.within::<MIDDLE_ROWS>() {
        return judge_larger(middle, lead, looped);
    }
    judge_larger(table, lead, looped)
}

// The answer of a parity table, from anyone's sizes and arrays.
pub fn judge_parity(
    rows: usize,
    letters: usize,
    targets: &[u16],
    priorities: &[u8],
    lead: &[u8],
    looped: &[u8],
) -> Judged
    ensures says { ParitySays rows letters targets.now priorities.now lead.now looped.now (answer_of result) }
    ensures means { ParityMeans rows letters targets.now priorities.now lead.now looped.now (answer_of result) }
{
    Judged::from(answer_or_refusal(rows, letters, targets, priorities, lead, looped))
}

// From a place of the word to the end of its piece, as that part of the lead-in or of the loop; past the last letter the empty
// end of the loop.
pub fn rest_of<'a>(lead: &'a [u8], looped: &'a [u8], place: usize) -> &'a [u8]
    ensures says { RestSays lead.now looped.now place result.now }
    ensures lies { result.ref_ptr ≡ rest_at lead.entry.ref_ptr (length lead.now) looped.entry.ref_ptr (length looped.now) place }
{
    if place < lead.len() {
        return &lead[place..];
    }
    let behind = place - lead.len();
    if behind < looped.len() {
        return &looped[behind..];
    }
    let end = looped.len();
    &looped[end..]
}

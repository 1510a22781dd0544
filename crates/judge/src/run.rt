// The run over a looped word: it is read pass by pass, until a pass begins where an earlier one began. Of each pass only one mark is kept,
// so the memory does not grow with the loop, and a pass is read once.
ghost use Rattle.std.specs.Prelude.{◌≡◌, ℕ, Bool, false, List, ◌<◌};
ghost use Rattle.rules.specs.Answers.{judged_by, unless_refused};
ghost use Rattle.rules.specs.Judges.{word_fault};
ghost use Rattle.rules.specs.Runs.{stray_letter};
ghost use Rattle.judge.specs.Judgements.{answer_of, answer_in};
ghost use Rattle.judge.specs.Passes.{PieceSays};

use crate::automaton::{Automaton, Number, Reached};
use crate::{Judged, words};
use rules::refusal::Refusal;

// Reads a piece from a place on, as far as the transitions lead: where it led, or the letters read before a missing transition.
fn read_piece<const ROOM: usize, A: Automaton<ROOM>>(
    automaton: A,
    piece: &[u8],
    from: usize,
) -> Result<Reached<A::Mark>, usize>
    requires { (stray_letter (A.system automaton).letters piece.now ≡ false) × (from < (A.system automaton).states) }
    ensures { PieceSays A.Mark.value (A.system automaton) A.test (A.mark automaton) from piece.now result }
{
    let mut place = from;
    let mut mark = A::Mark::zero();
    // the first i letters lead from place `from` to `place`, and mark sums up the transitions on the way
    for (i, letter) in piece.iter().enumerate() {
        let Some(next) = automaton.step(place, usize::from(*letter)) else {
            return Err(i);
        };
        mark = automaton.join(mark, next.mark);
        place = next.place;
    }
    Ok(Reached { place, mark })
}

// The answer to a word with nothing to refuse. `begun` has for each place one more than the number of the pass that began there, or 0, and
// `marks` what each pass amounts to: there is no heap, so both arrays have room for the most places.
// 0 stands for none: an Option would take twice the room, and these arrays are cleared for each word.
fn run<const ROOM: usize, A: Automaton<ROOM>>(automaton: A, lead: &[u8], looped: &[u8]) -> Judged
    requires { word_fault (A.system automaton).letters lead.now looped.now ≡ 0 }
    ensures { answer_of result ≡ judged_by (A.system automaton) (A.start automaton) lead.now looped.now (A.good automaton) }
{
    let entry = match read_piece(automaton, lead, automaton.start()) {
        Ok(entry) => entry,
        Err(read) => return Judged::Stops(read as u32),
    };
    let mut begun = [0; ROOM];
    let mut marks = [A::Mark::zero(); ROOM];
    let mut place = entry.place;
    let mut count = lead.len();
    let mut pass = 0;
    let mut first = 0;
    // the lead-in and `pass` passes, count letters in all, lead to `place`; begun and marks have these passes, and first is begun[place];
    // a while: it ends when a pass is to begin where an earlier one began
    while first == 0 {
        let reached = match read_piece(automaton, looped, place) {
            Ok(reached) => reached,
            Err(read) => return Judged::Stops((count + read) as u32),
        };
        marks[pass] = reached.mark;
        pass += 1;
        begun[place] = pass as u16;
        count += looped.len();
        place = reached.place;
        first = begun[place];
    }
    let from = usize::from(first) - 1;
    let kept = &marks[..];
    if automaton.accepts(automaton.sum(&kept[from..pass])) {
        Judged::Accepts
    } else {
        Judged::Rejects
    }
}

// The answer of an automaton to a word, or the word's refusal.
// The word stays two slices, as the calls and `rest_of` have them (RULES, "Forms"): a struct that says that the word is sound would have to
// keep the number of letters too, which the automaton has.
pub fn judge_word<const ROOM: usize, A: Automaton<ROOM>>(
    automaton: A,
    lead: &[u8],
    looped: &[u8],
) -> Result<Judged, Refusal>
    ensures { answer_in result ≡ unless_refused (word_fault (A.system automaton).letters lead.now looped.now) (judged_by (A.system automaton) (A.start automaton) lead.now looped.now (A.good automaton)) }
{
    words::word_fault(automaton.letters(), lead, looped)?;
    Ok(run(automaton, lead, looped))
}

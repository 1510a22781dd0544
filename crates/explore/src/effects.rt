// What marks do to a memory, worked out for all letters of a row before they are read: once where all have the same marks.
ghost use Rattle.std.specs.Prelude.{◌≡◌, true, ℕ, ◌<◌, ◌≤◌, length};
ghost use Rattle.explore.specs.Effects.{effect_by_pairs, IsEffect, SameMarks, EffectsTo, EffectsOn};

use crate::codes::{SPAN, marks_of};
use records::Record;

// What marks do to a memory. A rule is a type parameter and not a value, so that the loop over letters becomes vector code for each.
pub trait Rule {
    // The effect of marks on a memory: the memory after the move, and the span times the priority.
    ghost effect: { ℕ → ℕ → ℕ };

    fn effect(memory: u32, marks: u16) -> u32
        ensures { IsEffect effect memory marks result };
}

// Index appearance records: the prohibited pairs move to the front. They are in the lower byte of the marks, the required ones in the upper.
#[derive(Clone, Copy)]
pub struct Pairs;

impl Rule for Pairs {
    ghost effect = { effect_by_pairs };

    // There is no branch, so that a loop over marks becomes vector code.
    fn effect(memory: u32, marks: u16) -> u32 {
        let order = Record { code: memory };
        let prohibited = (marks % 256) as u8;
        let required = (marks / 256) as u8;
        let next = order.moved(prohibited);
        let priority = order.priority(prohibited, required);
        SPAN * u32::from(priority) + next.code
    }
}

// All codes of a row have the same marks.
fn are_alike(row: &[u32]) -> bool
    requires { 0 < length row.now }
    ensures { result ≡ true → SameMarks (length row.now) row.now }
{
    let marks = marks_of(row[0]);
    // no early exit and no branch
    row.iter()
        .fold(true, |same, code| same & (marks_of(*code) == marks))
}

// Writes the effects of the codes of a row, side by side.
fn write_each<R: Rule>(memory: u32, row: &[u32], effects: &mut [u32])
    requires { length row.now ≤ length effects.old }
    ensures { EffectsTo R.effect memory (length row.now) row.now effects.new }
{
    // the effects of the codes below a are written
    for (a, code) in row.iter().enumerate() {
        effects[a] = R::effect(memory, marks_of(*code));
    }
}

// Writes the effects of the codes of a row on its memory, and gives the stride: letter a has effect number a · stride. It is 0 where one effect
// serves for all letters, else 1: a number and no flag, so that reading a letter's effect has no branch. Without a stride,
// random tables take 0.84 of the tuned side's time instead of 0.57, and two of them miss the bar of 1.0 (docs/DECISIONS.md, "The effects of a row's
// marks before its letters").
pub(crate) fn write_effects<R: Rule>(memory: u32, row: &[u32], effects: &mut [u32]) -> usize
    requires { (0 < length row.now) × (length row.now ≤ length effects.old) }
    ensures { EffectsOn R.effect memory (length row.now) result row.now effects.new }
{
    if are_alike(row) {
        write_each::<R>(memory, &row[..1], effects);
        return 0;
    }
    write_each::<R>(memory, row, effects);
    1
}

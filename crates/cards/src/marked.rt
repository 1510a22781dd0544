// The cards with a star (RULES, "Cards"): each function works out what a card of the rules' list says, and its contract says that the result is the
// card's. It rests on the translator, the survey of tables, both judges and the records.
ghost use Rattle.std.specs.Prelude.{◌≡◌, ◌<◌};
ghost use Rattle.rules.specs.Says.{TranslateSays, row_arrays};
ghost use Rattle.rules.specs.Numbered.{number_in};
ghost use Rattle.rules.specs.Tables.{table_of, table_fault};
ghost use Rattle.rules.specs.Cards.{judged, moves, counted, IsCard};
ghost use Rattle.records.specs.Packed.{packed, pairs_in};
ghost use Rattle.translate.specs.Answers.{rows_in};
ghost use Rattle.judge.specs.Judgements.{answer_of};
ghost use Rattle.cards.specs.Marked.{pairs_of, HasCard, TranslatedAs};

use judge::{Judged, judge_parity};
use judge_rabin::judge_rabin;
use records::Record;
use rules::refusal::Refusal;
use survey::{lay_table, survey_cells};
use tables::letters_of;
use translate::translate_table;

// The most rows, and their cells with 16 letters.
pub(crate) const ROWS: usize = 4096;

pub(crate) const CELLS: usize = 65536;

// The arrays of a translation, side by side, as the translator is lent them.
#[derive(Drop)]
pub(crate) struct Arrays<const ROWS: usize, const CELLS: usize> {
    pub targets: [u16; CELLS],
    pub priorities: [u8; CELLS],
    pub sources: [u8; ROWS],
    pub records: [u32; ROWS],
}

impl<const ROWS: usize, const CELLS: usize> Arrays<ROWS, CELLS> {
    // Arrays full of a number.
    pub(crate) fn full_of(number: u8) -> Self {
        Arrays {
            targets: [u16::from(number); CELLS],
            priorities: [number; CELLS],
            sources: [number; ROWS],
            records: [u32::from(number); ROWS],
        }
    }

    // Translates a table into the arrays.
    pub(crate) fn translate(&mut self, table: &[u8], capacity: usize) -> Result<usize, Refusal>
        ensures { TranslateSays table.now capacity (row_arrays self.old.targets self.old.priorities self.old.sources self.old.records) (row_arrays self.new.targets self.new.priorities self.new.sources self.new.records) (number_in result) (rows_in result) }
    {
        translate_table(
            table,
            capacity,
            &mut self.targets,
            &mut self.priorities,
            &mut self.sources,
            &mut self.records,
        )
    }
}

// What both tables answer.
#[derive(Clone, Copy)]
pub(crate) struct Verdicts {
    pub rabin: Judged,
    pub parity: Judged,
}

// Translates the table of a card: the arrays then begin with what the card says.
pub(crate) fn translate_card(table: &[u8], arrays: &mut Arrays<ROWS, CELLS>) -> usize
    requires { HasCard table.now }
    ensures { TranslatedAs table.now (row_arrays arrays.new.targets arrays.new.priorities arrays.new.sources arrays.new.records) result }
{
    arrays.translate(table, ROWS).unwrap_or(0)
}

// Asks both tables about the word of a card, whose answer is `expected`.
pub(crate) fn judge_card(table: &[u8], lead: &[u8], looped: &[u8], expected: Judged) -> Verdicts
    requires { IsCard (judged table.now lead.now looped.now (answer_of expected)) }
    ensures { (answer_of result.rabin ≡ answer_of expected) × (answer_of result.parity ≡ answer_of expected) }
{
    let mut arrays = Arrays::<ROWS, CELLS>::full_of(0);
    let rows = arrays.translate(table, ROWS).unwrap_or(0);
    Verdicts {
        rabin: judge_rabin(table, lead, looped),
        parity: judge_parity(
            rows,
            usize::from(letters_of(table)),
            &arrays.targets,
            &arrays.priorities,
            lead,
            looped,
        ),
    }
}

// Moves the pairs of a set to the front of the record of a card, which then is `expected`.
pub(crate) fn move_card(before: Record, pairs: u8, expected: Record) -> Record
    requires { IsCard (moves (pairs_in before.code) (pairs_of pairs) (pairs_in expected.code)) × (before.code ≡ packed (pairs_in before.code)) }
    ensures { pairs_in result.code ≡ pairs_in expected.code }
{
    before.moved(pairs)
}

// Surveys the table of a card: the record of the pairs that count at a state, rising, is `expected`.
pub(crate) fn count_card(table: &[u8], state: u8, expected: Record) -> Record
    requires { IsCard (counted table.now state (pairs_in expected.code)) × (table_fault table.now ≡ 0) × (state < (table_of table.now).states) }
    ensures { result.code ≡ packed (pairs_in expected.code) }
{
    let mut targets = [0; 1024];
    let mut marks = [0; 1024];
    let mut homes = [0; 64];
    let mut sets = [0; 64];
    let Ok(laid) = lay_table(table, &mut targets, &mut marks) else {
        unreachable!()
    };
    survey_cells(
        laid.states,
        laid.letters,
        &targets,
        &marks,
        &mut homes,
        &mut sets,
    );
    Record::rising(sets[usize::from(state)])
}

// The public calls on tables and words for C and Rust: a slice goes out as a pointer and a length, an answer as two numbers.
// It rests on `components`, `tables`, `survey`, `forecast`, `translate`, `judge`, `judge_rabin` and `listing_text`, passes each call on as it is, and only turns an answer
// into numbers and a part into its place. Each call keeps the promise of the one that it passes on to, for all bytes, arrays, sizes and places.
#![tactic(auto)]

ghost use Rattle.std.specs.Prelude.{◌≡◌};
ghost use Rattle.rules.specs.Says.{CheckSays, ComponentsSay, ComponentsMean, TranslateSays, TranslationAgrees, TranslationMeans, ForecastSays, ForecastMeans, RabinSays, RabinMeans, ParitySays, ParityMeans, row_arrays};
ghost use Rattle.rules.specs.Listings.{ListingSays};
ghost use Rattle.rules.specs.Numbered.{number_in};
ghost use Rattle.rules.specs.Tables.{table_of};
ghost use Rattle.translate.specs.Answers as Translated;
ghost use Rattle.forecast.specs.Forecasts as Foretold;
ghost use Rattle.components.specs.Calls.{ComponentsFound, ReachFound, PathFound};
ghost use Rattle.judge.specs.Judgements.{answer_of};
ghost use Rattle.exported.specs.Results.{answered, RestLies};

use components::{find_reached, path_to};
use forecast::forecast_table;
use judge::{Judged, judge_parity, rest_of};
use judge_rabin::judge_rabin;
use listing_text::list_table;
use rules::refusal::{Refusal, number_in};
use survey::find_components;
use tables::{check_table, letters_of};
use translate::translate_table;

// What a translation gives, in numbers for C: the refusal or 0, and the number of rows, 0 on a refusal.
#[repr(C)]
#[derive(Clone, Copy)]
pub struct Translation {
    pub number: u8,
    pub rows: usize,
}

impl From<Result<usize, Refusal>> for Translation {
    ghost from_gives = { λ answer translation. (translation.number ≡ number_in answer) × (translation.rows ≡ Translated.rows_in answer) };

    fn from(answer: Result<usize, Refusal>) -> Translation {
        match answer {
            Ok(rows) => Translation { number: 0, rows },
            Err(refusal) => Translation {
                number: u8::from(refusal),
                rows: 0,
            },
        }
    }
}

// What a forecast gives, in numbers for C: the refusal or 0, and the figures, 0 on a refusal: the most rows, and the most pairs that count in one
// component.
#[repr(C)]
#[derive(Clone, Copy)]
pub struct Forecast {
    pub number: u8,
    pub rows: u32,
    pub pairs: u8,
}

impl From<Result<forecast::Forecast, Refusal>> for Forecast {
    ghost from_gives = { λ answer forecast. (forecast.number ≡ number_in answer) × (forecast.rows ≡ Foretold.rows_in answer) × (forecast.pairs ≡ Foretold.pairs_in answer) };

    fn from(answer: Result<forecast::Forecast, Refusal>) -> Forecast {
        match answer {
            Ok(forecast) => Forecast {
                number: 0,
                rows: forecast.rows,
                pairs: forecast.pairs,
            },
            Err(refusal) => Forecast {
                number: u8::from(refusal),
                rows: 0,
                pairs: 0,
            },
        }
    }
}

// A judge's answer as two numbers for C (RULES, "Judges"): 0 accepts, 1 rejects, 2 stops with the letters read, 3 refused with the number.
#[repr(C)]
#[derive(Clone, Copy)]
pub struct Answer {
    pub kind: u32,
    pub value: u32,
}

impl From<Judged> for Answer {
    ghost from_gives = { λ judged answer. answered answer ≡ answer_of judged };

    fn from(judged: Judged) -> Answer {
        match judged {
            Judged::Accepts => Answer { kind: 0, value: 0 },
            Judged::Rejects => Answer { kind: 1, value: 0 },
            Judged::Stops(read) => Answer {
                kind: 2,
                value: read,
            },
            Judged::Refused(number) => Answer {
                kind: 3,
                value: u32::from(number),
            },
        }
    }
}

// Where the rest of a piece lies, in numbers for C: in the lead-in (0) or in the loop (1), from which letter of that piece on, and how many letters
// it has.
#[repr(C)]
#[derive(Clone, Copy)]
pub struct Rest {
    pub piece: usize,
    pub start: usize,
    pub length: usize,
}

// The table's refusal, 1 to 6, or 0 where the table is well formed.
#[unsafe(no_mangle)]
pub extern "C" fn duckbullion_check_table(table: &[u8]) -> u8
    ensures { CheckSays table.now result }
{
    number_in(check_table(table))
}

// The table's letters: its second byte, 0 where there is none.
#[unsafe(no_mangle)]
pub extern "C" fn duckbullion_letters_of(table: &[u8]) -> u8
    ensures { result ≡ (table_of table.now).letters }
{
    letters_of(table)
}

// The smallest state of each state's component, in the first n entries of `out`.
#[unsafe(no_mangle)]
pub extern "C" fn duckbullion_find_components(table: &[u8], out: &mut [u8]) -> u8
    ensures says { ComponentsSay table.now out.old out.new result }
    ensures means { ComponentsMean table.now out.new result }
{
    number_in(find_components(table, out))
}

// The smallest state of each state's component of a system in an array, in the first entries of `out`, with an array to work in.
#[unsafe(no_mangle)]
pub extern "C" fn duckbullion_find_components_of_system(
    states: usize,
    letters: usize,
    targets: &[u16],
    work: &mut [u16],
    out: &mut [u16],
) -> bool
    ensures { ComponentsFound states letters targets.now work.old out.old out.new result }
{
    components::find_components(states, letters, targets, work, out)
}

// All that a state of a system in an array reaches, with the place that each state was met from and the letter.
#[unsafe(no_mangle)]
pub extern "C" fn duckbullion_find_reached(
    states: usize,
    letters: usize,
    targets: &[u16],
    from: usize,
    numbers: &mut [u16],
    queue: &mut [u16],
    parents: &mut [u16],
    by: &mut [u8],
) -> usize
    ensures { ReachFound states letters from targets.now numbers.old numbers.new queue.old queue.new parents.old parents.new by.old by.new result }
{
    find_reached(states, letters, targets, from, numbers, queue, parents, by).unwrap_or(0)
}

// The letters of a path to the state at a place, at the end of `out`, and where they begin.
#[unsafe(no_mangle)]
pub extern "C" fn duckbullion_path_to(
    place: usize,
    parents: &[u16],
    by: &[u8],
    out: &mut [u8],
) -> usize
    ensures { PathFound place parents.now by.now out.old out.new result }
{
    path_to(place, parents, by, out)
}

// How many rows the translation of a table can have, and how many pairs one record, from the table alone.
#[unsafe(no_mangle)]
pub extern "C" fn duckbullion_forecast_table(table: &[u8]) -> Forecast
    ensures says { ForecastSays table.now result.number result.rows result.pairs }
    ensures means { ForecastMeans table.now result.number result.rows result.pairs }
{
    Forecast::from(forecast_table(table))
}

// The parity table of a Rabin table, in the lent arrays.
#[unsafe(no_mangle)]
pub extern "C" fn duckbullion_translate_table(
    table: &[u8],
    capacity: usize,
    targets: &mut [u16],
    priorities: &mut [u8],
    sources: &mut [u8],
    records: &mut [u32],
) -> Translation
    ensures says { TranslateSays table.now capacity (row_arrays targets.old priorities.old sources.old records.old) (row_arrays targets.new priorities.new sources.new records.new) result.number result.rows }
    ensures agrees { TranslationAgrees table.now targets.new priorities.new sources.new result.number result.rows }
    ensures means { TranslationMeans table.now capacity result.number }
{
    Translation::from(translate_table(table, capacity, targets, priorities, sources, records))
}

// The listing of a table's translation, in `out` as far as it fits; the result is the length of the whole text.
#[unsafe(no_mangle)]
pub extern "C" fn duckbullion_list_table(
    table: &[u8],
    capacity: usize,
    targets: &mut [u16],
    priorities: &mut [u8],
    sources: &mut [u8],
    records: &mut [u32],
    out: &mut [u8],
) -> usize
    ensures { ListingSays table.now capacity (row_arrays targets.old priorities.old sources.old records.old) (row_arrays targets.new priorities.new sources.new records.new) out.old out.new result }
{
    list_table(table, capacity, targets, priorities, sources, records, out)
}

// The answer of a Rabin table to a looped word.
#[unsafe(no_mangle)]
pub extern "C" fn duckbullion_judge_rabin(table: &[u8], lead: &[u8], looped: &[u8]) -> Answer
    ensures says { RabinSays table.now lead.now looped.now (answered result) }
    ensures means { RabinMeans table.now lead.now looped.now (answered result) }
{
    Answer::from(judge_rabin(table, lead, looped))
}

// The answer of a parity table to a looped word, from anyone's sizes and arrays.
#[unsafe(no_mangle)]
pub extern "C" fn duckbullion_judge_parity(
    rows: usize,
    letters: usize,
    targets: &[u16],
    priorities: &[u8],
    lead: &[u8],
    looped: &[u8],
) -> Answer
    ensures says { ParitySays rows letters targets.now priorities.now lead.now looped.now (answered result) }
    ensures means { ParityMeans rows letters targets.now priorities.now lead.now looped.now (answered result) }
{
    Answer::from(judge_parity(rows, letters, targets, priorities, lead, looped))
}

// From a place of the word to the end of its piece: which piece, from where, and how many letters.
#[unsafe(no_mangle)]
pub extern "C" fn duckbullion_rest_of<'a>(lead: &'a [u8], looped: &'a [u8], place: usize) -> Rest
    ensures { RestLies lead.now looped.now place result.piece result.start result.length }
{
    let part = rest_of(lead, looped, place);
    let length = part.len();
    if place < lead.len() {
        return Rest {
            piece: 0,
            start: place,
            length,
        };
    }
    let start = looped.len() - length;
    Rest {
        piece: 1,
        start,
        length,
    }
}

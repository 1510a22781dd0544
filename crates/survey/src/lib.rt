// Lays a Rabin table out in arrays, and says of each state its component and the pairs that count there: a translation looks at no bytes after that.
// It rests on `tables`, which checks the bytes, and on `components`. `find_components` keeps the promises `ComponentsSay` and `ComponentsMean` of the
// rules, `lay_table` and `survey_cells` keep `LaySays` and `SurveySays` of this crate, for all bytes, sizes and arrays.
#![tactic(auto)]

use cells::{Cells, Counted};
use components::search;
pub use layout::Laid;
use rules::limit::{MAX_LETTERS, MAX_STATES};
use rules::refusal::Refusal;
use tables::check_table;

mod cells;
mod homes;
mod layout;

ghost use Rattle.std.specs.Prelude.{◌≡◌};
ghost use Rattle.rules.specs.Numbered.{number_in};
ghost use Rattle.rules.specs.Says.{ComponentsSay, ComponentsMean};
ghost use Rattle.survey.specs.Laid.{states_in, letters_in, start_in};
ghost use Rattle.survey.specs.Layouts.{LaySays, survey_fits, SurveySays};

// The smallest state of each state's component, in the first n entries of `out`.
pub fn find_components(table: &[u8], out: &mut [u8]) -> Result<(), Refusal>
    ensures says { ComponentsSay table.now out.old out.new (number_in result) }
    ensures means { ComponentsMean table.now out.new (number_in result) }
{
    let table = check_table(table)?;
    let n = table.states();
    if out.len() < n {
        return Err(Refusal::Arrays);
    }
    let mut targets = [0; MAX_STATES as usize * MAX_LETTERS as usize];
    let mut homes = [0; MAX_STATES as usize];
    layout::lay_targets(table.targets(), &mut targets);
    let mut work = [0; 5 * MAX_STATES as usize];
    components::find_components(n, table.letters(), &targets, &mut work, &mut homes);
    homes::narrow(&homes[..n], out);
    Ok(())
}

// Lays a table out: for each cell its target and its marks, at the front of both arrays.
pub fn lay_table(table: &[u8], targets: &mut [u16], marks: &mut [u16]) -> Result<Laid, Refusal>
    ensures { LaySays table.now targets.old targets.new marks.old marks.new (number_in result) (states_in result) (letters_in result) (start_in result) }
{
    let table = check_table(table)?;
    let laid = Laid {
        states: table.states(),
        letters: table.letters(),
        start: table.start(),
    };
    let cells = laid.states * laid.letters;
    if (targets.len() < cells) | (marks.len() < cells) {
        return Err(Refusal::Arrays);
    }
    layout::lay_targets(table.targets(), targets);
    layout::lay_marks(table.marks(), cells, marks);
    Ok(laid)
}

// The sizes are those of a table, and the arrays have room. Six numbers: of four arrays, of which two are lent to be written, only how long they are
// is asked.
fn survey_fits(
    states: usize,
    letters: usize,
    targets: usize,
    marks: usize,
    homes: usize,
    counted: usize,
) -> bool
    ensures { result ≡ survey_fits states letters targets marks homes counted }
{
    if (usize::from(MAX_STATES) < states) | (usize::from(MAX_LETTERS) < letters) {
        return false;
    }
    let cells = states * letters;
    (cells <= targets) & ((cells <= marks) & ((states <= homes) & (states <= counted)))
}

// Surveys laid-out cells: for each state the number of its component and the pairs that count there, at the front of both arrays; false
// where the sizes or an array do not fit. The answer is a `bool`: there is nothing beside it, as what is found lies in the arrays that are lent.
pub fn survey_cells(
    states: usize,
    letters: usize,
    targets: &[u16],
    marks: &[u16],
    homes: &mut [u16],
    counted: &mut [u8],
) -> bool
    ensures { SurveySays states letters targets.now marks.now homes.old homes.new counted.old counted.new result }
{
    let fits = survey_fits(
        states,
        letters,
        targets.len(),
        marks.len(),
        homes.len(),
        counted.len(),
    );
    if !fits {
        return false;
    }
    let cells = Cells {
        states,
        letters,
        targets,
        marks,
    };
    let mut numbers = [0; MAX_STATES as usize];
    let mut work = [0; 4 * MAX_STATES as usize];
    let mut taker = Counted {
        sets: [0; MAX_STATES as usize],
    };
    search(cells, 0, states, &mut numbers, &mut work, homes, &mut taker);
    // the states before this one have the set of their component, read at its smallest state: a loop that only copied the sets would become a call
    // of the C library
    let named = &homes[..states];
    for (q, home) in named.iter().enumerate() {
        counted[q] = taker.sets[usize::from(*home)];
    }
    true
}

// The forecast of a Rabin table: how many rows its translation can have, and how many pairs one record, from the table alone.
// It rests on `tables`, which checks the bytes, and on `components`, which hands over the components that the start reaches in one search of the
// bytes. `forecast_table` keeps the promises `ForecastSays` and `ForecastMeans` of the rules, for all bytes.
#![tactic(auto)]

ghost use Rattle.rules.specs.Numbered.{number_in};
ghost use Rattle.rules.specs.Says.{ForecastSays, ForecastMeans};
ghost use Rattle.rules.specs.Tables.{table_of};
ghost use Rattle.forecast.specs.Figures.{FiguresAre};
ghost use Rattle.forecast.specs.Forecasts.{rows_in, pairs_in};

use cells::Cells;
use components::search;
use rules::limit::MAX_STATES;
use rules::refusal::Refusal;
use sum::Sum;
use tables::{Table, check_table};

mod cells;
mod sum;

// The figures of a table: the most rows, and the most pairs that count in one component.
#[derive(Clone, Copy)]
pub struct Forecast {
    pub rows: u32,
    pub pairs: u8,
}

// The figures of a table that passed its check. The search begins at the start alone. There is a number for each byte, not only for each state, so
// that a missing target, 255, can be looked up like any other. A call of its own: built into its caller, the scan has fewer registers.
#[inline(never)]
fn figures_of(table: Table) -> Forecast
    ensures { FiguresAre (table_of table.entry.bytes.now) result.rows result.pairs }
{
    let start = table.start();
    let mut numbers = [0; 256];
    let mut work = [0; 4 * MAX_STATES as usize];
    let mut entries = [0; MAX_STATES as usize];
    let mut sum = Sum { rows: 0, pairs: 0 };
    search(
        Cells::of(table),
        start,
        start + 1,
        &mut numbers,
        &mut work,
        &mut entries,
        &mut sum,
    );
    Forecast {
        rows: sum.rows as u32,
        pairs: sum.pairs as u8,
    }
}

// The forecast of a table.
pub fn forecast_table(table: &[u8]) -> Result<Forecast, Refusal>
    ensures says { ForecastSays table.now (number_in result) (rows_in result) (pairs_in result) }
    ensures means { ForecastMeans table.now (number_in result) (rows_in result) (pairs_in result) }
{
    let table = check_table(table)?;
    Ok(figures_of(table))
}

// Lists the translation of a Rabin table as text.
// It rests on `translate`, which fills the four lent arrays, and writes what they hold line by line. `list_table` keeps the promise
// `ListingSays` of the rules for every byte string and every array.
#![tactic(auto)]

use lines::{Rows, put_refusal};
use text::Writer;
use translate::translate_table;

mod lines;
mod text;

ghost use Rattle.rules.specs.Says.{row_arrays};
ghost use Rattle.rules.specs.Listings.{ListingSays};

// The listing of a table's translation, in `out` as far as it fits; the result is the length of the whole text. The parity table is left
// in the other arrays, as `translate_table` leaves it.
pub fn list_table(
    table: &[u8],
    capacity: usize,
    targets: &mut [u16],
    priorities: &mut [u8],
    sources: &mut [u8],
    records: &mut [u32],
    out: &mut [u8],
) -> usize
    ensures { ListingSays table.now capacity (row_arrays targets.old priorities.old sources.old records.old) (row_arrays targets.new priorities.new sources.new records.new) out.old out.new result }
{
    let translation = translate_table(table, capacity, targets, priorities, sources, records);
    let mut text = Writer::new(out);
    match translation {
        Ok(count) => {
            let rows = Rows {
                count,
                letters: usize::from(table[1]),
                targets,
                priorities,
                sources,
                records,
            };
            rows.put(&mut text, table[2]);
        }
        Err(refusal) => put_refusal(&mut text, refusal),
    }
    text.len()
}

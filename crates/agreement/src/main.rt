// The translator and both judges, end to end. `judge_both` is demand 3 as a program: over any table, capacity, word and lent arrays
// its contract says, from the contracts of the calls alone, that where the table is translated both judges give the same
// answer. `main` runs it on the cards about words (RULES, "Cards"); what is printed is compared with `stdout`, which was written from
// the rules.
#![tactic(auto)]

ghost use Rattle.std.specs.Prelude.{◌≡◌};
ghost use Rattle.rules.specs.Says.{RabinSays, ParitySays, TranslateSays, row_arrays};
ghost use Rattle.rules.specs.Numbered.{number_in};
ghost use Rattle.rules.specs.Tables.{table_of};
ghost use Rattle.translate.specs.Answers.{rows_in};
ghost use Rattle.judge.specs.Judgements.{answer_of};

use judge::{Judged, judge_parity};
use judge_rabin::judge_rabin;
use rules::refusal::{Refusal, number_in};
use std::io;
use tables::letters_of;
use translate::translate_table;

// The rows that are lent, and their cells.
const ROWS: usize = 4;

const CELLS: usize = 8;

// What the translator gives, and the answers of both tables.
#[derive(Clone, Copy)]
struct Verdicts {
    translation: Result<usize, Refusal>,
    rabin: Judged,
    parity: Judged,
}

// Translates a table, and asks both tables about one word. The arrays come as the translator is lent them, since the promise is over any.
fn judge_both(
    table: &[u8],
    capacity: usize,
    lead: &[u8],
    looped: &[u8],
    targets: &mut [u16],
    priorities: &mut [u8],
    sources: &mut [u8],
    records: &mut [u32],
) -> Verdicts
    ensures translation { TranslateSays table.now capacity (row_arrays targets.old priorities.old sources.old records.old) (row_arrays targets.new priorities.new sources.new records.new) (number_in result.translation) (rows_in result.translation) }
    ensures rabin { RabinSays table.now lead.now looped.now (answer_of result.rabin) }
    ensures parity { ParitySays (rows_in result.translation) (table_of table.now).letters targets.new priorities.new lead.now looped.now (answer_of result.parity) }
    ensures agree { number_in result.translation ≡ 0 → result.parity ≡ result.rabin }
{
    let translation = translate_table(table, capacity, targets, priorities, sources, records);
    let rows = translation.unwrap_or(0);
    let letters = usize::from(letters_of(table));
    Verdicts {
        translation,
        rabin: judge_rabin(table, lead, looped),
        parity: judge_parity(rows, letters, targets, priorities, lead, looped),
    }
}

// Translates a table and prints the translator's number and both answers to a word.
fn run(
    rt: &impl Print,
    table: &[u8],
    capacity: usize,
    lead: &[u8],
    looped: &[u8],
) -> io::Result<()> {
    let mut targets = [0; CELLS];
    let mut priorities = [0; CELLS];
    let mut sources = [0; ROWS];
    let mut records = [0; ROWS];
    let verdicts = judge_both(
        table,
        capacity,
        lead,
        looped,
        &mut targets,
        &mut priorities,
        &mut sources,
        &mut records,
    );
    println!(rt;
        "{} {} {} ",
        number_in(verdicts.translation),
        verdicts.rabin,
        verdicts.parity
    )
}

fn main(rt: HostRuntime) -> io::Result<()> {
    let t = b"\x02\x02\x02\x00\x00\x01\x00\x01\x01\x02\x00\x00\x00\x01\x02\x00";
    run(&rt, t, 4, b"", b"\x00")?;
    run(&rt, t, 4, b"", b"\x01")?;
    run(&rt, t, 4, b"", b"\x00\x01")?;
    run(&rt, t, 4, b"", b"\x01\x01\x00")?;
    run(&rt, t, 4, b"", b"\x01\x01\x00\x00")?;
    run(&rt, t, 4, b"\x02", b"")?;
    run(&rt, t, 4, b"\x02", b"\x00")?;
    run(&rt, t, 3, b"", b"\x00")?;
    let partial = b"\x01\x02\x00\x00\x00\xff\x00\x00\x00\x00";
    run(&rt, partial, 1, b"", b"\x00\x01")?;
    run(&rt, partial, 1, b"\x00\x00", b"\x01")
}

// Runs the cards (RULES, "Cards"). Of those with a star, `marked` proves that each gives what the rules' list says. Of the others it runs
// one: T with capacity 4 is translated, with capacity 3 it is refused 8, the arrays being lent full of nines, one row longer than the
// capacity. What is printed is compared with `stdout`, which was written from the rules.
#![tactic(auto)]

use judge::Judged;
use marked::{Arrays, count_card, judge_card, move_card, translate_card};
use records::Record;
use rules::refusal::number_in;
use std::io;

mod marked;

ghost use Rattle.std.specs.Prelude.{◌≡◌, ◌<◌, ◌≤◌, length};
ghost use Rattle.rules.specs.Tables.{table_of, table_fault};
ghost use Rattle.rules.specs.Cards.{judged, moves, counted, IsCard};
ghost use Rattle.records.specs.Packed.{packed, pairs_in};
ghost use Rattle.judge.specs.Judgements.{answer_of};
ghost use Rattle.cards.specs.Marked.{pairs_of, HasCard};

// The table T: two states, two letters, two pairs.
const T: &[u8] = b"\x02\x02\x02\x00\x00\x01\x00\x01\x01\x02\x00\x00\x00\x01\x02\x00";

// The rows that are lent for it, and their cells.
const ROWS: usize = 5;

const CELLS: usize = 10;

// Prints a row: its source state and its record's number, then the target and the priority of both its letters.
fn put_row(
    rt: &impl Print,
    state: u8,
    record: u32,
    targets: &[u16],
    priorities: &[u8],
) -> io::Result<()>
    requires { (2 ≤ length targets.now) × (2 ≤ length priorities.now) }
{
    println!(rt;
        "{state} {record} {} {} {} {} ",
        targets[0], priorities[0], targets[1], priorities[1]
    )
}

// Translates T with a capacity: the number and the rows, then every row lent.
fn run(rt: &impl Print, capacity: usize) -> io::Result<()> {
    let mut arrays = Arrays::<ROWS, CELLS>::full_of(9);
    let result = arrays.translate(T, capacity);
    println!(rt; "{} {} ", number_in(result), result.unwrap_or(0))?;
    for row in 0..ROWS {
        put_row(
            rt,
            arrays.sources[row],
            arrays.records[row],
            &arrays.targets[2 * row..],
            &arrays.priorities[2 * row..],
        )?;
    }
    Ok(())
}

// Runs the card of a word: what both tables answer.
fn run_word(
    rt: &impl Print,
    table: &[u8],
    lead: &[u8],
    looped: &[u8],
    expected: Judged,
) -> io::Result<()>
    requires { IsCard (judged table.now lead.now looped.now (answer_of expected)) }
{
    let verdicts = judge_card(table, lead, looped, expected);
    println!(rt; "{} {} ", verdicts.rabin, verdicts.parity)
}

// Runs the card of a translation: how many rows, then the first row's source state and record, and the first two cells.
fn run_translation(rt: &impl Print, table: &[u8]) -> io::Result<()>
    requires { HasCard table.now }
{
    let mut arrays = Arrays::full_of(0);
    let rows = translate_card(table, &mut arrays);
    print!(rt; "{rows} ")?;
    put_row(
        rt,
        arrays.sources[0],
        arrays.records[0],
        &arrays.targets,
        &arrays.priorities,
    )
}

// Runs the card of a move: the number of the record.
fn run_move(rt: &impl Print, before: Record, pairs: u8, expected: Record) -> io::Result<()>
    requires { IsCard (moves (pairs_in before.code) (pairs_of pairs) (pairs_in expected.code)) × (before.code ≡ packed (pairs_in before.code)) }
{
    println!(rt; "{} ", move_card(before, pairs, expected).number())
}

// Runs the card of the pairs that count at a state: the number of their record.
fn run_count(rt: &impl Print, table: &[u8], state: u8, expected: Record) -> io::Result<()>
    requires { IsCard (counted table.now state (pairs_in expected.code)) × (table_fault table.now ≡ 0) × (state < (table_of table.now).states) }
{
    println!(rt; "{} ", count_card(table, state, expected).number())
}

// The cards of T.
fn run_t(rt: &impl Print) -> io::Result<()> {
    run_word(rt, T, b"", b"\x00", Judged::Accepts)?;
    run_word(rt, T, b"", b"\x01", Judged::Rejects)?;
    run_word(rt, T, b"", b"\x00\x01", Judged::Accepts)?;
    run_word(rt, T, b"", b"\x01\x01\x00", Judged::Accepts)?;
    run_word(rt, T, b"", b"\x01\x01\x00\x00", Judged::Rejects)?;
    run_translation(rt, T)
}

// The cards of moves, a record by its code: 123 gives 312 and 231, and 321 gives 213.
fn run_moves(rt: &impl Print) -> io::Result<()> {
    run_move(rt, Record { code: 209 }, 4, Record { code: 139 })?;
    run_move(rt, Record { code: 209 }, 6, Record { code: 90 })?;
    run_move(rt, Record { code: 83 }, 3, Record { code: 202 })
}

// The cards of self-loops: one pair with the required bit, with both bits, and no pair.
fn run_self_loops(rt: &impl Print) -> io::Result<()> {
    run_translation(rt, b"\x01\x01\x01\x00\x00\x00\x01")?;
    run_translation(rt, b"\x01\x01\x01\x00\x00\x01\x01")?;
    let no_pairs = b"\x01\x01\x00\x00\x00\x00\x00";
    run_translation(rt, no_pairs)?;
    run_word(rt, no_pairs, b"", b"\x00", Judged::Rejects)
}

// The cards of a table whose only marks are on a crossing.
fn run_crossing(rt: &impl Print) -> io::Result<()> {
    let crossing = b"\x02\x01\x01\x00\x01\x01\x01\x01\x00\x00";
    run_count(rt, crossing, 0, Record { code: 0 })?;
    run_count(rt, crossing, 1, Record { code: 0 })?;
    run_translation(rt, crossing)
}

// The cards of stops: letter 0 loops, letter 1 is missing.
fn run_stops(rt: &impl Print) -> io::Result<()> {
    let partial = b"\x01\x02\x00\x00\x00\xff\x00\x00\x00\x00";
    run_word(rt, partial, b"", b"\x00\x01", Judged::Stops(1))?;
    run_word(rt, partial, b"\x00\x00", b"\x01", Judged::Stops(2))
}

fn main(rt: HostRuntime) -> io::Result<()> {
    run(&rt, 4)?;
    run(&rt, 3)?;
    run_t(&rt)?;
    run_moves(&rt)?;
    run_self_loops(&rt)?;
    run_crossing(&rt)?;
    run_stops(&rt)
}

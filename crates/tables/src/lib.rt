// Checks a Rabin table: the bytes, before anything is made of them.
// It rests on `rules` alone. `check_table` keeps the promise `CheckSays` of the rules, for all bytes, and hands out a `Table`, which is
// well formed; `letters_of` reads the number of letters of any bytes, and `mask_of` joins the marks of a transition.
#![tactic(auto)]

use rules::limit::HEADER_SIZE;
use rules::refusal::Refusal;

mod check;

ghost use Rattle.std.specs.Prelude.{◌≡◌, ◌+◌, ◌*◌, ◌≤◌, length, IfOk};
ghost use Rattle.rules.specs.Limits.{header_size};
ghost use Rattle.rules.specs.Numbered.{number_in};
ghost use Rattle.rules.specs.Says.{CheckSays};
ghost use Rattle.rules.specs.Tables.{table_of};
ghost use Rattle.tables.specs.Parts.{WellFormed};

// The bytes of a table that passes its check.
#[derive(Clone, Copy)]
pub struct Table<'a> {
    pub bytes: &'a [u8],
    // It follows from the other, and is said apart so that a proof finds the first four bytes.
    pub ghost has_header: { header_size ≤ length bytes.now },
    pub ghost well_formed: { WellFormed bytes.now },
}

impl<'a> Table<'a> {
    // The number of states.
    pub fn states(self) -> usize
        ensures { result ≡ (table_of self.entry.bytes.now).states }
    {
        usize::from(self.bytes[0])
    }

    // The number of letters.
    pub fn letters(self) -> usize
        ensures { result ≡ (table_of self.entry.bytes.now).letters }
    {
        usize::from(self.bytes[1])
    }

    // The start.
    pub fn start(self) -> usize
        ensures { result ≡ (table_of self.entry.bytes.now).start }
    {
        usize::from(self.bytes[3])
    }

    // The targets, one byte for each cell.
    pub fn targets(self) -> &'a [u8]
        ensures { result.now ≡ (table_of self.entry.bytes.now).targets }
    {
        let bytes = self.bytes;
        let end = HEADER_SIZE + self.states() * self.letters();
        &bytes[HEADER_SIZE..end]
    }

    // The marks, two bytes for each cell.
    pub fn marks(self) -> &'a [u8]
        ensures { result.now ≡ (table_of self.entry.bytes.now).marks }
    {
        let bytes = self.bytes;
        let from = HEADER_SIZE + self.states() * self.letters();
        &bytes[from..]
    }
}

// The table's letters: its second byte, 0 where there is none. No `Option`: it goes out to C as it is, where a call that cannot fail stays one.
pub fn letters_of(table: &[u8]) -> u8
    ensures { result ≡ (table_of table.now).letters }
{
    if table.len() < 2 {
        return 0;
    }
    table[1]
}

// The two sets of marks of a transition as one mask, the required pairs above the prohibited ones: read, joined and tested at once. They are parted
// by `% 256` and `/ 256`, as the definitions part them: `to_le_bytes` is no plainer.
pub fn mask_of(prohibited: u8, required: u8) -> u16
    ensures { result ≡ required * 256 + prohibited }
{
    u16::from(required) * 256 + u16::from(prohibited)
}

// The table that the bytes are, or its refusal, 1 to 6 as in RULES, "Order".
pub fn check_table<'a>(table: &'a [u8]) -> Result<Table<'a>, Refusal>
    ensures says { CheckSays table.now (number_in result) }
    ensures same { IfOk result (λ checked. checked.bytes.now ≡ table.now) }
{
    if table.len() < HEADER_SIZE {
        return Err(Refusal::Short);
    }
    let n = table[0];
    let m = table[1];
    let k = table[2];
    if check::bad_sizes(n, m, k) {
        return Err(Refusal::Sizes);
    }
    let cells = usize::from(n) * usize::from(m);
    let length = HEADER_SIZE + 3 * cells;
    if table.len() < length {
        return Err(Refusal::Short);
    }
    if length < table.len() {
        return Err(Refusal::Long);
    }
    if n <= table[3] {
        return Err(Refusal::Start);
    }
    let marks_at = HEADER_SIZE + cells;
    let targets = &table[HEADER_SIZE..marks_at];
    let wrong_target = check::bad_targets(targets, n);
    let wrong_marks = check::bad_marks(targets, &table[marks_at..length], k);
    if wrong_target {
        return Err(Refusal::Target);
    }
    if wrong_marks {
        return Err(Refusal::Marks);
    }
    Ok(Table { bytes: table })
}

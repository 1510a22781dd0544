// The lines of a listing.
ghost use Rattle.std.specs.Prelude.{◌<◌, ◌++◌};
ghost use Rattle.rules.specs.Listings.{head, refusal_line};
ghost use Rattle.rules.specs.Numbered.{number_of};
ghost use Rattle.listing_text.specs.Writing.{Writes, Shown};

use crate::text::{BLANK, LINE_FEED, Writer};
use rules::limit::NO_ROW;
use rules::refusal::Refusal;

// The rows of a translated table, as they lie at the front of the four arrays that the caller lends.
#[derive(Clone, Copy)]
pub(crate) struct Rows<'a> {
    pub count: usize,
    pub letters: usize,
    pub targets: &'a [u16],
    pub priorities: &'a [u8],
    pub sources: &'a [u8],
    pub records: &'a [u32],
    ghost shown: { Shown count letters targets.now priorities.now sources.now records.now },
}

impl<'a> Rows<'a> {
    ghost use Rattle.listing_text.specs.Lines.{line_of, row_of, lines_of};

    // Writes the line of one row and one letter.
    fn put_line(self, text: &mut Writer<'_>, row: usize, letter: usize)
        requires row_in { row < self.count }
        requires letter_in { letter < self.letters }
        ensures { Writes text.old (line_of self.entry row letter) text.new }
    {
        let cell = row * self.letters + letter;
        let record = self.records[row];
        let target = self.targets[cell];
        let found = target != NO_ROW;
        text.field(row as u32, BLANK);
        text.field(u32::from(self.sources[row]), BLANK);
        text.optional((record != 0).then_some(record), BLANK);
        text.field(letter as u32, BLANK);
        text.optional(found.then_some(u32::from(target)), BLANK);
        text.optional(found.then_some(u32::from(self.priorities[cell])), LINE_FEED);
    }

    // Writes the lines of one row, letters rising.
    fn put_row(self, text: &mut Writer<'_>, row: usize)
        requires { row < self.count }
        ensures { Writes text.old (row_of self.entry row) text.new }
    {
        // the lines of the letters before this one are written
        for letter in 0..self.letters {
            self.put_line(text, row, letter);
        }
    }

    // Writes the first line, which has the number of pairs too, and the lines of all rows, rows by number.
    pub(crate) fn put(self, text: &mut Writer<'_>, pairs: u8)
        ensures { Writes text.old (head self.entry.count self.entry.letters pairs ++ lines_of self.entry) text.new }
    {
        text.field(self.count as u32, BLANK);
        text.field(self.letters as u32, BLANK);
        text.field(u32::from(pairs), LINE_FEED);
        // the lines of the rows before this one are written
        for row in 0..self.count {
            self.put_row(text, row);
        }
    }
}

// Writes the line of a refusal.
pub(crate) fn put_refusal(text: &mut Writer<'_>, refusal: Refusal)
    ensures { Writes text.old (refusal_line (number_of refusal)) text.new }
{
    text.bytes(b"refused ");
    text.field(u32::from(u8::from(refusal)), LINE_FEED);
}

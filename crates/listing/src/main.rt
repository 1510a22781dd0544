// The listing program (RULES, "Listing"): it reads one Rabin table on standard input and prints the listing of its translation, or its
// refusal. `list` has the whole listing at the front of a text, proved to fit; this program lends the arrays, reads and writes.
#![tactic(auto)]

ghost use Rattle.std.specs.Prelude.{◌≡◌, ◌<◌, length, IfOk};
ghost use Rattle.std.specs.Io.KnownBytes.{Consumes, IsAtEnd};
ghost use Rattle.rules.specs.Listings.{listing};

use listing_text::list_table;
use std::io;
use std::io::{Read, Write};

// The rows at most, and the cells of so many rows with 16 letters.
const CAPACITY: usize = 1024;

const CELLS: usize = 16384;

// The bound of the rules for so many rows with 16 letters: 10 bytes for the head and 26 for each line.
const TEXT: usize = 425994;

// The listing of a table, whole, written into the text's front.
fn list<'a>(table: &[u8], text: &'a mut [u8; TEXT]) -> &'a [u8]
    ensures { result.now ≡ listing table.now 1024 16384 16384 1024 1024 }
{
    let mut targets = [0; CELLS];
    let mut priorities = [0; CELLS];
    let mut sources = [0; CAPACITY];
    let mut records = [0; CAPACITY];
    let length = list_table(
        table,
        CAPACITY,
        &mut targets,
        &mut priorities,
        &mut sources,
        &mut records,
        text,
    );
    &text[..length]
}

// Reads until the buffer is full or the input ends, and gives the bytes read.
fn read_full<'a, R: Read>(reader: &mut R, buffer: &'a mut [u8]) -> io::Result<&'a [u8]>
    ensures bytes { IfOk result (λ read. Consumes (R.remaining reader.old) (R.remaining reader.new) read.now) }
    ensures whole { IfOk result (λ read. length read.now < length buffer.old → IsAtEnd (R.remaining reader.new)) }
{
    let mut done = 0;
    // the bytes below `done` are read; a while: a read says how far it came
    while done < buffer.len() {
        let read = reader.read(&mut buffer[done..])?;
        if read == 0 {
            break;
        }
        done += read;
    }
    Ok(&buffer[..done])
}

// One byte is read beyond the longest table, so that a longer input is refused for its length.
fn main(rt: HostRuntime) -> io::Result<()> {
    let mut buffer = [0; 3077];
    let mut text = [0; TEXT];
    let table = read_full(&mut rt.reader(), &mut buffer)?;
    let listing = list(table, &mut text);
    io::writer(&rt).write_all(listing)
}

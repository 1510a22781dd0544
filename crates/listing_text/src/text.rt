// Text written into a lent array.
ghost use Rattle.std.specs.Prelude.{◌≡◌, [], ◌∷◌};
ghost use Rattle.rules.specs.Listings.{field};
ghost use Rattle.rules.specs.Texts.{numeral};
ghost use Rattle.listing_text.specs.Writing.{InReach, optional_field, Writes, Wrote};

pub(crate) const BLANK: u8 = b' ';

pub(crate) const LINE_FEED: u8 = b'\n';

const DASH: u8 = b'-';

// Writes one byte, and gives the place after it.
fn put_byte(out: &mut [u8], at: usize, byte: u8) -> usize
    ensures { InReach at (byte ∷ []) → Wrote at (byte ∷ []) out.old out.new result }
{
    if at < out.len() {
        out[at] = byte;
    }
    at.saturating_add(1)
}

// Writes a number in decimal: the digits before the last, then the last. The place is handed on as a value, so that it stays in a
// register from digit to digit: a writer that the recursion borrows would lie in memory.
// By hand: `write!` promises what it wrote only where it answers `Ok`, and it does not promise that answer.
fn put_numeral(out: &mut [u8], at: usize, n: u32) -> usize
    ensures { InReach at (numeral n) → Wrote at (numeral n) out.old out.new result }
{
    if n < 10 {
        return put_byte(out, at, b'0' + n as u8);
    }
    let last = put_numeral(out, at, n / 10);
    put_byte(out, last, b'0' + (n % 10) as u8)
}

// Each call goes on where the last one ended. What falls past the end of the array is dropped, but counted; so a writer over an empty
// array only counts.
#[derive(Drop)]
pub(crate) struct Writer<'a> {
    out: &'a mut [u8],
    at: usize,
}

impl<'a> Writer<'a> {
    // A writer at the first place of an array.
    pub(crate) fn new(out: &'a mut [u8]) -> Writer<'a>
        ensures array { result.out.ghost_name ≡ out.entry.ghost_name }
        ensures bytes { result.out.now ≡ out.old }
        ensures first { result.at ≡ 0 }
    {
        Writer { out, at: 0 }
    }

    // How long the text is, whether it fitted or not.
    pub(crate) fn len(&self) -> usize
        ensures { result ≡ self.now.at }
    {
        self.at
    }

    // Writes one byte.
    fn byte(&mut self, byte: u8)
        ensures { Writes self.old (byte ∷ []) self.new }
    {
        self.at = put_byte(self.out, self.at, byte);
    }

    // Writes some bytes.
    pub(crate) fn bytes(&mut self, bytes: &[u8])
        ensures { Writes self.old bytes.now self.new }
    {
        // the bytes before this one are written
        for byte in bytes {
            self.byte(*byte);
        }
    }

    // Writes a number in decimal.
    fn numeral(&mut self, n: u32)
        ensures { Writes self.old (numeral n) self.new }
    {
        self.at = put_numeral(self.out, self.at, n);
    }

    // Writes a number and the byte that ends its field.
    pub(crate) fn field(&mut self, n: u32, end: u8)
        ensures { Writes self.old (field n end) self.new }
    {
        self.numeral(n);
        self.byte(end);
    }

    // Writes a field whose number may be missing: a dash in its place.
    pub(crate) fn optional(&mut self, n: Option<u32>, end: u8)
        ensures { Writes self.old (optional_field n end) self.new }
    {
        match n {
            Some(n) => self.field(n, end),
            None => self.bytes(&[DASH, end]),
        }
    }
}

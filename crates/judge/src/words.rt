// The refusals of a looped word, which come after the table's.
ghost use Rattle.std.specs.Prelude.{◌≡◌};
ghost use Rattle.rules.specs.Basics.{first_of};
ghost use Rattle.rules.specs.Judges.{word_fault};
ghost use Rattle.rules.specs.Numbered.{number_in};
ghost use Rattle.rules.specs.Runs.{stray_letter};

use rules::limit::MAX_PIECE;
use rules::refusal::Refusal;

// Some byte of a piece is no letter: no early exit and no branch.
fn has_stray(m: u8, piece: &[u8]) -> bool
    ensures { result ≡ stray_letter m piece.now }
{
    let mut stray = false;
    // stray says whether one of the bytes so far is no letter
    for letter in piece {
        stray |= m <= *letter;
    }
    stray
}

// The refusal of a word over m letters, 10 or 9. A piece that is too long is not looked into.
pub fn word_fault(m: u8, lead: &[u8], looped: &[u8]) -> Result<(), Refusal>
    ensures { number_in result ≡ word_fault m lead.now looped.now }
{
    if (looped.len() == 0) | ((MAX_PIECE < lead.len()) | (MAX_PIECE < looped.len())) {
        return Err(Refusal::Loop);
    }
    let stray_lead = has_stray(m, lead);
    let stray_loop = has_stray(m, looped);
    if stray_lead | stray_loop {
        return Err(Refusal::Letter);
    }
    Ok(())
}

// A table's refusal comes before the word's, for a caller who has both as numbers, 0 for none. The judges
// leave at the first refusal instead.
pub fn first_fault(table: u8, word: u8) -> u8
    ensures { result ≡ first_of table word }
{
    if table != 0 { table } else { word }
}

// Judges looped words on Rabin tables.
// It rests on `tables`, which checks a table, and on `judge`, which has the refusals of a word, the answers, and the run over a word.
// `judge_rabin` keeps the promises `RabinSays` and `RabinMeans` of the rules, for all bytes and words.
#![tactic(auto)]

use judge::Judged;
use judge::run::judge_word;
use rabin::Rabin;
use rules::refusal::Refusal;
use tables::check_table;

mod rabin;

ghost use Rattle.rules.specs.Says.{RabinSays, RabinMeans};
ghost use Rattle.judge.specs.Judgements.{answer_of, answer_in};

// The answer of a Rabin table, or the refusal of the table or of the word.
fn answer_or_refusal(table: &[u8], lead: &[u8], looped: &[u8]) -> Result<Judged, Refusal>
    ensures { RabinSays table.now lead.now looped.now (answer_in result) }
{
    let table = check_table(table)?;
    judge_word(Rabin { table }, lead, looped)
}

// The answer of a Rabin table.
pub fn judge_rabin(table: &[u8], lead: &[u8], looped: &[u8]) -> Judged
    ensures says { RabinSays table.now lead.now looped.now (answer_of result) }
    ensures means { RabinMeans table.now lead.now looped.now (answer_of result) }
{
    Judged::from(answer_or_refusal(table, lead, looped))
}

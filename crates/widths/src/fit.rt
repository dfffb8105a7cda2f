// What a converter tests before it writes.
ghost use Rattle.std.specs.Prelude.{◌≡◌};
ghost use Rattle.widths.specs.Converters.{read_as, wide_name, names_fit, narrowable};
ghost use Rattle.widths.specs.Answers.{checked_as};

use crate::Fault;
use table::read::read;
use table::{Refusal, argument_of, kind_of, kinds};

// The table, where one whose word 0 has another kind is refused.
pub fn read_as(words: &[u32], kind: u32) -> Result<(), Fault>
    ensures { checked_as result ≡ read_as kind words.now }
{
    if words.is_empty() || kind_of(words[0]) != kind {
        return Err(Fault::Table(Refusal::NotTable));
    }
    read(words).map_err(Fault::Table)
}

// Whether a word has a name that no narrow table has.
#[tactic(auto, unfolding(crate::specs::Converters::wide_name))]
fn wide_name(w: u32) -> bool
    ensures { result ≡ wide_name w }
{
    32 <= argument_of(w) && matches!(kind_of(w), kinds::BLOCK | kinds::NAME)
}

// Whether a narrow table has the names of all words.
fn names_fit(words: &[u32]) -> Result<(), Fault>
    ensures { checked_as result ≡ names_fit words.now 0 }
{
    match words.iter().position(|w| wide_name(*w)) {
        Some(i) => Err(Fault::WideName(i)),
        None => Ok(()),
    }
}

// Whether the words are a wide table that can be made narrow.
pub fn check_narrow(words: &[u32]) -> Result<(), Fault>
    ensures { checked_as result ≡ narrowable words.now }
{
    read_as(words, kinds::WIDE_TABLE)?;
    if 32 < argument_of(words[0]) {
        return Err(Fault::TooManyHandlers);
    }
    names_fit(words)
}

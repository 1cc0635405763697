// Whether a regular expression has the empty word.
ghost use Rattle.std.specs.Prelude.{◌≡◌, ◌↔◌, IsTrue, [], map};
ghost use Rattle.rex_model.specs.Language.{Language};
ghost use Rattle.rex_model.specs.Meaning.{meaning, sequence_of, alternative_of};
ghost use Rattle.rex_model.specs.Positions.{has_empty};

use crate::regex::Regex;

/// Whether the empty word is in the expression's language.
pub fn nullable(r: &Regex) -> bool
    ensures language { IsTrue result ↔ Language (meaning r.now) [] }
    ensures cases { result ≡ has_empty (meaning r.now) }
{
    has_empty_word(r)
}

/// The same, by cases on the expression.
#[cycle(empty_word)]
pub(crate) fn has_empty_word(r: &Regex) -> bool
    ensures { result ≡ has_empty (meaning r.now) }
{
    match r {
        Regex::Bytes(string) => string.is_empty(),
        Regex::Class(_) => false,
        Regex::Seq(parts) => all_have_empty_word(parts),
        Regex::Alt(parts) => one_has_empty_word(parts),
        Regex::Star(_) | Regex::Opt(_) => true,
        Regex::Plus(part) => has_empty_word(part),
    }
}

/// Whether it is in the language of each part.
#[cycle(empty_word)]
fn all_have_empty_word(parts: &[Regex]) -> bool
    ensures { result ≡ has_empty (sequence_of (map meaning parts.now)) }
{
    for part in parts {
        if !has_empty_word(part) {
            return false;
        }
    }
    true
}

/// Whether it is in the language of some part.
#[cycle(empty_word)]
fn one_has_empty_word(parts: &[Regex]) -> bool
    ensures { result ≡ has_empty (alternative_of (map meaning parts.now)) }
{
    for part in parts {
        if has_empty_word(part) {
            return true;
        }
    }
    false
}

// The words that name types of values.
ghost use Rattle.std.specs.Prelude.{◌≡◌};
ghost use Rattle.expr_read.specs.TypeWords.{type_of_word};

use value_store::ValType;

/// The type that the word names: one of `int`, `bool`, `text` and `map`.
pub fn type_of_word(word: &[u8]) -> Option<ValType>
    ensures { result ≡ type_of_word word.now }
{
    if word == b"int".as_slice() {
        Some(ValType::Int)
    } else if word == b"bool".as_slice() {
        Some(ValType::Bool)
    } else if word == b"text".as_slice() {
        Some(ValType::Text)
    } else if word == b"map".as_slice() {
        Some(ValType::Map)
    } else {
        None
    }
}

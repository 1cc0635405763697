// Names looked up in a scope.
ghost use Rattle.std.specs.Prelude.{◌≡◌, ◌∷◌, ◌++◌, decimal, map, IfOk, IfSome, ◌<◌, length};
ghost use Rattle.std.specs.Str.{bytes_eq};
ghost use Rattle.ck_base.specs.Numbered.{number_of};
ghost use Rattle.expr_read.specs.Resolving.{dollar_name, function_of, paired};
ghost use Rattle.expr_read.specs.Written.{dotted_in};

use ck_base::NoMemory;
use expr_lang::Function;
use itoa::Buffer;
use std::alloc::Global;
use value_store::Name;

/// The place of the first of the names that is this one.
pub(crate) fn place_in(names: &[Name], name: &[u8]) -> Option<usize>
    ensures place { result ≡ number_of names.now name.now }
    ensures within { IfSome result (λ i. i < length names.now) }
{
    names.iter().position(|other| name == other.bytes())
}

/// The place of the first of the names that is `$` and the number in decimal digits.
pub(crate) fn dollar_place(names: &[Name], n: u64) -> Option<usize>
    ensures place { result ≡ number_of names.now (dollar_name n) }
    ensures within { IfSome result (λ i. i < length names.now) }
{
    let mut printed = Buffer::new();
    let digits = printed.format(n).as_bytes();
    names
        .iter()
        .position(|other| is_dollar_name(digits, other.bytes()))
}

/// Whether the name is `$` and these digits.
fn is_dollar_name(digits: &[u8], name: &[u8]) -> bool
    ensures { result ≡ bytes_eq (36 ∷ digits.now) name.now }
{
    match name {
        [b'$', rest @ ..] => digits == rest,
        _ => false,
    }
}

/// The variable of two words: the first one so called.
pub(crate) fn variable_of(dotted: &[(Name, Name, u32)], before: &[u8], after: &[u8]) -> Option<u32>
    ensures { result ≡ paired (map dotted_in dotted.now) before.now after.now }
{
    for item in dotted {
        if item.0.bytes() == before && item.1.bytes() == after {
            return Some(item.2);
        }
    }
    None
}

/// The function of the name.
pub(crate) fn function_named(name: &[u8]) -> Option<Function>
    ensures { result ≡ function_of name.now }
{
    if name == b"text".as_slice() {
        Some(Function::Text)
    } else if name == b"line".as_slice() {
        Some(Function::Line)
    } else if name == b"col".as_slice() {
        Some(Function::Col)
    } else if name == b"int".as_slice() {
        Some(Function::Int)
    } else if name == b"empty".as_slice() {
        Some(Function::Empty)
    } else if name == b"put".as_slice() {
        Some(Function::Put)
    } else if name == b"get".as_slice() {
        Some(Function::Get)
    } else if name == b"has".as_slice() {
        Some(Function::Has)
    } else if name == b"size".as_slice() {
        Some(Function::Size)
    } else {
        None
    }
}

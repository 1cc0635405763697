// Lines of output, with letters for numbers.
use crate::written::Written;
use cfg_model::Sym;
use ck_base::{Bits, NoMemory};
use std::alloc::Global;

/// Puts a line behind the others.
pub(crate) fn push_line(out: &mut String, line: String) -> Result<(), NoMemory> {
    out.push_str(line.as_str())?;
    out.push('\n')?;
    Ok(())
}

/// The letter of a number; `$` for END, which stands behind the last one.
pub(crate) fn letter(letters: &str, number: u32) -> char {
    match letters.as_bytes().get(number as usize) {
        Some(byte) => char::from(*byte),
        None => '$',
    }
}

/// The letter of a symbol.
pub(crate) fn symbol_letter(written: &Written, symbol: Sym) -> char {
    match symbol {
        Sym::T(t) => letter(written.terminals, t),
        Sym::N(n) => letter(written.nonterminals, n),
    }
}

/// The letters of the numbers in the set; `none` where there is none.
pub(crate) fn letters_in(alloc: Global, letters: &str, set: &Bits) -> Result<String, NoMemory> {
    let mut text = String::new(alloc);
    for number in 0..set.size() {
        if set.has(number) {
            text.push(letter(letters, number))?;
        }
    }
    if text.is_empty() {
        text.push_str("none")?;
    }
    Ok(text)
}

/// The letter of the number that was found; `none` where there is none.
pub(crate) fn found(alloc: Global, letters: &str, number: Option<u32>) -> Result<String, NoMemory> {
    let mut text = String::new(alloc);
    match number {
        Some(number) => text.push(letter(letters, number))?,
        None => text.push_str("none")?,
    }
    Ok(text)
}

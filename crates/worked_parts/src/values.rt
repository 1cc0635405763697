// Values of expressions in print, with a store and without one.
ghost use Rattle.std.specs.Prelude.{◌≡◌, [], ◌∷◌, IfOk, IsTrue};
ghost use Rattle.value_store.specs.PlainTypes.{IsPlain};
ghost use Rattle.worked_parts.specs.Making.{AllMake};

use crate::lines::push_line;
use crate::postfix::expression;
use bumpalo::Bump;
use expr_lang::{Expr, Maker, Scope, eval, plain, typed, units};
use std::alloc::Global;
use value_store::{Cells, Literals, NoMemory, Text, TextOf, Texts, ValType, Value};

/// The source, with its two tokens: `let` at 1:1 and `12` at 3:9.
pub(crate) const SOURCE: &[u8] = b"let 12";

const SPANS: [Text; 2] = [
    Text {
        of: TextOf::Source,
        from: 0,
        to: 3,
    },
    Text {
        of: TextOf::Source,
        from: 4,
        to: 6,
    },
];

const PLACES: [(u32, u32); 2] = [(1, 1), (3, 9)];

/// The types of the variables: the two tokens, the int 5, and the map of no pairs.
pub(crate) const VARIABLES: [ValType; 4] = [
    ValType::Token,
    ValType::Token,
    ValType::Int,
    ValType::Map,
];

/// Writes the value of each expression, by a store and, where it needs none, from the syntax alone.
pub(crate) fn show_values(alloc: Global, all: &[&str], out: &mut String) -> Result<(), NoMemory> {
    for words in all {
        let line = value_line(alloc, words)?;
        push_line(out, line)?;
    }
    Ok(())
}

/// The expression with its values.
fn value_line(alloc: Global, words: &str) -> Result<String, NoMemory> {
    let arena = Bump::new(alloc);
    let mut literals = Literals::new(alloc);
    let Some(e) = expression(&arena, words, &mut literals)? else {
        return Ok(format!(in alloc; "{words}: no expression")?);
    };
    let texts = Texts {
        source: SOURCE,
        literals: literals.bytes(),
    };
    let stored = stored_value(alloc, &e, &texts)?;
    let plainly = plain_value(alloc, &e, &texts)?;
    Ok(format!(in alloc; "{words} = {stored}{plainly}")?)
}

/// The value over a store, where the expression has a type.
pub(crate) fn stored_value(
    alloc: Global,
    e: &Expr<'_>,
    texts: &Texts<'_>,
) -> Result<String, NoMemory> {
    let mut cells = Cells::new(alloc);
    let env = [
        Value::Token(0),
        Value::Token(1),
        Value::Int(5),
        Value::Map(cells.empty_map()),
    ];
    let makers = makers(alloc)?;
    let scope = Scope {
        vars: &VARIABLES,
        makers: makers.as_slice(),
    };
    let Some(_of) = typed(e, &scope) else {
        return Ok(format!(in alloc; "untyped")?);
    };
    let value = eval(e, &env, texts, &mut cells, &SPANS, &PLACES)?;
    value_text(alloc, value, texts)
}

/// Makers of leaves, type 1 with an int, and of pairs, type 2 with two nodes.
pub(crate) fn makers(alloc: Global) -> Result<Vec<Maker>, NoMemory>
    ensures { IfOk result (λ made. AllMake made.items) }
{
    let leaf = maker(alloc, 1, &[ValType::Int])?;
    let pair = maker(alloc, 2, &[ValType::Node(0), ValType::Node(0)])?;
    let list = both(alloc, leaf, pair)?;
    Ok(list)
}

/// The maker of a type with these items.
fn maker(alloc: Global, ty: u32, items: &[ValType]) -> Result<Maker, NoMemory>
    ensures { IfOk result (λ made. made.items.items ≡ items.now) }
{
    let items = Vec::from_slice(alloc, items)?;
    Ok(Maker {
        ty,
        family: 0,
        items,
    })
}

/// A list of two.
fn both(alloc: Global, first: Maker, second: Maker) -> Result<Vec<Maker>, NoMemory>
    ensures { IfOk result (λ list. list.items ≡ first ∷ second ∷ []) }
{
    let mut list = Vec::new(alloc);
    list.push(first)?;
    list.push(second)?;
    Ok(list)
}

/// The value without a store, where the expression has no variable, and is an int, a bool or a
/// text.
fn plain_value(alloc: Global, e: &Expr<'_>, texts: &Texts<'_>) -> Result<String, NoMemory> {
    let scope = Scope {
        vars: &[],
        makers: &[],
    };
    let Some(of) = typed(e, &scope) else {
        return Ok(String::new(alloc));
    };
    if !is_plain(of) || units(e) >= 9_223_372_036_854_775_808 {
        return Ok(String::new(alloc));
    }
    let value = plain(e, &[], texts);
    let text = value_text(alloc, value, texts)?;
    Ok(format!(in alloc; ", plain {text}")?)
}

/// Whether values of the type may be compared.
fn is_plain(of: ValType) -> bool
    ensures { IsTrue result → IsPlain of }
{
    match of {
        ValType::Int => true,
        ValType::Bool => true,
        ValType::Text => true,
        _ => false,
    }
}

/// How the value is written: a text between `'`, and of a map or node only what it is.
fn value_text(alloc: Global, value: Value, texts: &Texts<'_>) -> Result<String, NoMemory> {
    match value {
        Value::Int(n) => Ok(format!(in alloc; "{n}")?),
        Value::Bool(b) => Ok(format!(in alloc; "{b}")?),
        Value::Text(t) => quoted(alloc, texts.bytes(t)),
        Value::Map(_) => Ok(format!(in alloc; "map")?),
        Value::Token(k) => Ok(format!(in alloc; "token {k}")?),
        Value::Src(n) => Ok(format!(in alloc; "source {n}")?),
        Value::Made(_) => Ok(format!(in alloc; "node")?),
    }
}

/// The bytes between `'`.
fn quoted(alloc: Global, bytes: &[u8]) -> Result<String, NoMemory> {
    let mut text = format!(in alloc; "'")?;
    for byte in bytes {
        text.push(char::from(*byte))?;
    }
    text.push('\'')?;
    Ok(text)
}

// Values in print.
ghost use Rattle.std.specs.Prelude.{◌≡◌, ◌++◌, ℕ, OnOk};
ghost use Rattle.value_store.specs.Cells.{cells_of, IsMap};
ghost use Rattle.value_store.specs.declared.value.Value.TheVariants as kind;
ghost use Rattle.expr_lang.specs.PureOf.{pure_of};
ghost use Rattle.tree_lines.specs.TreeText.{value_text};

use quoting::{push_decimal, push_int, push_quoted};
use value_store::{Cells, NoMemory, Texts, Value};

/// Appends the value in print: an int, a bool, a text, or a map by its number of pairs. A token and
/// a node have no printed form.
pub fn push_value(
    out: &mut Vec<u8>,
    value: Value,
    texts: &Texts,
    cells: &Cells,
) -> Result<(), NoMemory>
    requires { (m : ℕ) → value ≡ kind.Map m → IsMap (cells_of cells.now.units) m }
    ensures { OnOk result (out.new.items ≡ out.old.items ++ value_text
        (pure_of texts.now.source.now texts.now.literals.now (cells_of cells.now.units) value)) }
{
    match value {
        Value::Int(n) => push_int(out, n)?,
        Value::Bool(true) => out.extend_from_slice(b"true")?,
        Value::Bool(false) => out.extend_from_slice(b"false")?,
        Value::Text(text) => push_quoted(out, texts.bytes(text))?,
        Value::Map(m) => push_map(out, m, texts, cells)?,
        Value::Token(_) | Value::Src(_) | Value::Made(_) => {}
    }
    Ok(())
}

/// Appends the map in print.
fn push_map(out: &mut Vec<u8>, m: u64, texts: &Texts, cells: &Cells) -> Result<(), NoMemory>
    requires { IsMap (cells_of cells.now.units) m }
    ensures { OnOk result (out.new.items ≡ out.old.items ++ value_text
        (pure_of texts.now.source.now texts.now.literals.now (cells_of cells.now.units)
        (kind.Map m))) }
{
    out.extend_from_slice(b"map(")?;
    push_decimal(out, cells.size(m))?;
    out.push(b')')?;
    Ok(())
}

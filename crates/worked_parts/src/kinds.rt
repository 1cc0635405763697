// Types of nodes in print.
ghost use Rattle.std.specs.Prelude.{◌<◌, ◌^◌, length};

use crate::growing::make_kinds;
use crate::lines::push_line;
use ast_types::Types;
use std::alloc::Global;
use value_store::NoMemory;

/// Writes the types of the trees here, and which of them are others.
pub(crate) fn show_types(alloc: Global, out: &mut String) -> Result<(), NoMemory> {
    let mut types = Types::new(alloc);
    if !types.is_empty() {
        return push_line(out, format!(in alloc; "types of their own accord")?);
    }
    make_kinds(alloc, &mut types)?;
    for t in 0..types.len() {
        let line = type_line(alloc, &types, t)?;
        push_line(out, line)?;
    }
    Ok(())
}

/// The type: its name, its family's name, how many children and fields it has, and what it is.
fn type_line(alloc: Global, types: &Types, t: u32) -> Result<String, NoMemory>
    requires few { length types.now.types < 2 ^ 32 }
    requires within { t < length types.now.types }
{
    let family = types.family_of(t);
    let mut line = text_of(alloc, types.type_name(t))?;
    line.push_str(" of ")?;
    line.push_str(text_of(alloc, types.family_name(family))?.as_str())?;
    let side = if types.is_target(family) {
        "target"
    } else {
        "source"
    };
    line.push_str(format!(in alloc;
        " ({side}): {} items, {} children, {} fields, extends {:?}, is",
        types.items(t).len(),
        types.child_count(t),
        types.field_count(t),
        types.base_of(t)
    )?
    .as_str())?;
    for base in 0..types.len() {
        if types.is_a(t, base) {
            line.push_str(format!(in alloc; " {base}")?.as_str())?;
        }
    }
    Ok(line)
}

/// The bytes as a text.
fn text_of(alloc: Global, bytes: &[u8]) -> Result<String, NoMemory> {
    let mut text = String::new(alloc);
    for byte in bytes {
        text.push(char::from(*byte))?;
    }
    Ok(text)
}

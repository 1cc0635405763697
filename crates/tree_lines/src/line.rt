// The line of a node in print: type, fields.
ghost use Rattle.std.specs.Prelude.{◌≡◌, ◌<◌, ◌^◌, ◌++◌, ◌∷◌, length, OnOk};
ghost use Rattle.ast_types.specs.Items.{field_types};
ghost use Rattle.expr_lang.specs.PureOf.{pure_field, pure_fields};
ghost use Rattle.tree_store.specs.Forest.{node_at};
ghost use Rattle.tree_lines.specs.TreeText.{field_names, value_text, fields_text, line_with};

use crate::rest::RestOfLine;
use ast_types::{Item, Types};
use quoting::{push_decimal, push_int, push_quoted};
use std::marker::Model;
use tree_store::Tree;
use value_store::{NoMemory, Texts, ValType, Value};

/// What appends the fields of a node.
#[derive(Drop)]
pub struct Fields<'a> {
    pub types: &'a Types,
    pub texts: Texts<'a>,
}

impl<'a> Model for Fields<'a> {
    ghost use Rattle.tree_lines.specs.within.Printing.{Base};

    ghost Value = { Base };

    ghost view = { λ f. record {
      table = f.types.now;
      source = f.texts.source.now;
      literals = f.texts.literals.now;
    } };
}

impl<'a> RestOfLine for Fields<'a> {
    ghost use Rattle.tree_lines.specs.within.Printing.{fields_of_node, ConformToBase};

    ghost rest = { fields_of_node };

    ghost needs = { ConformToBase };

    fn push_rest(&self, out: &mut Vec<u8>, tree: &Tree, node: u32) -> Result<(), NoMemory> {
        let ty = tree.type_of(node);
        push_fields(
            out,
            self.types.items(ty),
            self.types.field_count(ty),
            &self.texts,
            tree,
            node,
        )
    }
}

/// Appends the line of the node at the depth.
pub(crate) fn push_line<R: RestOfLine>(
    out: &mut Vec<u8>,
    types: &Types,
    rest: &R,
    tree: &Tree,
    node: u32,
    depth: u32,
) -> Result<(), NoMemory>
    requires node { node < length tree.now }
    requires there { (node_at tree.now node).ty < length types.now.types }
    requires needs { R.needs rest.now tree.now }
    ensures { OnOk result (out.new.items ≡ out.old.items
        ++ line_with types.now depth (node_at tree.now node).ty (R.rest rest.now tree.now node)) }
{
    push_decimal(out, depth as u64)?;
    out.push(b' ')?;
    out.extend_from_slice(types.type_name(tree.type_of(node)))?;
    rest.push_rest(out, tree, node)?;
    out.push(b'\n')?;
    Ok(())
}

/// Appends the fields of the node, whose type has these items, `count` of them fields.
fn push_fields(
    out: &mut Vec<u8>,
    items: &[Item],
    count: u32,
    texts: &Texts,
    tree: &Tree,
    node: u32,
) -> Result<(), NoMemory>
    requires node { node < length tree.now }
    requires count { count ≡ length (field_types items.now) }
    requires as_many { length (node_at tree.now node).fields ≡ count }
    ensures { OnOk result (out.new.items ≡ out.old.items
        ++ fields_text (field_names items.now)
        (pure_fields texts.now.source.now texts.now.literals.now (node_at tree.now node).fields)) }
{
    let mut i = 0;
    for item in items {
        if let ValType::Node(_) = item.of {
            continue;
        }
        push_field(out, item.name.bytes(), tree.field(node, i), texts)?;
        i += 1;
    }
    Ok(())
}

/// Appends a field with its name.
fn push_field(out: &mut Vec<u8>, name: &[u8], value: Value, texts: &Texts) -> Result<(), NoMemory>
    ensures { OnOk result (out.new.items ≡ out.old.items
        ++ 32 ∷ (name.now ++ (61 ∷ value_text
        (pure_field texts.now.source.now texts.now.literals.now value)))) }
{
    out.push(b' ')?;
    out.extend_from_slice(name)?;
    out.push(b'=')?;
    push_field_value(out, value, texts)?;
    Ok(())
}

/// Appends the value of a field: an int, a bool or a text.
fn push_field_value(out: &mut Vec<u8>, value: Value, texts: &Texts) -> Result<(), NoMemory>
    ensures { OnOk result (out.new.items ≡ out.old.items
        ++ value_text (pure_field texts.now.source.now texts.now.literals.now value)) }
{
    match value {
        Value::Int(n) => push_int(out, n)?,
        Value::Bool(true) => out.extend_from_slice(b"true")?,
        Value::Bool(false) => out.extend_from_slice(b"false")?,
        Value::Text(text) => push_quoted(out, texts.bytes(text))?,
        // As a field counts what no field is.
        Value::Map(_) | Value::Token(_) | Value::Src(_) | Value::Made(_) => push_int(out, 0)?,
    }
    Ok(())
}

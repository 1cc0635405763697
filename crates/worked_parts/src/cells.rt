// Cells of a store: nodes, doubled nodes, maps.
use crate::lines::push_line;
use std::alloc::Global;
use value_store::{Cells, Literals, NoMemory, Text, TextOf, Texts, Value};

/// Writes what nodes in cells are: a leaf with 7, and a pair of it and itself.
pub(crate) fn show_nodes(alloc: Global, out: &mut String) -> Result<(), NoMemory> {
    let mut cells = Cells::new(alloc);
    cells.reserve(8)?;
    let leaf = cells.make_node(1, &[], &[Value::Int(7)])?;
    let pair = cells.make_node(2, &[leaf, leaf], &[])?;
    let child = cells.child(pair, 1);
    let int = match cells.field(child, 0) {
        Value::Int(n) => n,
        _ => 0,
    };
    push_line(
        out,
        format!(in alloc;
            "a node of type {} with {} nodes, its second child of type {} with {int}",
            cells.type_of(pair),
            cells.nodes(pair),
            cells.type_of(child)
        )?,
    )
}

/// Writes how many nodes trees have that are made of twice the tree before.
pub(crate) fn show_doubled(alloc: Global, out: &mut String) -> Result<(), NoMemory> {
    let mut cells = Cells::new(alloc);
    let mut top = cells.make_node(1, &[], &[])?;
    for turn in 1..=40u32 {
        top = cells.make_node(1, &[top, top], &[])?;
        if turn == 19 || turn == 20 || turn == 40 {
            push_line(
                out,
                format!(in alloc; "doubled {turn} times: {} nodes", cells.nodes(top))?,
            )?;
        }
    }
    Ok(())
}

/// How many pairs the large map has.
const PAIRS: i64 = 100_000;

/// Writes what look-ups in a large map find, with equal texts at two places.
pub(crate) fn show_map(alloc: Global, out: &mut String) -> Result<(), NoMemory> {
    let mut literals = Literals::new(alloc);
    let old = literals.add(b"old")?;
    let new = literals.add(b"new")?;
    let texts = Texts {
        source: b"new old",
        literals: literals.bytes(),
    };
    let in_source = Text {
        of: TextOf::Source,
        from: 4,
        to: 7,
    };
    let mut cells = Cells::new(alloc);
    let mut map = cells.put_entry(cells.empty_map(), old, -1)?;
    for number in 0..PAIRS {
        map = cells.put_entry(map, new, number)?;
    }
    push_line(
        out,
        format!(in alloc;
            "a map of {} pairs: new {}, old {}, other {}",
            cells.size(map),
            cells.get_entry(&texts, map, new, 0),
            cells.get_entry(&texts, map, in_source, 0),
            cells.has(
                &texts,
                map,
                Text {
                    of: TextOf::Source,
                    from: 0,
                    to: 2
                }
            )
        )?,
    )
}

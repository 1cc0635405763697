// The printer of a tree: a visitor that pushes a line for each node.
ghost use Rattle.std.specs.Prelude.{◌≡◌, ◌++◌, List, ℕ, OnOk};
ghost use Rattle.expr_lang.specs.PureValues.{PureValue};
ghost use Rattle.tree_build.specs.Shown.{IsTreeOf};
ghost use Rattle.tree_lines.specs.TreeText.{lines_of, tree_text};

use crate::line::{Fields, push_line};
use crate::rest::RestOfLine;
use ast_types::Types;
use std::alloc::Global;
use std::marker::Model;
use std::mem;
use tree_store::{Tree, Visit};
use value_store::{NoMemory, Texts};

/// A walk that prints: the output so far, and how deep it is.
#[derive(Drop)]
pub struct Printer<'a, R: RestOfLine> {
    types: &'a Types,
    rest: &'a R,
    output: Vec<u8>,
    depth: u32,
}

impl<'a, R: RestOfLine> Model for Printer<'a, R> {
    ghost use Rattle.tree_lines.specs.within.Printing.{Printing};

    ghost Value = { Printing R };

    ghost view = { λ p. record {
      table = p.types.now;
      about = p.rest.now;
      output = p.output.items;
      depth = p.depth;
    } };
}

impl<'a, R: RestOfLine> Visit for Printer<'a, R> {
    ghost use Rattle.tree_lines.specs.within.Printing.{Enters, Leaves, ArePrintable};

    ghost enters = { Enters R.rest };

    ghost leaves = { Leaves };

    ghost ready = { ArePrintable R.needs };

    fn enter(&mut self, tree: &Tree, node: u32) -> bool {
        let line = push_line(
            &mut self.output,
            self.types,
            self.rest,
            tree,
            node,
            self.depth,
        );
        self.depth = self.depth.saturating_add(1);
        line.is_ok()
    }

    fn leave(&mut self, tree: &Tree, node: u32) -> bool {
        self.depth = self.depth.saturating_sub(1);
        true
    }
}

/// Appends a line for each node of the tree, in preorder: its depth, its type, and the rest that is
/// given. It takes no memory but the output's.
pub fn push_lines<R: RestOfLine>(
    alloc: Global,
    out: &mut Vec<u8>,
    types: &Types,
    tree: &Tree,
    rest: &R,
) -> Result<(), NoMemory>
    requires tree { (source : List ℕ) × (literals : List ℕ) × (v : PureValue)
        × IsTreeOf source literals types.now tree.now v }
    requires needs { R.needs rest.now tree.now }
    ensures { OnOk result ((source literals : List ℕ) (v : PureValue)
        → IsTreeOf source literals types.now tree.now v
        → out.new.items ≡ out.old.items ++ lines_of types.now (R.rest rest.now tree.now) 0 0 v) }
{
    // What `len` says of the tree bounds the depth of the walk.
    let _nodes = tree.len();
    let mut printer = Printer {
        types,
        rest,
        output: mem::replace(out, Vec::new(alloc)),
        depth: 0,
    };
    let stopped = tree.walk(tree.root(), &mut printer);
    *out = printer.output;
    if stopped.is_some() {
        return Err(NoMemory);
    }
    Ok(())
}

/// Appends the printed form of the tree, a line for each node in preorder. It takes no memory but
/// the output's.
pub fn push_tree(
    alloc: Global,
    out: &mut Vec<u8>,
    types: &Types,
    tree: &Tree,
    texts: &Texts<'_>,
) -> Result<(), NoMemory>
    requires { (v : PureValue)
        × IsTreeOf texts.now.source.now texts.now.literals.now types.now tree.now v }
    ensures { OnOk result ((v : PureValue)
        → IsTreeOf texts.now.source.now texts.now.literals.now types.now tree.now v
        → out.new.items ≡ out.old.items ++ tree_text types.now 0 v) }
{
    let fields = Fields {
        types,
        texts: *texts,
    };
    push_lines(alloc, out, types, tree, &fields)?;
    Ok(())
}

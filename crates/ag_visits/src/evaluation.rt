// One equation at one node.
ghost use Rattle.std.specs.Prelude.{◌≡◌, ℕ, ◌+◌, ◌<◌, ◌++◌, List, [], OnOk, length, map, slice_get, slice_index_or, Some, Contains};
ghost use Rattle.value_store.specs.Cells.{cells_of};
ghost use Rattle.ast_types.specs.Items.{field_types};
ghost use Rattle.ast_types.specs.TypeTable.{type_at};
ghost use Rattle.expr_lang.specs.Evaluated.{KeepsCells};
ghost use Rattle.expr_lang.specs.Meaning.{meaning};
ghost use Rattle.tree_store.specs.Forest.{node_at};
ghost use Rattle.ag_model.specs.Attribution.{grammar_of, equation_of, equation_rows};
ghost use Rattle.ag_model.specs.Solution.{node_of, attribute_of, expression_at, expressions_of};
ghost use Rattle.ag_model.specs.ValueTable.{value_in, SetsValue};
ghost use Rattle.ag_visits.specs.within.OfTree.{env_of};
ghost use Rattle.ag_visits.specs.within.Walks.{IsThere, CanEvaluate, Evaluates};

use ag_model::{Attribution, Equation, Place, Values};
use ast_types::Types;
use expr_lang::eval;
use tree_store::Tree;
use value_store::{Cells, NoMemory, Texts, Value};

/// The value at a place of an equation of the node.
fn value_at(tree: &Tree, values: &Values, node: u32, place: Place) -> Value
    requires { IsThere tree.now values.now node place }
    ensures { result ≡ value_in values.now (node_of tree.now node place) (attribute_of place) }
{
    match place {
        Place::Own(a) => values.value(node, a),
        Place::Child(c, a) => values.value(tree.child(node, c), a),
    }
}

/// Gives a place of an equation of the node its value.
fn set_at(tree: &Tree, values: &mut Values, node: u32, place: Place, value: Value)
    requires { IsThere tree.now values.old node place }
    ensures { SetsValue values.old values.new (node_of tree.now node place) (attribute_of place) value }
{
    match place {
        Place::Own(a) => values.set(node, a, value),
        Place::Child(c, a) => values.set(tree.child(node, c), a, value),
    }
}

/// Adds the values at these places.
fn push_uses(
    tree: &Tree,
    values: &Values,
    node: u32,
    uses: &[Place],
    env: &mut Vec<Value>,
) -> Result<(), NoMemory>
    requires { (u : _) → Contains uses.now u → IsThere tree.now values.now node u }
    ensures { OnOk result (env.new.items ≡ env.old.items
        ++ map (λ u. value_in values.now (node_of tree.now node u) (attribute_of u)) uses.now) }
{
    for place in uses {
        env.push(value_at(tree, values, node, *place))?;
    }
    Ok(())
}

/// Adds the fields of the node, which are so many.
fn push_fields(tree: &Tree, node: u32, count: u32, env: &mut Vec<Value>) -> Result<(), NoMemory>
    requires { length (node_at tree.now node).fields ≡ count }
    ensures { OnOk result (env.new.items ≡ env.old.items ++ (node_at tree.now node).fields) }
{
    for i in 0..count {
        env.push(tree.field(node, i))?;
    }
    Ok(())
}

/// The variables of an equation that uses these places: their values, and the node's fields.
fn gather(
    types: &Types,
    tree: &Tree,
    values: &Values,
    node: u32,
    uses: &[Place],
    env: &mut Vec<Value>,
) -> Result<(), NoMemory>
    requires node { node < length tree.now }
    requires ty { (node_at tree.now node).ty < length types.now.types }
    requires fields { length (node_at tree.now node).fields
        ≡ length (field_types (type_at types.now.types (node_at tree.now node).ty).items) }
    requires uses { (u : _) → Contains uses.now u → IsThere tree.now values.now node u }
    ensures { OnOk result (env.new.items ≡ env_of tree.now values.now node uses.now) }
{
    env.clear();
    push_uses(tree, values, node, uses, env)?;
    push_fields(tree, node, types.field_count(tree.type_of(node)), env)?;
    Ok(())
}

/// An equation of the type.
fn equation_at<'r, 'a>(a: &'r Attribution<'a>, ty: u32, e: u32) -> &'r Equation<'a>
    requires ty { ty < length (equation_rows a.now) }
    requires equation { e < length (slice_index_or (equation_rows a.now) ty []) }
    ensures is { slice_get (slice_index_or (equation_rows a.now) ty []) e ≡ Some (equation_of result.now) }
    ensures meaning { (s l : List ℕ) → expression_at (expressions_of s l a.now) ty e
        ≡ meaning s l result.now.value.now }
{
    let equations = a.equations_of(ty);
    &equations[e as usize]
}

/// Evaluates an equation of the node's type.
pub(crate) fn evaluate(
    types: &Types,
    a: &Attribution,
    tree: &Tree,
    texts: &Texts,
    cells: &mut Cells,
    values: &mut Values,
    node: u32,
    e: u32,
    env: &mut Vec<Value>,
) -> Result<(), NoMemory>
    requires { CanEvaluate (grammar_of types.now a.now)
        (expressions_of texts.now.source.now texts.now.literals.now a.now) tree.now
        (cells_of cells.old.units) values.old node e }
    ensures ok { OnOk result (Evaluates texts.now.source.now texts.now.literals.now
        (grammar_of types.now a.now)
        (expressions_of texts.now.source.now texts.now.literals.now a.now) tree.now node e
        (cells_of cells.old.units) (cells_of cells.new.units) values.old values.new) }
    ensures kept { KeepsCells cells.old cells.new }
{
    let equation = equation_at(a, tree.type_of(node), e);
    gather(types, tree, values, node, equation.uses.as_slice(), env)?;
    let value = eval(equation.value, env.as_slice(), texts, cells, &[], &[])?;
    set_at(tree, values, node, equation.target, value);
    Ok(())
}

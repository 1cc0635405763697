use ag_model::Values;
use ast_types::Types;
use tree_store::Tree;
use value_store::Texts;

/// What patterns and reads look at: a tree, the types of its nodes, the values of its attributes,
/// and the bytes of texts.
#[derive(Clone, Copy)]
pub struct World<'w> {
    pub types: &'w Types,
    pub tree: &'w Tree,
    pub values: &'w Values,
    pub texts: Texts<'w>,
}

// What every labeller promises.
ghost use Rattle.std.specs.Prelude.{IfOk};
ghost use Rattle.beg_model.specs.Accepted.{IsAccepted};
ghost use Rattle.beg_model.specs.Labels.{AreLeastAndChosen};

use crate::labels::Labels;
use crate::rules::CoverRules;
use ast_types::Types;
use std::alloc::Global;
use tree_store::Tree;
use value_store::{NoMemory, Texts};

/// What finds the least cost and the chosen rule of each node and nonterminal.
pub trait Labeller {
    /// The labels of the tree: for each pair the least cost of a cover and the chosen rule, and
    /// nothing where there is no cover.
    fn label(
        &mut self,
        alloc: Global,
        rules: &CoverRules,
        types: &Types,
        tree: &Tree,
        texts: &Texts,
    ) -> Result<Labels, NoMemory>
        requires { IsAccepted texts.now rules.now types.now tree.now }
        ensures { IfOk result (AreLeastAndChosen texts.now rules.now types.now tree.now) };
}

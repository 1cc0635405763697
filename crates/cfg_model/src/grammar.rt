// Rules and grammars over numbered terminals and nonterminals.
use crate::symbol::Sym;
use std::marker::Model;

/// A rule: its left side, a nonterminal, and its right side.
#[derive(Drop)]
pub struct GrammarRule {
    pub left: u32,
    pub right: Vec<Sym>,
}

impl Model for GrammarRule {
    ghost use Rattle.cfg_model.specs.Cfg.{Rule};

    ghost Value = { Rule };

    ghost view = { λ rule. record { left = rule.left; right = rule.right.items } };
}

/// A grammar. Terminals are numbered from 0 to `terminals`, which is END and stands in no rule;
/// nonterminals are numbered from 0. Rules count from 1: rule r is `rules[r - 1]`, and rule 0 stands for
/// `S' = S` with the start symbol S.
#[derive(Drop)]
pub struct Grammar {
    pub terminals: u32,
    pub nonterminals: u32,
    pub start: u32,
    pub rules: Vec<GrammarRule>,
}

impl Model for Grammar {
    ghost use Rattle.cfg_model.specs.Cfg.{Cfg};

    ghost Value = { Cfg };

    ghost view = { λ g. record {
      terminals = g.terminals;
      nonterminals = g.nonterminals;
      start = g.start;
      rules = g.rules.items;
    } };
}

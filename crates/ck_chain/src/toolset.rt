// What an accepted specification gives: scanner, parser and node types, as far as it has their sections.
ghost use Rattle.std.specs.Prelude.{◌≡◌};
ghost use Rattle.ck_base.specs.Found.{Finds};
ghost use Rattle.ck_chain.specs.Answers.{Misses, depth, section_at as behind};
ghost use Rattle.ck_chain.specs.Promise.{tools_of};

use crate::stage::Stage;
use cfg_model::NamedGrammar;
use ell_tables::PlainLl;
use lalr_tables::PlainLr;
use node_model::NodeSpec;
use rex_model::{ScanRules, ScanTables};
use spec_text::Section;
use value_store::Literals;

/// The parser of a grammar.
#[derive(Drop)]
pub enum Parser {
    /// There is no grammar.
    Nothing,
    /// The table of LALR(1) parsing.
    Lr(PlainLr),
    /// The table of LL(1) parsing.
    Ll(PlainLl),
}

/// What an accepted specification gives: what its sections declare, with their tables.
#[derive(Drop)]
pub struct Toolset<'a> {
    /// The scan rules of the section REX.
    pub rules: ScanRules<'a>,
    /// The scanner's tables.
    pub scan: ScanTables,
    /// The grammar of the section LALR or ELL; `None` where the specification has neither.
    pub grammar: Option<NamedGrammar>,
    /// The parser of the grammar.
    pub parser: Parser,
    /// What the section AST declares; `None` where the specification has none.
    pub nodes: Option<NodeSpec<'a>>,
    /// The texts of the strings in the expressions of AST.
    pub literals: Literals,
}

impl<'a> Toolset<'a> {
    /// The first section that the stage needs and the specification lacks; LALR for a grammar.
    pub fn missing(&self, stage: Stage) -> Option<Section>
        ensures { Finds (λ section. section) (Misses (tools_of self.now) stage) result }
    {
        let depth = self.depth();
        if depth < stage.needs() {
            Some(section_at(depth))
        } else {
            None
        }
    }

    /// How many sections there are: REX, a grammar, and AST behind a grammar.
    fn depth(&self) -> u32
        ensures { result ≡ depth (tools_of self.now) }
    {
        match (&self.grammar, &self.nodes) {
            (None, _) => 1,
            (Some(_), None) => 2,
            (Some(_), Some(_)) => 3,
        }
    }
}

/// The section behind so many; LALR for a grammar.
fn section_at(depth: u32) -> Section
    ensures { result ≡ behind depth }
{
    match depth {
        0 => Section::Rex,
        1 => Section::Lalr,
        _ => Section::Ast,
    }
}

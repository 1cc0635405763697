// The grammar section read: its grammar and names, or its first fault.
ghost use Rattle.std.specs.Prelude.{◌≡◌, ℕ, ◌+◌, ◌^◌, ◌<◌, Bool, ◌≤◌, List, length, map, IfOk, IfErr};
ghost use Rattle.cfg_model.specs.Cfg.{IsGrammar};
ghost use Rattle.section_frame.specs.Declares.{DeclareAll, Grow};
ghost use Rattle.section_frame.specs.FirstFault.{Accepts};
ghost use Rattle.spec_text.specs.Promise.{AreSectionsOf};
ghost use Rattle.spec_text.specs.Sections.{SectionLines};
ghost use Rattle.section_frame.specs.Passes.{judged_by, numbered};
ghost use Rattle.section_frame.specs.Stages.{IsFirstIn};
ghost use Rattle.front_spec.specs.GrammarFaults.{labels_in, nonterminals_in};
ghost use Rattle.front_spec.specs.GrammarShapes.{ProductionLine};
ghost use Rattle.front_spec.specs.GrammarPromise.{DeclaresGrammar, HasGrammar, IsGrammarFault, judged_grammar};
ghost use Rattle.front_spec.specs.GrammarSteps.{produced};

use crate::grammar_rules::grammar_rules;
use crate::grammar_text::grammar_of;
use crate::production::{Production, Productions};
use crate::production_fault::{ByLeft, limit_in, twice_in, unknown_in};
use bumpalo::Bump;
use cfg_model::{Grammar, NamedGrammar};
use ck_base::{Names, SpecFault};
use rex_model::ScanRules;
use section_frame::{Numbered, declared_lines, gathered, stages, with_head};
use spec_text::Sections;
use std::alloc::Global;

/// The grammar of the section LALR or ELL, or the section's first fault: the first line without a
/// shape; else the first line of kind twice, then unknown, where a section without a rule is at
/// fault at its head's line, then limit. `s` is what `sections` gives of `spec`, which has such a
/// section, and `rules` are what `read_rex` gives of it. Terminals are the tokens of the rules;
/// nonterminals are numbered in the order in which their first rules stand.
pub fn read_grammar(
    alloc: Global,
    spec: &[u8],
    s: &Sections,
    rules: &ScanRules<'_>,
) -> Result<NamedGrammar, SpecFault>
    requires size { length spec.now ≤ 1048576 }
    requires read { AreSectionsOf spec.now s.now }
    requires some { (ell : Bool) × (lines : SectionLines) × HasGrammar spec.now ell lines }
    ensures grammar { IfOk result (DeclaresGrammar spec.now rules.now.tokens) }
    ensures fault { IfErr result (IsGrammarFault spec.now rules.now.tokens) }
    ensures in_range { IfOk result (λ g. IsGrammar g.grammar) }
    ensures terminals { IfOk result (λ g. g.grammar.terminals ≡ length rules.now.tokens) }
    ensures nonterminals { IfOk result (λ g. length g.nonterminals ≡ g.grammar.nonterminals) }
    ensures labels { IfOk result (λ g. length g.labels ≡ length g.grammar.rules) }
{
    let text = grammar_of(s);
    let tokens = &rules.tokens;
    let texts = Bump::new(alloc);
    let list = declared_lines(alloc, &texts, spec, text.section.lines, &Productions)?;
    let list = list.as_slice();
    let names = declared_names(alloc, tokens, text.section.head, list)?;
    let rules = grammar_rules(alloc, tokens, &names.nonterminals, list)?;
    Ok(NamedGrammar {
        grammar: Grammar {
            terminals: tokens.len(),
            nonterminals: names.nonterminals.len(),
            start: 0,
            rules,
        },
        nonterminals: names.nonterminals,
        labels: names.labels,
        ell: text.ell,
    })
}

/// The names that a grammar declares.
#[derive(Drop)]
struct GrammarNames {
    labels: Names,
    nonterminals: Names,
}

/// The names that the rules declare, or the first fault where each line has a shape.
fn declared_names(
    alloc: Global,
    tokens: &Names,
    head: u32,
    list: &[Numbered<Production<'_>>],
) -> Result<GrammarNames, SpecFault>
    requires few { length list.now + 1 < 2 ^ 32 }
    requires grow { Grow (map numbered list.now) }
    ensures labels { IfOk result (λ names.
        names.labels ≡ labels_in (map (judged_by produced) list.now)) }
    ensures nonterminals { IfOk result (λ names.
        names.nonterminals ≡ nonterminals_in (map (judged_by produced) list.now)) }
    ensures accepted { IfOk result (λ names. (these : SectionLines) → head ≡ these.head
        → DeclareAll ProductionLine these.inside (map (judged_by produced) list.now)
        → Accepts (judged_grammar tokens.now these) (map (judged_by produced) list.now)) }
    ensures fault { IfErr result (λ fault. (these : SectionLines) → head ≡ these.head
        → DeclareAll ProductionLine these.inside (map (judged_by produced) list.now)
        → IsFirstIn (judged_grammar tokens.now these) fault) }
{
    let (labels, twice) = twice_in(alloc, tokens, list)?;
    let nonterminals = gathered(alloc, list, &ByLeft)?;
    let unknown = unknown_in(tokens, &nonterminals, list)?;
    let unknown = with_head(list.is_empty(), head, unknown);
    let limit = limit_in(alloc, tokens, list)?;
    stages(twice, unknown, None, limit)?;
    Ok(GrammarNames {
        labels,
        nonterminals,
    })
}

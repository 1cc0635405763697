// A specification's sections read in their order, and the tables made of them.
ghost use Rattle.std.specs.Prelude.{◌≡◌, ℕ, ◌≤◌, Bool, IsTrue, List, length, IfOk, IfErr};
ghost use Rattle.spec_text.specs.Promise.{AreSectionsOf};
ghost use Rattle.spec_text.specs.Sections.{SectionLines};
ghost use Rattle.front_spec.specs.GrammarPromise.{HasGrammar, IsGrammarFault};
ghost use Rattle.ck_chain.specs.Accepts.{Accepts, RefusesSpec};
ghost use Rattle.ck_chain.specs.Promise.{AreTools, Refuses, tools_of};
ghost use Rattle.ck_chain.specs.within.Grammars.{AreFound, IsFaultOfNodes, IsFound};
ghost use Rattle.ck_chain.specs.within.Refusing.{refused_of_tables};
ghost use Rattle.ck_chain.specs.within.Scanners.{CountsRules};

use crate::parser::parser_of;
use crate::refused::Refused;
use crate::toolset::Toolset;
use bumpalo::Bump;
use cfg_model::NamedGrammar;
use ck_base::{Kind, Refusal, SpecFault};
use front_spec::{read_grammar, read_rex};
use node_spec::{NodeSpec, read_ast};
use rex_dfa::{DfaError, build};
use rex_model::ScanRules;
use spec_text::{Section, Sections, first_other, section_of, sections};
use std::alloc::Global;
use value_store::Literals;

/// What a specification of at most 1,048,576 bytes declares, with its tables, or its first refusal.
/// Expressions lie in the arena.
///
/// ```text
/// sections         after it each line belongs to one section
/// REX              after it the scan rules are known, with numbers in range
/// its tables       after it no rule matches the empty word, and states are at most 4,096
/// LALR or ELL      after it the grammar over the tokens is known, with numbers in range
/// its table        after it no terminal has two actions
/// AST              after it the nodes are known, and fit the grammar
/// others           a section that isn't built is a fault of its head's line
/// ```
pub fn accept<'a>(
    alloc: Global,
    arena: &'a Bump<Global>,
    spec: &[u8],
) -> Result<Toolset<'a>, Refused>
    requires { length spec.now ≤ 1048576 }
    ensures accepts { IfOk result (λ tools. Accepts spec.now (tools_of tools)) }
    ensures tools { IfOk result AreTools }
    ensures refuses { IfErr result (Refuses (RefusesSpec spec.now)) }
{
    let all = sections(alloc, spec)?;
    let rules = read_rex(alloc, arena, spec, &all)?;
    let scan = match build(alloc, &rules) {
        Ok(scan) => scan,
        Err(error) => return Err(without_tables(error)),
    };
    let grammar = grammar_of(alloc, spec, &all, &rules)?;
    let parser = parser_of(alloc, &rules.tokens, &grammar)?;
    let mut literals = Literals::new(alloc);
    let nodes = declared_nodes(alloc, arena, spec, &all, &grammar, &mut literals)?;
    let built = [Section::Rex, Section::Lalr, Section::Ell, Section::Ast];
    if let Some(line) = first_other(&all, &built) {
        return Err(Refused::Refusal(Refusal::BadSpec {
            line,
            kind: Kind::Syntax,
        }));
    }
    Ok(Toolset {
        rules,
        scan,
        grammar,
        parser,
        nodes,
        literals,
    })
}

/// The refusal for rules without tables.
fn without_tables(error: DfaError) -> Refused
    requires { CountsRules error }
    ensures { result ≡ refused_of_tables error }
{
    match error {
        DfaError::NullableRule(i) => Refused::Refusal(Refusal::NullableRule { rule: i + 1 }),
        DfaError::TooManyStates(kind) => Refused::Refusal(Refusal::TooManyStates { kind }),
        DfaError::NoMemory => Refused::NoMemory,
    }
}

/// The grammar of the section LALR or ELL; `None` where the specification has neither.
fn grammar_of(
    alloc: Global,
    spec: &[u8],
    all: &Sections,
    rules: &ScanRules<'_>,
) -> Result<Option<NamedGrammar>, SpecFault>
    requires size { length spec.now ≤ 1048576 }
    requires read { AreSectionsOf spec.now all.now }
    ensures found { IfOk result (IsFound spec.now rules.now.tokens) }
    ensures fault { IfErr result (IsGrammarFault spec.now rules.now.tokens) }
{
    if has_grammar(all) {
        let g = read_grammar(alloc, spec, all, rules)?;
        Ok(Some(g))
    } else {
        Ok(None)
    }
}

/// What the section AST declares for the grammar; `None` where the specification has none. The strings
/// of its expressions are put into the literals.
fn declared_nodes<'a>(
    alloc: Global,
    arena: &'a Bump<Global>,
    spec: &[u8],
    all: &Sections,
    grammar: &Option<NamedGrammar>,
    literals: &mut Literals,
) -> Result<Option<NodeSpec<'a>>, SpecFault>
    requires size { length spec.now ≤ 1048576 }
    requires read { AreSectionsOf spec.now all.now }
    requires grammar { (tokens : List (List ℕ)) × IsFound spec.now tokens grammar.now }
    ensures found { IfOk result (AreFound spec.now literals.new grammar.now) }
    ensures fault { IfErr result (IsFaultOfNodes spec.now grammar.now) }
{
    match grammar {
        None => Ok(None),
        Some(g) => match section_of(all, Section::Ast) {
            Some(_) => {
                let nodes = read_ast(alloc, arena, spec, all, g, literals)?;
                Ok(Some(nodes))
            }
            None => Ok(None),
        },
    }
}

/// Whether there is a section LALR or ELL.
fn has_grammar(all: &Sections) -> bool
    requires { (file : List ℕ) × AreSectionsOf file all.now }
    ensures found { (file : List ℕ) → AreSectionsOf file all.now → IsTrue result
        → (ell : Bool) × (lines : SectionLines) × HasGrammar file ell lines }
    ensures absent { (file : List ℕ) → AreSectionsOf file all.now → (IsTrue result → ⊥)
        → (ell : Bool) (lines : SectionLines) → HasGrammar file ell lines → ⊥ }
{
    match section_of(all, Section::Lalr) {
        Some(_) => true,
        None => match section_of(all, Section::Ell) {
            Some(_) => true,
            None => false,
        },
    }
}

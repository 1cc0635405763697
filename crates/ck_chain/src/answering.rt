// What a run answers: the text of its stage, or its first refusal.
ghost use Rattle.std.specs.Prelude.{◌≡◌, ◌+◌, ◌^◌, ◌<◌, length, IfSome};
ghost use Rattle.ck_base.specs.Found.{HasNo};
ghost use Rattle.ck_chain.specs.Answers.{AnswerOf, Makes, Misses, missing_refusal};
ghost use Rattle.ck_chain.specs.Promise.{AreTools, Refuses, answer_in, tools_of};

use crate::derivation::derivation_text;
use crate::naming::section_name;
use crate::refused::Refused;
use crate::source_tree::printed_tree;
use crate::stage::Stage;
use crate::token_text::tokens_text;
use crate::toolset::Toolset;
use ck_base::{Name, Refusal};
use spec_text::Section;
use std::alloc::Global;

/// A source has at most this many bytes.
const SOURCE_LIMIT: usize = 4_194_304;

/// What the stage makes of the source, in print, or the first refusal. `tools` are as `accept` gives
/// them.
pub fn meaning(
    alloc: Global,
    tools: &Toolset<'_>,
    source: &[u8],
    stage: Stage,
) -> Result<Vec<u8>, Refused>
    requires { AreTools tools.now }
    ensures { IfSome (answer_in result) (AnswerOf stage (tools_of tools.now) source.now) }
{
    if let Some(section) = tools.missing(stage) {
        return Err(without_section(alloc, section));
    }
    if source.len() > SOURCE_LIMIT {
        return Err(Refused::Refusal(Refusal::SourceTooLong));
    }
    make(alloc, tools, source, stage)
}

/// The refusal for a section that is missing.
pub fn without_section(alloc: Global, section: Section) -> Refused
    ensures { Refuses (λ refusal. refusal ≡ missing_refusal section) result }
{
    match Name::from_bytes(alloc, section_name(section)) {
        Ok(section) => Refused::Refusal(Refusal::MissingSection { section }),
        Err(_) => Refused::NoMemory,
    }
}

/// What the stage makes of a source that isn't too long, where it misses no section.
fn make(alloc: Global, tools: &Toolset<'_>, source: &[u8], stage: Stage) -> Result<Vec<u8>, Refused>
    requires tools { AreTools tools.now }
    requires none_missing { HasNo (Misses (tools_of tools.now) stage) }
    requires small { length source.now + 1 < 2 ^ 32 }
    ensures { IfSome (answer_in result) (Makes (tools_of tools.now) source.now stage) }
{
    match (stage, &tools.grammar, &tools.nodes) {
        (Stage::Tokens, _, _) => tokens_text(alloc, &tools.rules, &tools.scan, source),
        (Stage::Derive, Some(g), _) => {
            derivation_text(alloc, &tools.rules, &tools.scan, g, &tools.parser, source)
        }
        (Stage::Tree, Some(g), Some(nodes)) => printed_tree(alloc, tools, g, nodes, source),
        (Stage::Derive, None, _) => unreachable!(),
        (Stage::Tree, None, _) => unreachable!(),
        (Stage::Tree, Some(_), None) => unreachable!(),
    }
}

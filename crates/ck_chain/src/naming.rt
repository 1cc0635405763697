// Names of sections, tokens, nonterminals and labels by their numbers.
ghost use Rattle.std.specs.Prelude.{◌≡◌, [], slice_index_or};
ghost use Rattle.spec_text.specs.Sections.{name_of};
ghost use Rattle.ck_chain.specs.GrammarAccepts.{label_of, terminal_name};

use ck_base::Names;
use spec_text::Section;

/// The name with this number; empty where there is none.
pub(crate) fn name_at(names: &Names, n: u32) -> &[u8]
    ensures { result.now ≡ slice_index_or names.now n [] }
{
    if n < names.len() {
        names.text_of(n)
    } else {
        b""
    }
}

/// The label of the rule; rules count from 1.
pub(crate) fn label_at(labels: &Names, rule: u32) -> &[u8]
    ensures { result.now ≡ label_of labels.now rule }
{
    name_at(labels, rule.saturating_sub(1))
}

/// The name of the terminal: the token's, and `END` for the one behind all tokens.
pub(crate) fn terminal_at(tokens: &Names, terminal: u32) -> &[u8]
    ensures { result.now ≡ terminal_name tokens.now terminal }
{
    if terminal == tokens.len() {
        b"END"
    } else {
        name_at(tokens, terminal)
    }
}

/// The name of the section.
pub(crate) fn section_name(section: Section) -> &'static [u8]
    ensures { result.now ≡ name_of section }
{
    match section {
        Section::Rex => b"REX",
        Section::Lalr => b"LALR",
        Section::Ell => b"ELL",
        Section::Ast => b"AST",
        Section::Ag => b"AG",
        Section::Puma => b"PUMA",
        Section::Beg => b"BEG",
    }
}

// The grammar section of a specification, under either of its heads.
ghost use Rattle.std.specs.Prelude.{ℕ, Bool, List};
ghost use Rattle.spec_text.specs.Promise.{AreSectionsOf};
ghost use Rattle.spec_text.specs.Sections.{SectionLines};
ghost use Rattle.front_spec.specs.GrammarPromise.{HasGrammar};
ghost use Rattle.front_spec.specs.GrammarSteps.{IsGrammarText};

use spec_text::{Section, SectionText, Sections, section_of};

/// The section of a grammar, and whether it is ELL.
#[derive(Clone, Copy)]
pub(crate) struct GrammarText<'s> {
    pub section: SectionText<'s>,
    pub ell: bool,
}

/// The section LALR or ELL, of which there is one.
pub(crate) fn grammar_of(s: &Sections) -> GrammarText<'_>
    requires { (file : List ℕ) × (ell : Bool) × (lines : SectionLines) × AreSectionsOf file s.now
        × HasGrammar file ell lines }
    ensures { (file : List ℕ) → AreSectionsOf file s.now → IsGrammarText file result }
{
    if let Some(section) = section_of(s, Section::Lalr) {
        return GrammarText {
            section,
            ell: false,
        };
    }
    GrammarText {
        section: section_of(s, Section::Ell).unwrap(),
        ell: true,
    }
}

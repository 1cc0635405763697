// A specification read into its sections, or its first fault.
ghost use Rattle.std.specs.Prelude.{◌≡◌, ◌≤◌, ◌<◌, ◌-◌, ◌↔◌, ℕ, List, Some, length, take, drop, slice_get, Contains, IsTrue, IfOk, IfErr, MatchOption};
ghost use Rattle.ck_base.specs.Found.{HasNo};
ghost use Rattle.spec_text.specs.Promise.{AreSectionsOf, HasSection, IsFirstOther, IsSectionFault, IsSectionOf};
ghost use Rattle.spec_text.specs.Sections.{SectionLines};
ghost use Rattle.spec_text.specs.declared.line.SpecLine.{SpecLine as spec_line};
ghost use Rattle.spec_text.specs.declared.section.Section.TheVariants.{Rex as rex};

use crate::line::{SpecLine, SpecLines, lines_of};
use crate::order::parts_of;
use crate::section::{Part, Section, SectionText, Sections};
use ck_base::SpecFault;
use std::alloc::Global;

/// The sections of a specification. `Bad` has the kind `Section` and comes where they don't stand in
/// their order, each once at most, with `END` behind them: it has the first line that breaks this,
/// and where `END` is missing one more than the number of all lines. A line with a fault of its own
/// is kept, with the kind of the fault in `bad`.
pub fn sections(alloc: Global, spec: &[u8]) -> Result<Sections, SpecFault>
    requires { length spec.now ≤ 1048576 }
    ensures sections { IfOk result (AreSectionsOf spec.now) }
    ensures fault { IfErr result (IsSectionFault spec.now) }
{
    let SpecLines { lines, count } = lines_of(alloc, spec)?;
    let parts = parts_of(alloc, spec, lines.as_slice(), count + 1)?;
    Ok(Sections { lines, parts })
}

/// The section of the specification; `None` where it lacks it.
pub fn section_of(s: &Sections, section: Section) -> Option<SectionText<'_>>
    requires { (file : List ℕ) × AreSectionsOf file s.now }
    ensures { (file : List ℕ) → AreSectionsOf file s.now → MatchOption result
        ((these : SectionLines) → HasSection file section these → ⊥) (IsSectionOf file section) }
{
    for part in s.parts.as_slice() {
        if is_same(part.section, section) {
            return Some(text_of(s.lines.as_slice(), *part));
        }
    }
    None
}

/// The number of the line that is the head of the first section that isn't one of `these`; `None`
/// where each section is one of them.
pub fn first_other(s: &Sections, these: &[Section]) -> Option<u32>
    requires { (file : List ℕ) × AreSectionsOf file s.now }
    ensures { (file : List ℕ) → AreSectionsOf file s.now → MatchOption result
        (HasNo (IsFirstOther file these.now)) (IsFirstOther file these.now) }
{
    for part in s.parts.as_slice() {
        if !is_among(part.section, these) {
            return Some(text_of(s.lines.as_slice(), *part).head);
        }
    }
    None
}

/// Whether the section is one of these.
fn is_among(section: Section, these: &[Section]) -> bool
    ensures { IsTrue result ↔ Contains these.now section }
{
    these.contains(&section)
}

/// The section REX, which each specification has.
pub fn rex_of(s: &Sections) -> SectionText<'_>
    requires { (file : List ℕ) × AreSectionsOf file s.now }
    ensures { (file : List ℕ) → AreSectionsOf file s.now → IsSectionOf file rex result }
{
    let parts = s.parts.as_slice();
    let lines = s.lines.as_slice();
    text_of(lines, first_of(parts))
}

/// The first part.
fn first_of(parts: &[Part]) -> Part
    requires { 0 < length parts.now }
    ensures { slice_get parts.now 0 ≡ Some result }
{
    parts[0]
}

/// Whether the two are one section.
fn is_same(section: Section, other: Section) -> bool
    ensures { IsTrue result ↔ (section ≡ other) }
{
    section == other
}

/// The part of the lines.
fn text_of(lines: &[SpecLine], part: Part) -> SectionText<'_>
    requires head { part.head < length lines.now }
    requires order { part.first ≤ part.end }
    requires within { part.end ≤ length lines.now }
    ensures head { (line : spec_line) → slice_get lines.now part.head ≡ Some line
        → result.head ≡ line.number }
    ensures lines { result.lines.now ≡ take (part.end - part.first) (drop part.first lines.now) }
{
    SectionText {
        head: lines[part.head as usize].number,
        lines: &lines[part.first as usize..part.end as usize],
    }
}

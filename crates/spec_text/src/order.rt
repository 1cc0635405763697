// The order of sections, as a machine over section lines.
ghost use Rattle.std.specs.Prelude.{◌≡◌, ℕ, ◌+◌, ◌^◌, ◌<◌, ◌-◌, ◌↔◌, ◌++◌, IsTrue, List, length, MatchOption, IfOk, IfErr, IfSome};
ghost use Rattle.ck_base.specs.declared.fault.Kind.TheVariants.{Section as section_kind};
ghost use Rattle.ck_base.specs.declared.fault.SpecFault.TheVariants.{Bad as bad};
ghost use Rattle.spec_text.specs.Lines.{Line};
ghost use Rattle.spec_text.specs.Sections.{AreSections, rank};
ghost use Rattle.spec_text.specs.Spans.{AreLinesOf, IsLineOf};
ghost use Rattle.spec_text.specs.SectionSteps.{IsFaultOf, IsMark, IsMarkOf, IsPast, Moves, Stuck, parts_in};
ghost use Rattle.spec_text.specs.declared.order.State.TheVariants.{Closed as closed_state};

use crate::line::SpecLine;
use crate::section::{Part, Section};
use crate::token::SpecSort;
use crate::view::bytes_at;
use ck_base::{Kind, NoMemory, SpecFault};
use std::alloc::Global;

/// What a line is in the order of sections.
#[derive(Clone, Copy)]
enum Mark {
    Head(Section),
    End,
    Plain,
}

/// Where the lines have come to.
#[derive(Clone, Copy)]
enum State {
    /// No line was read.
    Start,
    /// In the section whose head stands at this place.
    Open(Section, u32),
    /// `END` was read.
    Closed,
}

/// The sections of the lines; else the first line that breaks their order, or `past` where `END`
/// is missing.
pub(crate) fn parts_of(
    alloc: Global,
    spec: &[u8],
    lines: &[SpecLine],
    past: u32,
) -> Result<Vec<Part>, SpecFault>
    requires few { length lines.now < 2 ^ 32 - 1 }
    requires read { (are : List Line) × AreLinesOf spec.now lines.now are }
    ensures parts { IfOk result (λ parts. (are : List Line) → AreLinesOf spec.now lines.now are
        → AreSections are parts.items) }
    ensures fault { IfErr result (λ fault. (are : List Line) → AreLinesOf spec.now lines.now are
        → IsFaultOf past are fault) }
{
    let mut parts = Vec::new(alloc);
    let mut state = State::Start;
    for (at, line) in lines.iter().enumerate() {
        let Some((next, ended)) = step(state, mark_of(spec, line), at as u32) else {
            return Err(fault_at(line.number));
        };
        push_some(&mut parts, ended)?;
        state = next;
    }
    if is_closed(state) {
        Ok(parts)
    } else {
        Err(fault_at(past))
    }
}

/// Whether `END` was read.
fn is_closed(state: State) -> bool
    ensures { IsTrue result ↔ (state ≡ closed_state) }
{
    matches!(state, State::Closed)
}

/// Puts the part behind the others, where there is one.
fn push_some(parts: &mut Vec<Part>, part: Option<Part>) -> Result<(), NoMemory>
    ensures { IfOk result (λ done. parts.new.items ≡ parts.old.items ++ parts_in part) }
{
    if let Some(part) = part {
        parts.push(part)?;
    }
    Ok(())
}

/// Where a line at the place leads, and the part that it ends; `None` where it can't come next.
fn step(state: State, mark: Mark, at: u32) -> Option<(State, Option<Part>)>
    requires { IsPast state at }
    ensures moves { MatchOption result ((line : Line) → IsMark line mark → Stuck state at line)
        (λ next. (line : Line) → IsMark line mark → Moves state at line next.0 (parts_in next.1)) }
    ensures past { IfSome result (λ next. IsPast next.0 (at + 1)) }
{
    match state {
        State::Start => match mark {
            Mark::Head(first) => {
                if rank(first) == 0 {
                    Some((State::Open(first, at), None))
                } else {
                    None
                }
            }
            Mark::End | Mark::Plain => None,
        },
        State::Open(section, head) => {
            let part = Part {
                section,
                head,
                first: head + 1,
                end: at,
            };
            match mark {
                Mark::Head(next) => {
                    if rank(next) == rank(section) + 1 {
                        Some((State::Open(next, at), Some(part)))
                    } else {
                        None
                    }
                }
                Mark::End => Some((State::Closed, Some(part))),
                Mark::Plain => Some((State::Open(section, head), None)),
            }
        }
        State::Closed => None,
    }
}

/// The place of the section in the order.
fn rank(section: Section) -> u32
    ensures { result ≡ rank section }
{
    match section {
        Section::Rex => 0,
        Section::Lalr | Section::Ell => 1,
        Section::Ast => 2,
        Section::Ag => 3,
        Section::Puma => 4,
        Section::Beg => 5,
    }
}

/// What the line is.
fn mark_of(spec: &[u8], line: &SpecLine) -> Mark
    requires { (is : Line) × IsLineOf spec.now line.now is }
    ensures { (is : Line) → IsLineOf spec.now line.now is → IsMark is result }
{
    if line.bad.is_some() {
        return Mark::Plain;
    }
    let [token] = line.tokens.as_slice() else {
        return Mark::Plain;
    };
    let token = *token;
    match token.sort {
        SpecSort::Word => mark_of_word(bytes_at(spec, token)),
        SpecSort::Number | SpecSort::Text | SpecSort::Class | SpecSort::Sign => Mark::Plain,
    }
}

/// What a line of this word alone is.
fn mark_of_word(word: &[u8]) -> Mark
    ensures { IsMarkOf word.now result }
{
    if word == b"REX".as_slice() {
        Mark::Head(Section::Rex)
    } else if word == b"LALR".as_slice() {
        Mark::Head(Section::Lalr)
    } else if word == b"ELL".as_slice() {
        Mark::Head(Section::Ell)
    } else if word == b"AST".as_slice() {
        Mark::Head(Section::Ast)
    } else if word == b"AG".as_slice() {
        Mark::Head(Section::Ag)
    } else if word == b"PUMA".as_slice() {
        Mark::Head(Section::Puma)
    } else if word == b"BEG".as_slice() {
        Mark::Head(Section::Beg)
    } else if word == b"END".as_slice() {
        Mark::End
    } else {
        Mark::Plain
    }
}

/// The sections don't stand as they must, at this line.
fn fault_at(line: u32) -> SpecFault
    ensures { result ≡ bad line section_kind }
{
    SpecFault::Bad {
        line,
        kind: Kind::Section,
    }
}

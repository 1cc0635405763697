// The line that each refusal prints.
ghost use Rattle.std.specs.Prelude.{◌≡◌, IfOk, ◌++◌, codes, map};
ghost use Rattle.std.specs.List.{concat};
ghost use Rattle.std.specs.Fmt.{decimal};
ghost use Rattle.ck_base.specs.Lines.{line_of, kind_text_of, source_line, states_text_of};
ghost use Rattle.ck_base.specs.declared.refusal.Refusal.TheVariants.{BadSpec, LalrConflict, LlConflict, NullableRule, SpentBudget, TooManyStates, UsedUp, ZeroCycle};

use crate::fault::Kind;
use crate::refusal::{Refusal, StateKind};
use std::alloc::Global;
use value_store::{Name, NoMemory};

/// The line of wrong words, without its end.
pub const USAGE_LINE: &[u8] =
    b"usage: cocktail check SPEC | tokens|derive|tree|attrs|ir|labels|run SPEC SOURCE | bench N";
/// The line of a read fault, without its end.
pub const READ_LINE: &[u8] = b"device: read fault";
/// The line of a write fault, without its end.
pub const WRITE_LINE: &[u8] = b"device: write fault";
/// The line of want of memory, without its end.
pub const MEMORY_LINE: &[u8] = b"out of memory";

impl Refusal {
    /// The line of the refusal, without its end.
    pub fn line(&self, alloc: Global) -> Result<Vec<u8>, NoMemory>
        ensures { IfOk result (λ text. text.items ≡ line_of self.now) }
    {
        match self {
            Self::Usage => joined(alloc, &[USAGE_LINE]),
            Self::SpecTooLong => joined(alloc, &[b"spec: longer than 1048576 bytes"]),
            Self::BadSpec { line, kind } => bad_spec(alloc, *line, *kind),
            Self::NullableRule { rule } => nullable_rule(alloc, *rule),
            Self::TooManyStates { kind } => too_many_states(alloc, *kind),
            Self::Unproductive { name } => spec_name(alloc, name, b" derives no word"),
            Self::Cyclic { name } => spec_name(alloc, name, b" derives itself"),
            Self::HiddenLeft { name } => spec_name(alloc, name, b" is hidden left recursive"),
            Self::LeftRecursive { name } => spec_name(alloc, name, b" is left recursive"),
            Self::LalrConflict {
                terminal,
                rule,
                other,
            } => lalr_conflict(alloc, terminal, rule, other),
            Self::LlConflict {
                name,
                rule,
                other,
                terminal,
            } => ll_conflict(alloc, terminal, name, rule, other),
            Self::RootInherits { attribute: a } => named(alloc, b"spec: root inherits ", a, b""),
            Self::TwoEquations { holder, target } => targeted(
                alloc,
                b"spec: two equations for ",
                holder,
                target,
            ),
            Self::NoEquation { holder, target } => targeted(
                alloc,
                b"spec: no equation for ",
                holder,
                target,
            ),
            Self::NotOrdered { holder, target } => targeted(
                alloc,
                b"spec: not ordered at ",
                holder,
                target,
            ),
            Self::ZeroCycle { name } => zero_cycle(alloc, name),
            Self::MissingSection { section } => named(alloc, b"spec: no section ", section, b""),
            Self::SourceTooLong => joined(alloc, &[b"source: longer than 4194304 bytes"]),
            Self::BadToken { line, col } => placed(alloc, *line, *col, b"bad token"),
            Self::SyntaxError { line, col } => placed(alloc, *line, *col, b"syntax error"),
            Self::SourceTooLarge => joined(alloc, &[b"source: tree of more than 1048576 nodes"]),
            Self::NoRule { routine } => named(alloc, b"rewrite: no rule of ", routine, b""),
            Self::SpentBudget { budget } => spent_budget(alloc, *budget),
            Self::TargetTooLarge => joined(alloc, &[b"code: tree of more than 1048576 nodes"]),
            Self::NoCover => joined(alloc, &[b"code: no cover"]),
            Self::UsedUp { class, need, have } => used_up(alloc, class, *need, *have),
        }
    }
}

/// The line of a fault of the specification's line.
fn bad_spec(alloc: Global, line: u32, kind: Kind) -> Result<Vec<u8>, NoMemory>
    ensures { IfOk result (λ text. text.items ≡ line_of (BadSpec line kind)) }
{
    let line = format!(in alloc; "{line}")?;
    joined(
        alloc,
        &[b"spec:", line.as_bytes(), b": ", kind_text(kind).as_bytes()],
    )
}

/// The line of a scan rule that matches the empty word.
fn nullable_rule(alloc: Global, rule: u32) -> Result<Vec<u8>, NoMemory>
    ensures { IfOk result (λ text. text.items ≡ line_of (NullableRule rule)) }
{
    let rule = format!(in alloc; "{rule}")?;
    joined(
        alloc,
        &[
            b"spec: rex rule ",
            rule.as_bytes(),
            b" matches the empty word",
        ],
    )
}

/// The line of a table with too many states.
fn too_many_states(alloc: Global, kind: StateKind) -> Result<Vec<u8>, NoMemory>
    ensures { IfOk result (λ text. text.items ≡ line_of (TooManyStates kind)) }
{
    let kind = states_text(kind).as_bytes();
    joined(alloc, &[b"spec: more than 4096 ", kind, b" states"])
}

/// The line of a terminal on which a rule is to be reduced and something else is to be done.
fn lalr_conflict(
    alloc: Global,
    terminal: &Name,
    rule: &Name,
    other: &Option<Name>,
) -> Result<Vec<u8>, NoMemory>
    ensures { IfOk result (λ text.
        text.items ≡ line_of (LalrConflict terminal.now rule.now other.now)) }
{
    let (terminal, rule) = (terminal.bytes(), rule.bytes());
    match other {
        Some(other) => joined(
            alloc,
            &[
                b"spec: conflict on ",
                terminal,
                b": reduce ",
                rule,
                b", reduce ",
                other.bytes(),
            ],
        ),
        None => joined(
            alloc,
            &[
                b"spec: conflict on ",
                terminal,
                b": reduce ",
                rule,
                b", shift",
            ],
        ),
    }
}

/// The line of a terminal on which two rules of a nonterminal are to be taken.
fn ll_conflict(
    alloc: Global,
    terminal: &Name,
    name: &Name,
    rule: &Name,
    other: &Name,
) -> Result<Vec<u8>, NoMemory>
    ensures { IfOk result (λ text.
        text.items ≡ line_of (LlConflict name.now rule.now other.now terminal.now)) }
{
    let (terminal, name) = (terminal.bytes(), name.bytes());
    let (rule, other) = (rule.bytes(), other.bytes());
    joined(
        alloc,
        &[
            b"spec: conflict on ",
            terminal,
            b" in ",
            name,
            b": ",
            rule,
            b", ",
            other,
        ],
    )
}

/// The line of rewriting that makes too many calls.
fn spent_budget(alloc: Global, budget: u64) -> Result<Vec<u8>, NoMemory>
    ensures { IfOk result (λ text. text.items ≡ line_of (SpentBudget budget)) }
{
    let budget = format!(in alloc; "{budget}")?;
    joined(
        alloc,
        &[b"rewrite: more than ", budget.as_bytes(), b" calls"],
    )
}

/// The line of a class with too few registers.
fn used_up(alloc: Global, class: &Name, need: u32, have: u32) -> Result<Vec<u8>, NoMemory>
    ensures { IfOk result (λ text. text.items ≡ line_of (UsedUp class.now need have)) }
{
    let need = format!(in alloc; "{need}")?;
    let have = format!(in alloc; "{have}")?;
    joined(
        alloc,
        &[
            b"code: class ",
            class.bytes(),
            b" needs ",
            need.as_bytes(),
            b" registers and has ",
            have.as_bytes(),
        ],
    )
}

/// The line of chain rules that cost nothing.
fn zero_cycle(alloc: Global, name: &Name) -> Result<Vec<u8>, NoMemory>
    ensures { IfOk result (λ text. text.items ≡ line_of (ZeroCycle name.now)) }
{
    named(alloc, b"spec: chain rules of ", name, b" cost nothing")
}

/// A line that says this of a name of the specification.
fn spec_name(alloc: Global, name: &Name, what: &[u8]) -> Result<Vec<u8>, NoMemory>
    ensures { IfOk result (λ text. text.items ≡ codes "spec: " ++ (name.now ++ what.now)) }
{
    named(alloc, b"spec: ", name, what)
}

/// A line that names one thing.
fn named(alloc: Global, before: &[u8], name: &Name, after: &[u8]) -> Result<Vec<u8>, NoMemory>
    ensures { IfOk result (λ text. text.items ≡ before.now ++ (name.now ++ after.now)) }
{
    joined(alloc, &[before, name.bytes(), after])
}

/// A line on a target of a type or family.
fn targeted(alloc: Global, before: &[u8], holder: &Name, target: &Name) -> Result<Vec<u8>, NoMemory>
    ensures { IfOk result (λ text.
        text.items ≡ before.now ++ (holder.now ++ (codes ": " ++ target.now))) }
{
    joined(alloc, &[before, holder.bytes(), b": ", target.bytes()])
}

/// A line on a place of the source.
fn placed(alloc: Global, line: u32, col: u32, what: &[u8]) -> Result<Vec<u8>, NoMemory>
    ensures { IfOk result (λ text. text.items ≡ source_line line col what.now) }
{
    let line = format!(in alloc; "{line}")?;
    let col = format!(in alloc; "{col}")?;
    joined(
        alloc,
        &[
            b"source:",
            line.as_bytes(),
            b":",
            col.as_bytes(),
            b": ",
            what,
        ],
    )
}

/// The parts, one after the other.
fn joined(alloc: Global, parts: &[&[u8]]) -> Result<Vec<u8>, NoMemory>
    ensures { IfOk result (λ text. text.items ≡ concat (map (λ part. part.now) parts.now)) }
{
    let mut text = Vec::new(alloc);
    for part in parts {
        text.extend_from_slice(part)?;
    }
    Ok(text)
}

/// The word of a kind of fault.
fn kind_text(kind: Kind) -> &'static str
    ensures { result.now ≡ kind_text_of kind }
{
    match kind {
        Kind::Section => "section",
        Kind::Syntax => "syntax",
        Kind::Limit => "limit",
        Kind::Twice => "twice",
        Kind::Unknown => "unknown",
        Kind::Typing => "type",
    }
}

/// The word of a kind of table.
fn states_text(kind: StateKind) -> &'static str
    ensures { result.now ≡ states_text_of kind }
{
    match kind {
        StateKind::Scanner => "scanner",
        StateKind::Split => "split",
        StateKind::Parser => "parser",
    }
}

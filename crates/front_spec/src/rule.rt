// Rules of the section REX by their shape.
ghost use Rattle.std.specs.Prelude.{◌≡◌, List, [], map, MatchOption, IfOk, codes};
ghost use Rattle.rex_model.specs.Meaning.{meaning};
ghost use Rattle.spec_text.specs.Lexemes.{Lexeme, sign};
ghost use Rattle.section_frame.specs.Parts.{Nothing, NoReading, NotFirst, Opt, Reading};
ghost use Rattle.spec_text.specs.Seen.{name_in, seen};
ghost use Rattle.front_spec.specs.Regexes.{EndsRegex};
ghost use Rattle.front_spec.specs.RexShapes.{Action, Body, Context, Go, NoSlashEnds, Produces, RuleLine, SaidRule, Skips, States};
ghost use Rattle.front_spec.specs.Seen.{names_in, regex_in, said_rule};

use crate::regexes::regex;
use bumpalo::Bump;
use ck_base::NoMemory;
use rex_model::Regex;
use section_frame::{after_sign, after_word, name_of, names_of};
use spec_text::Token;
use std::alloc::Global;

/// The states of a rule, where it has some, and what follows them.
fn opt_states<'t, 's>(
    alloc: Global,
    tokens: &'t [Token<'s>],
) -> Result<Option<(Option<Vec<&'s [u8]>>, &'t [Token<'s>])>, NoMemory>
    ensures { IfOk result (λ found. MatchOption found
        (NoReading (Opt States) (NotFirst (sign (codes "<"))) (map seen tokens.now))
        (λ part. Reading (Opt States) (NotFirst (sign (codes "<"))) (map seen tokens.now)
        (names_in part.0) (map seen part.1.now))) }
{
    let Some(inner) = after_sign(tokens, b"<") else {
        return Ok(Some((None, tokens)));
    };
    let Some((names, rest)) = names_of(alloc, inner)? else {
        return Ok(None);
    };
    let Some(after) = after_sign(rest, b">") else {
        return Ok(None);
    };
    Ok(Some((Some(names), after)))
}

/// The state that a rule goes to, where it names one, and what follows.
fn opt_go<'t, 's>(tokens: &'t [Token<'s>]) -> Option<(Option<&'s [u8]>, &'t [Token<'s>])>
    ensures { MatchOption result (NoReading (Opt Go) Nothing (map seen tokens.now))
        (λ part. Reading (Opt Go) Nothing (map seen tokens.now) (name_in part.0)
        (map seen part.1.now)) }
{
    let Some(after) = after_word(tokens, b"GO") else {
        return Some((None, tokens));
    };
    let (name, rest) = name_of(after)?;
    Some((Some(name), rest))
}

/// The expression with which the tokens begin, and what follows it.
fn body_of<'a, 't, 's>(
    arena: &'a Bump<Global>,
    tokens: &'t [Token<'s>],
) -> Result<Option<(Regex<'a>, &'t [Token<'s>])>, NoMemory>
    ensures { IfOk result (λ found. MatchOption found
        (NoReading Body EndsRegex (map seen tokens.now))
        (λ part. Reading Body EndsRegex (map seen tokens.now) (meaning part.0)
        (map seen part.1.now))) }
{
    let Some((read, rest)) = regex(arena, tokens, 64)? else {
        return Ok(None);
    };
    Ok(Some((read.body, rest)))
}

/// The context of a rule, where it has one, and what follows it.
fn opt_context<'a, 't, 's>(
    arena: &'a Bump<Global>,
    tokens: &'t [Token<'s>],
) -> Result<Option<(Option<Regex<'a>>, &'t [Token<'s>])>, NoMemory>
    ensures { IfOk result (λ found. MatchOption found
        (NoReading (Opt Context) NoSlashEnds (map seen tokens.now))
        (λ part. Reading (Opt Context) NoSlashEnds (map seen tokens.now) (regex_in part.0)
        (map seen part.1.now))) }
{
    let Some(inner) = after_sign(tokens, b"/") else {
        return Ok(Some((None, tokens)));
    };
    let Some((body, rest)) = body_of(arena, inner)? else {
        return Ok(None);
    };
    Ok(Some((Some(body), rest)))
}

/// A declared rule.
#[derive(Drop)]
pub(crate) struct DeclaredRule<'a, 's> {
    pub states: Option<Vec<&'s [u8]>>,
    pub body: Regex<'a>,
    pub context: Option<Regex<'a>>,
    pub token: Option<&'s [u8]>,
    pub next: Option<&'s [u8]>,
}

/// The rule of a line.
pub(crate) fn rule_line<'a, 's>(
    alloc: Global,
    arena: &'a Bump<Global>,
    tokens: &[Token<'s>],
) -> Result<Option<DeclaredRule<'a, 's>>, NoMemory>
    ensures { IfOk result (λ found. MatchOption found
        ((rule : SaidRule) → RuleLine (map seen tokens.now) rule → ⊥)
        (λ rule. RuleLine (map seen tokens.now) (said_rule rule))) }
{
    let Some(rest) = after_word(tokens, b"RULE") else {
        return Ok(None);
    };
    let Some((states, rest)) = opt_states(alloc, rest)? else {
        return Ok(None);
    };
    let Some((body, rest)) = body_of(arena, rest)? else {
        return Ok(None);
    };
    let Some((context, rest)) = opt_context(arena, rest)? else {
        return Ok(None);
    };
    let Some((token, next)) = action_of(rest) else {
        return Ok(None);
    };
    Ok(Some(DeclaredRule {
        states,
        body,
        context,
        token,
        next,
    }))
}

/// What a rule does: the name of its token, and of the state that it goes to.
fn action_of<'s>(tokens: &[Token<'s>]) -> Option<(Option<&'s [u8]>, Option<&'s [u8]>)>
    ensures { MatchOption result (NoReading Action Nothing (map seen tokens.now))
        (λ part. Action (map seen tokens.now) (name_in part.0, name_in part.1) []) }
{
    let rest = after_sign(tokens, b":")?;
    if let Some((name, next)) = produced(rest) {
        return Some((Some(name), next));
    }
    let next = skipped(rest)?;
    Some((None, next))
}

/// The token of a rule, and the state that it goes to.
fn produced<'s>(tokens: &[Token<'s>]) -> Option<(&'s [u8], Option<&'s [u8]>)>
    ensures { MatchOption result (NoReading Produces Nothing (map seen tokens.now))
        (λ part. Produces (map seen tokens.now) (part.0.now, name_in part.1) []) }
{
    let rest = after_word(tokens, b"TOKEN")?;
    let (token, rest) = name_of(rest)?;
    let (next, rest) = opt_go(rest)?;
    if rest.is_empty() {
        Some((token, next))
    } else {
        None
    }
}

/// The state that a rule without a token goes to.
fn skipped<'s>(tokens: &[Token<'s>]) -> Option<Option<&'s [u8]>>
    ensures { MatchOption result (NoReading Skips Nothing (map seen tokens.now))
        (λ next. Skips (map seen tokens.now) (name_in next) []) }
{
    let rest = after_word(tokens, b"SKIP")?;
    let (next, rest) = opt_go(rest)?;
    if rest.is_empty() { Some(next) } else { None }
}

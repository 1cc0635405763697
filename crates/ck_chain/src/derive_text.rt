// The text of a list of steps.
ghost use Rattle.std.specs.Prelude.{◌≡◌, ◌+◌, ◌^◌, ◌<◌, ◌++◌, All, IfOk, OnOk, length, map};
ghost use Rattle.parse_driver.specs.Parse.{move_of};
ghost use Rattle.ck_chain.specs.DeriveText.{derive_text, move_line, reduce_line, shift_line};
ghost use Rattle.ck_chain.specs.within.Steps.{IsInside, IsTokenInside};

use crate::naming::{label_at, name_at};
use ck_base::{Names, NoMemory};
use parse_driver::{Step, TokenRef};
use quoting::push_quoted;
use std::alloc::Global;

/// The printed steps, a line each. `names` are those of tokens, and `labels` those of rules.
pub(crate) fn steps_text(
    alloc: Global,
    names: &Names,
    labels: &Names,
    source: &[u8],
    steps: &[Step],
) -> Result<Vec<u8>, NoMemory>
    requires { All (IsInside source.now) steps.now }
    ensures { IfOk result (λ text. text.items
        ≡ derive_text names.now labels.now source.now (map move_of steps.now)) }
{
    let mut out = Vec::new(alloc);
    for step in steps {
        push_step(&mut out, names, labels, source, *step)?;
    }
    Ok(out)
}

/// Appends the line of the step.
fn push_step(
    out: &mut Vec<u8>,
    names: &Names,
    labels: &Names,
    source: &[u8],
    step: Step,
) -> Result<(), NoMemory>
    requires { IsInside source.now step }
    ensures { OnOk result (out.new.items
        ≡ out.old.items ++ move_line names.now labels.now source.now (move_of step)) }
{
    match step {
        Step::Shift(token) => push_shift(out, names, source, token)?,
        Step::Reduce(rule) => push_reduce(out, labels, rule)?,
    }
    Ok(())
}

/// Appends the line of a token that is shifted.
fn push_shift(
    out: &mut Vec<u8>,
    names: &Names,
    source: &[u8],
    token: TokenRef,
) -> Result<(), NoMemory>
    requires { IsTokenInside source.now token }
    ensures { OnOk result (out.new.items ≡ out.old.items ++ shift_line names.now source.now token) }
{
    out.extend_from_slice(b"shift ")?;
    out.extend_from_slice(name_at(names, token.terminal))?;
    out.push(b' ')?;
    push_quoted(out, &source[token.from as usize..token.to as usize])?;
    out.push(b'\n')?;
    Ok(())
}

/// Appends the line of a rule that is reduced.
fn push_reduce(out: &mut Vec<u8>, labels: &Names, rule: u32) -> Result<(), NoMemory>
    ensures { OnOk result (out.new.items ≡ out.old.items ++ reduce_line labels.now rule) }
{
    out.extend_from_slice(b"reduce ")?;
    out.extend_from_slice(label_at(labels, rule))?;
    out.push(b'\n')?;
    Ok(())
}

// Lines of a specification, split into tokens.
ghost use Rattle.std.specs.Prelude.{◌≡◌, ◌+◌, ◌^◌, ◌<◌, ◌≤◌, ◌++◌, length, IfOk};
ghost use Rattle.std.specs.List.{prefix_len};
ghost use Rattle.std.specs.Str.Lines.{strip_carriage_return};
ghost use Rattle.spec_text.specs.TextLines.{is_no_feed};
ghost use Rattle.spec_text.specs.Steps.{AreFileLines, BeginsLine, IsLine, lines_in};

use crate::token::{SpecToken, tokens_of};
use ck_base::{Kind, NoMemory};
use std::alloc::Global;

/// A line that has tokens, or a bad one. Lines are numbered from 1. A bad line has the kind of its
/// first fault in `bad`, and the tokens before that.
#[derive(Drop)]
pub struct SpecLine {
    pub number: u32,
    pub bad: Option<Kind>,
    pub tokens: Vec<SpecToken>,
}

/// The lines of a file that have tokens or are bad, and how many lines it has in all.
#[derive(Drop)]
pub(crate) struct SpecLines {
    pub lines: Vec<SpecLine>,
    pub count: u32,
}

/// The lines of a file.
pub(crate) fn lines_of(alloc: Global, spec: &[u8]) -> Result<SpecLines, NoMemory>
    requires { length spec.now + 2 < 2 ^ 32 }
    ensures lines { IfOk result (λ found. AreFileLines spec.now found.lines.items found.count) }
    ensures few { IfOk result (λ found. length found.lines.items ≤ found.count) }
    ensures fits { IfOk result (λ found. found.count ≤ length spec.now) }
{
    let mut lines = Vec::new(alloc);
    let mut count = 0;
    let mut rest = spec;
    while !rest.is_empty() {
        let at = (spec.len() - rest.len()) as u32;
        let (text, after) = first_line(rest);
        count += 1;
        push_some(&mut lines, line_of(alloc, text, at, count)?)?;
        rest = after;
    }
    Ok(SpecLines { lines, count })
}

/// Puts the line behind the others, where there is one.
fn push_some(lines: &mut Vec<SpecLine>, line: Option<SpecLine>) -> Result<(), NoMemory>
    ensures { IfOk result (λ done. lines.new.items ≡ lines.old.items ++ lines_in line) }
{
    if let Some(line) = line {
        lines.push(line)?;
    }
    Ok(())
}

/// The line of this text, whose first byte stands at the place; `None` where it says nothing.
fn line_of(alloc: Global, text: &[u8], at: u32, number: u32) -> Result<Option<SpecLine>, NoMemory>
    requires { at + length text.now < 2 ^ 32 }
    ensures { IfOk result (IsLine at text.now number) }
{
    let (tokens, bad) = tokens_of(alloc, text, at)?;
    if tokens.is_empty() && bad.is_none() {
        return Ok(None);
    }
    Ok(Some(SpecLine {
        number,
        bad,
        tokens,
    }))
}

/// The first line of the bytes, without its end, and what follows it.
fn first_line(bytes: &[u8]) -> (&[u8], &[u8])
    requires { 0 < length bytes.now }
    ensures begins { BeginsLine bytes.now result.0.now result.1.now }
    ensures fits { length result.0.now + length result.1.now ≤ length bytes.now }
    ensures shorter { length result.1.now < length bytes.now }
{
    let len = len_to_feed(bytes);
    if len < bytes.len() {
        (without_return(&bytes[..len]), &bytes[len + 1..])
    } else {
        (bytes, &bytes[len..])
    }
}

/// How many bytes stand before the first line feed.
fn len_to_feed(bytes: &[u8]) -> usize
    ensures value { result ≡ prefix_len is_no_feed bytes.now }
    ensures fits { result ≤ length bytes.now }
{
    bytes.iter().take_while(|byte| **byte != b'\n').count()
}

/// The line without the carriage return at its end.
fn without_return(line: &[u8]) -> &[u8]
    ensures is { result.now ≡ strip_carriage_return line.now }
    ensures fits { length result.now ≤ length line.now }
{
    match line {
        [text @ .., b'\r'] => text,
        _ => line,
    }
}

// Written expressions built in the arena while they are read.
ghost use Rattle.std.specs.Prelude.{◌≡◌, ◌+◌, ◌^◌, ◌<◌, ℕ, max, IfOk};
ghost use Rattle.expr_read.specs.Spoken.{binary, if_then};
ghost use Rattle.expr_read.specs.within.Wholes.{with_prefix};
ghost use Rattle.expr_read.specs.Writing.{spoken_of};

use crate::prefix::Prefix;
use crate::written::Written;
use bumpalo::Bump;
use ck_base::NoMemory;
use expr_lang::Op;
use std::alloc::Global;

/// An expression that was read, and its nesting.
#[derive(Clone, Copy)]
pub(crate) struct Read<'s> {
    pub body: Written<'s>,
    pub nesting: u32,
}

/// The `if` of these parts.
pub(crate) fn if_of<'s>(
    arena: &'s Bump<Global>,
    test: Read<'s>,
    first: Read<'s>,
    second: Read<'s>,
) -> Result<Read<'s>, NoMemory>
    requires { (test.nesting + 1 < 2 ^ 32) × (first.nesting + 1 < 2 ^ 32)
        × (second.nesting + 1 < 2 ^ 32) }
    ensures says { IfOk result (λ read. spoken_of read.body ≡ if_then (spoken_of test.entry.body)
        (spoken_of first.entry.body) (spoken_of second.entry.body)) }
    ensures deep { IfOk result (λ read. read.nesting
        ≡ max test.entry.nesting (max first.entry.nesting second.entry.nesting) + 1) }
{
    let deepest = test.nesting.max(first.nesting.max(second.nesting));
    let condition: &Written<'s> = arena.try_alloc(test.body)?;
    let then: &Written<'s> = arena.try_alloc(first.body)?;
    let other: &Written<'s> = arena.try_alloc(second.body)?;
    Ok(Read {
        body: Written::If(condition, then, other),
        nesting: deepest + 1,
    })
}

/// The operator between its operands.
pub(crate) fn joined<'s>(
    arena: &'s Bump<Global>,
    op: Op,
    left: Read<'s>,
    right: Read<'s>,
    nesting: u32,
) -> Result<Read<'s>, NoMemory>
    ensures says { IfOk result (λ read.
        spoken_of read.body ≡ binary op (spoken_of left.entry.body) (spoken_of right.entry.body)) }
    ensures deep { IfOk result (λ read. read.nesting ≡ nesting) }
{
    let first: &Written<'s> = arena.try_alloc(left.body)?;
    let second: &Written<'s> = arena.try_alloc(right.body)?;
    Ok(Read {
        body: Written::Binary(op, first, second),
        nesting,
    })
}

/// The expression behind its prefix.
pub(crate) fn behind_prefix<'s>(
    arena: &'s Bump<Global>,
    prefix: Prefix,
    part: Read<'s>,
) -> Result<Read<'s>, NoMemory>
    requires { part.nesting + 1 < 2 ^ 32 }
    ensures says { IfOk result
        (λ read. spoken_of read.body ≡ with_prefix prefix (spoken_of part.entry.body)) }
    ensures deep { IfOk result (λ read. read.nesting ≡ part.entry.nesting + 1) }
{
    let inner: &Written<'s> = arena.try_alloc(part.body)?;
    let body = match prefix {
        Prefix::Minus => Written::Negative(inner),
        Prefix::Not => Written::Negated(inner),
    };
    Ok(Read {
        body,
        nesting: part.nesting + 1,
    })
}

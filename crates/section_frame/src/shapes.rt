// The lines of a section to what they declare.
ghost use Rattle.std.specs.Prelude.{◌≡◌, ℕ, List, length, map, IfOk, IfErr};
ghost use Rattle.ck_base.specs.declared.fault.Kind.{Kind};
ghost use Rattle.section_frame.specs.Declares.{DeclareAll, Declared, IsFaultOfLine, IsShapeFault, Says};
ghost use Rattle.spec_text.specs.Lines.{Line, LinesGrow};
ghost use Rattle.spec_text.specs.Spans.{AreLinesOf, IsLineOf};
ghost use Rattle.section_frame.specs.Passes.{judged_by};

use crate::pass::Numbered;
use bumpalo::Bump;
use ck_base::{Kind, NoMemory, SpecFault};
use spec_text::{SpecLine, Token, tokens_in};
use std::alloc::Global;

/// How the lines of a section are written.
pub trait Shapes<'s, T> {
    ghost use Rattle.std.specs.Prelude.{◌≡◌, ℕ, List, map, IfOk, MatchOption};
    ghost use Rattle.spec_text.specs.Lexemes.{Lexeme};
    ghost use Rattle.spec_text.specs.Seen.{seen as token_seen};

    /// What lines of the section say.
    ghost Said: { Type 0 };

    /// What the program's line says.
    ghost seen: { T → Said };

    /// The tokens of a whole line say this.
    ghost shape: { List Lexeme → Said → Type 0 };

    /// What the tokens of a whole line say.
    fn saying_of(
        &self,
        alloc: Global,
        texts: &'s Bump<Global>,
        tokens: &[Token<'s>],
    ) -> Result<Option<T>, NoMemory>
        ensures { IfOk result (λ found. MatchOption found
            ((said : Said) → shape (map token_seen tokens.now) said → ⊥)
            (λ says. shape (map token_seen tokens.now) (seen says))) };
}

/// What the lines say, or the first line without a shape.
pub fn declared_lines<'s, T: Drop, R: Shapes<'s, T>>(
    alloc: Global,
    texts: &'s Bump<Global>,
    spec: &'s [u8],
    lines: &[SpecLine],
    shapes: &R,
) -> Result<Vec<Numbered<T>>, SpecFault>
    requires { (are : List Line) × AreLinesOf spec.now lines.now are × LinesGrow are }
    ensures declared { IfOk result (λ list. (are : List Line)
        → AreLinesOf spec.now lines.now are
        → DeclareAll R.shape are (map (judged_by R.seen) list.items)) }
    ensures few { IfOk result (λ list. length list.items ≡ length lines.now) }
    ensures fault { IfErr result (λ fault. (are : List Line)
        → AreLinesOf spec.now lines.now are → LinesGrow are
        → IsShapeFault R.shape are fault) }
{
    let mut list = Vec::new(alloc);
    for line in lines {
        list.push(line_in(alloc, texts, spec, line, shapes)?)?;
    }
    Ok(list)
}

/// What the line says.
fn line_in<'s, T: Drop, R: Shapes<'s, T>>(
    alloc: Global,
    texts: &'s Bump<Global>,
    spec: &'s [u8],
    line: &SpecLine,
    shapes: &R,
) -> Result<Numbered<T>, SpecFault>
    requires { (is : Line) × IsLineOf spec.now line.now is }
    ensures says { IfOk result (λ said. (is : Line)
        → IsLineOf spec.now line.now is → Says R.shape is (judged_by R.seen said)) }
    ensures fault { IfErr result (λ fault. (is : Line)
        → IsLineOf spec.now line.now is → IsFaultOfLine R.shape is fault) }
{
    let number = line.number;
    if let Some(kind) = line.bad {
        return Err(SpecFault::Bad { line: number, kind });
    }
    let tokens = tokens_in(alloc, texts, spec, line)?;
    let Some(says) = shapes.saying_of(alloc, texts, tokens.as_slice())? else {
        return Err(SpecFault::Bad {
            line: number,
            kind: Kind::Syntax,
        });
    };
    Ok(Numbered { number, says })
}

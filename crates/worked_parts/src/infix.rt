// Expressions read from lines, with their answers.
ghost use Rattle.std.specs.Prelude.{List};
ghost use Rattle.spec_text.specs.Reading.{Placed};
ghost use Rattle.expr_read.specs.Written.{AreTokensOf};

use crate::lines::push_line;
use crate::values::{SOURCE, VARIABLES, makers, stored_value};
use bumpalo::Bump;
use ck_base::Kind;
use expr_lang::{Maker, Scope};
use node_spec::{ExprFault, NameScope, read_expr};
use spec_text::{SpecToken, sections};
use std::alloc::Global;
use value_store::{Literals, Name, NoMemory, Texts};

/// Expressions as they are written in a specification. Variables are the tokens `$1` and `$2`, the
/// int `n` and the map `m`; `it.size` is `n` too.
const ALL: [&str; 30] = [
    "1 + 2 * 3",
    "(1 + 2) * 3",
    "7 - 2 - 1",
    "-2 - -3",
    "2 * 3 % 4 / 1",
    "1 + 1 < 3 == true",
    "1 + 1 < 3",
    "1 < 2 && 2 < 1 || !false",
    "!true || true && false",
    "if 1 < 2 then 10 else 20 + 1",
    "(if 1 < 2 then 10 else 20) + 1",
    "1 + if true then 1 else 2",
    "size(put(put(m, \"a\", 1), \"b\", 2))",
    "get(put(m, text($2), n), \"12\", 0)",
    "text($1)",
    "line($2) * 10 + col($2)",
    "it.size + n",
    "it.length",
    "leaf(4)",
    "pair(leaf(4), leaf(it.size))",
    "leaf(true)",
    "leaf()",
    "leaf(1,)",
    "lief(4)",
    "lief(true + 1)",
    "k",
    "$3",
    "1, 2",
    "1 => 2",
    "1 2",
];

/// Writes the value of each expression, or why there is none.
pub(crate) fn show_infix(alloc: Global, out: &mut String) -> Result<(), NoMemory> {
    for written in ALL {
        let line = line_of(alloc, written)?;
        push_line(out, line)?;
    }
    Ok(())
}

/// The expression, read from the second line of a specification.
fn line_of(alloc: Global, written: &str) -> Result<String, NoMemory> {
    let spec = format!(in alloc; "REX\n{written}\nEND\n")?;
    if spec.len() > 1_048_576 {
        return Ok(format!(in alloc; "{written}: too long")?);
    }
    let bytes = spec.as_bytes();
    let Ok(all) = sections(alloc, bytes) else {
        return Ok(format!(in alloc; "{written}: no section")?);
    };
    match all.lines.as_slice().get(1) {
        Some(line) => {
            let answer = answer_of(alloc, bytes, line.tokens.as_slice())?;
            Ok(format!(in alloc; "{written}: {answer}")?)
        }
        None => Ok(format!(in alloc; "{written}: no line")?),
    }
}

/// The value of the expression with which the tokens begin, and the number of the token behind it; or
/// why there is none.
fn answer_of(alloc: Global, spec: &[u8], tokens: &[SpecToken]) -> Result<String, NoMemory>
    requires { (said : List Placed) × AreTokensOf spec.now tokens.now said }
{
    let arena = Bump::new(alloc);
    let mut literals = Literals::new(alloc);
    let names = names(alloc)?;
    let dotted = dotted(alloc)?;
    let makers = makers(alloc)?;
    if names.len() != VARIABLES.len() + makers.len() {
        return Ok(format!(in alloc; "a name for each variable and maker is wanted")?);
    }
    let scope = NameScope {
        names: names.as_slice(),
        scope: Scope {
            vars: &VARIABLES,
            makers: makers.as_slice(),
        },
        dotted: dotted.as_slice(),
    };
    match read_expr(alloc, &arena, spec, tokens, 0, &scope, &mut literals) {
        Ok((e, _of, next)) => {
            let texts = Texts {
                source: SOURCE,
                literals: literals.bytes(),
            };
            let value = stored_value(alloc, e, &texts)?;
            Ok(format!(in alloc; "{value}, up to token {next}")?)
        }
        Err(ExprFault::Bad { kind, next }) => {
            Ok(format!(in alloc; "{}, token {next}", kind_word(kind))?)
        }
        Err(ExprFault::NoMemory) => Err(NoMemory),
    }
}

/// The names of the variables, and then of the makers.
fn names(alloc: Global) -> Result<Vec<Name>, NoMemory> {
    let mut names = Vec::new(alloc);
    for text in ["$1", "$2", "n", "m", "leaf", "pair"] {
        names.push(Name::from_bytes(alloc, text.as_bytes())?)?;
    }
    Ok(names)
}

/// What two words with a `.` between them name.
fn dotted(alloc: Global) -> Result<Vec<(Name, Name, u32)>, NoMemory> {
    let mut list = Vec::new(alloc);
    let before = Name::from_bytes(alloc, b"it")?;
    let after = Name::from_bytes(alloc, b"size")?;
    list.push((before, after, 2))?;
    Ok(list)
}

/// The word of a kind of fault.
fn kind_word(kind: Kind) -> &'static str {
    match kind {
        Kind::Syntax => "no expression",
        Kind::Unknown => "an unknown name",
        _ => "no type",
    }
}

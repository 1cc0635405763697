// LL(1) tables and parses in print.
ghost use Rattle.std.specs.Prelude.{◌≡◌, ◌<◌, IsTrue, All};
ghost use Rattle.cfg_model.specs.Cfg.{IsGrammar};
ghost use Rattle.cfg_model.specs.LlTables.{IsLlTable};
ghost use Rattle.ell_tables.specs.Promise.{IsTableOf};
ghost use Rattle.ell_tables.specs.Table.{answer_of, grammar_of};

use crate::lines::{letter, push_line};
use crate::parses::parsed;
use crate::written::{Written, read};
use cfg_model::{Grammar, LlTable};
use ck_base::NoMemory;
use ell_tables::{EllError, PlainLl, build};
use std::alloc::Global;

/// Writes the LL(1) table of the grammar with the parse of each text, or why there is none.
pub(crate) fn show_ll(
    alloc: Global,
    written: &Written,
    texts: &str,
    out: &mut String,
) -> Result<(), NoMemory> {
    push_line(out, format!(in alloc; "table of {}", written.rules)?)?;
    let Some(g) = read(alloc, written)? else {
        return push_line(out, format!(in alloc; "no grammar")?);
    };
    match build(alloc, &g) {
        Ok(table) => show_parses(alloc, written, &g, &table, texts, out),
        Err(error) => push_line(out, refusal(alloc, written, error)?),
    }
}

/// Why there is no table.
fn refusal(alloc: Global, written: &Written, error: EllError) -> Result<String, NoMemory> {
    match error {
        EllError::Unproductive(n) => {
            let name = letter(written.nonterminals, n);
            Ok(format!(in alloc; "unproductive {name}")?)
        }
        EllError::LeftRecursive(n) => {
            let name = letter(written.nonterminals, n);
            Ok(format!(in alloc; "left recursive {name}")?)
        }
        EllError::LlConflict {
            nonterminal,
            rule,
            other,
            terminal,
        } => {
            let name = letter(written.nonterminals, nonterminal);
            let on = letter(written.terminals, terminal);
            Ok(format!(in alloc; "conflict of {name} on {on}: rules {rule} and {other}")?)
        }
        EllError::NoMemory => Err(NoMemory),
    }
}

/// Writes what the table predicts, and the parse of each text.
fn show_parses(
    alloc: Global,
    written: &Written,
    g: &Grammar,
    table: &PlainLl,
    texts: &str,
    out: &mut String,
) -> Result<(), NoMemory>
    requires grammar { IsGrammar g.now }
    requires table { IsTableOf g.now table.now }
{
    for n in 0..g.nonterminals {
        let line = predictions(alloc, written, g, table, n)?;
        push_line(out, line)?;
    }
    for text in texts.split_whitespace() {
        let line = parsed(alloc, written, table, text)?;
        push_line(out, line)?;
    }
    Ok(())
}

/// The rules that the table predicts for a nonterminal.
fn predictions(
    alloc: Global,
    written: &Written,
    g: &Grammar,
    table: &PlainLl,
    n: u32,
) -> Result<String, NoMemory>
    requires grammar { IsGrammar g.now }
    requires table { grammar_of table.now ≡ g.now }
    requires nonterminal { n < g.now.nonterminals }
{
    let mut line = format!(in alloc; "{}:", letter(written.nonterminals, n))?;
    for t in 0..g.terminals + 1 {
        if let Some(rule) = table.predict(n, t) {
            let on = letter(written.terminals, t);
            line.push_str(format!(in alloc; " {on} {rule}")?.as_str())?;
        }
    }
    Ok(line)
}

// Sets of a grammar in print.
ghost use Rattle.cfg_model.specs.Cfg.{IsGrammar};
ghost use Rattle.cfg_model.specs.Sets.{AllProductive};

use crate::lines::{found, letter, letters_in, push_line};
use crate::written::{Written, read};
use cfg_model::{
    Grammar, cyclic, first, follow, hidden_left, left_recursive, nullable, productive, reachable,
    unproductive,
};
use ck_base::NoMemory;
use std::alloc::Global;

/// Writes the sets of a grammar, and what it would be refused for.
pub(crate) fn show_sets(
    alloc: Global,
    written: &Written,
    out: &mut String,
) -> Result<(), NoMemory> {
    push_line(out, format!(in alloc; "grammar {}", written.rules)?)?;
    let Some(g) = read(alloc, written)? else {
        return push_line(out, format!(in alloc; "no grammar")?);
    };
    let letters = written.nonterminals;
    let null = letters_in(alloc, letters, &nullable(alloc, &g)?)?;
    let words = letters_in(alloc, letters, &productive(alloc, &g)?)?;
    let reach = letters_in(alloc, letters, &reachable(alloc, &g)?)?;
    push_line(
        out,
        format!(in alloc; "nullable {null}, productive {words}, reachable {reach}")?,
    )?;
    show_searches(alloc, written, &g, out)?;
    if unproductive(alloc, &g)?.is_some() {
        return Ok(());
    }
    show_rows(alloc, written, &g, out)
}

/// Writes the least nonterminals of each kind.
fn show_searches(
    alloc: Global,
    written: &Written,
    g: &Grammar,
    out: &mut String,
) -> Result<(), NoMemory>
    requires { IsGrammar g.now }
{
    let letters = written.nonterminals;
    let none = found(alloc, letters, unproductive(alloc, g)?)?;
    let cycle = found(alloc, letters, cyclic(alloc, g)?)?;
    let hidden = found(alloc, letters, hidden_left(alloc, g)?)?;
    let left = found(alloc, letters, left_recursive(alloc, g)?)?;
    push_line(
        out,
        format!(in alloc;
            "unproductive {none}, cyclic {cycle}, hidden left {hidden}, left {left}"
        )?,
    )
}

/// Writes FIRST and FOLLOW of each nonterminal.
fn show_rows(
    alloc: Global,
    written: &Written,
    g: &Grammar,
    out: &mut String,
) -> Result<(), NoMemory>
    requires grammar { IsGrammar g.now }
    requires productive { AllProductive g.now }
{
    let firsts = first(alloc, g)?;
    let follows = follow(alloc, g)?;
    for (n, (begin, behind)) in firsts.iter().zip(follows.iter()).enumerate() {
        let name = letter(written.nonterminals, n as u32);
        let begin = letters_in(alloc, written.terminals, begin)?;
        let behind = letters_in(alloc, written.terminals, behind)?;
        push_line(
            out,
            format!(in alloc; "{name}: first {begin}, follow {behind}")?,
        )?;
    }
    Ok(())
}

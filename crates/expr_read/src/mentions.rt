// The variables that a written expression names.
ghost use Rattle.std.specs.Prelude.{◌≡◌, ◌++◌, map, IfOk, OnOk};
ghost use Rattle.expr_read.specs.Mentions.{dollars_in, named_in, named_in_all, numbers_among};
ghost use Rattle.expr_read.specs.Writing.{named_by, spoken_list, spoken_of};

use crate::mention::Mention;
use crate::written::Written;
use ck_base::NoMemory;
use std::alloc::Global;

/// The numbers behind `$` in the expression, from left to right, each as often as it stands there.
pub fn dollars_in(alloc: Global, e: &Written<'_>) -> Result<Vec<u64>, NoMemory>
    ensures { IfOk result (λ numbers. numbers.items ≡ dollars_in (spoken_of e.now)) }
{
    let mut mentions = Vec::new(alloc);
    mentions_in(e, &mut mentions)?;
    numbers_among(alloc, mentions.as_slice())
}

/// Puts the variables that the expression names behind those that are there, from left to right, each
/// as often as it stands there. A name before parentheses is none.
#[cycle(mentions)]
pub fn mentions_in<'s>(e: &Written<'s>, into: &mut Vec<Mention<'s>>) -> Result<(), NoMemory>
    ensures { OnOk result (map named_by into.new.items
        ≡ map named_by into.old.items ++ named_in (spoken_of e.now)) }
{
    match e {
        Written::Number(_) => Ok(()),
        Written::Truth(_) => Ok(()),
        Written::Text(_) => Ok(()),
        Written::Name(name) => {
            into.push(Mention::Name(name))?;
            Ok(())
        }
        Written::Dollar(n) => {
            into.push(Mention::Dollar(*n))?;
            Ok(())
        }
        Written::Pair(before, after) => {
            into.push(Mention::Pair(before, after))?;
            Ok(())
        }
        Written::Negative(a) => mentions_in(a, into),
        Written::Negated(a) => mentions_in(a, into),
        Written::Binary(_, a, b) => {
            mentions_in(a, into)?;
            mentions_in(b, into)?;
            Ok(())
        }
        Written::If(c, a, b) => {
            mentions_in(c, into)?;
            mentions_in(a, into)?;
            mentions_in(b, into)?;
            Ok(())
        }
        Written::Applied(_, args) => mentions_in_all(args, into),
        Written::Grouped(a) => mentions_in(a, into),
    }
}

/// The same of all the expressions.
#[cycle(mentions)]
fn mentions_in_all<'s>(list: &[Written<'s>], into: &mut Vec<Mention<'s>>) -> Result<(), NoMemory>
    ensures { OnOk result (map named_by into.new.items
        ≡ map named_by into.old.items ++ named_in_all (spoken_list (map spoken_of list.now))) }
{
    for e in list {
        mentions_in(e, into)?;
    }
    Ok(())
}

/// The numbers behind `$` among the mentions.
fn numbers_among(alloc: Global, mentions: &[Mention<'_>]) -> Result<Vec<u64>, NoMemory>
    ensures { IfOk result (λ numbers. numbers.items ≡ numbers_among (map named_by mentions.now)) }
{
    let mut numbers = Vec::new(alloc);
    for mention in mentions {
        if let Mention::Dollar(n) = mention {
            numbers.push(*n)?;
        }
    }
    Ok(numbers)
}

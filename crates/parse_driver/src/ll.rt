// The LL(1) parser: a stack of entries, expanded by a table's predictions.
ghost use Rattle.std.specs.Prelude.{◌≡◌, ℕ, ◌+◌, ◌^◌, ◌<◌, ◌≤◌, Bool, IsTrue, List, length, All, IfOk, ◌++◌, ◌∷◌};
ghost use Rattle.parse_driver.specs.within.LlStack.{entries, finding, IsReached, Expands, Turns, Takes, IsTop};
ghost use Rattle.parse_driver.specs.declared.ll.Entry.TheVariants.{Done};
ghost use Rattle.parse_driver.specs.declared.ll.Entry.{Entry};
ghost use Rattle.cfg_model.specs.LlTables.{IsLlTable};
ghost use Rattle.cfg_model.specs.Cfg.{IsGrammar};
ghost use Rattle.parse_driver.specs.Parse.{Parses};
ghost use Rattle.parse_driver.specs.Stream.{Ending};
ghost use Rattle.parse_driver.specs.declared.tokens.TokenRef.{TokenRef};

use crate::refusal::ParseError;
use crate::step::Step;
use crate::tokens::{Next, TokenRef, Tokens};
use cfg_model::{LlTable, Sym};
use ck_base::NoMemory;
use std::alloc::Global;

/// What a parse still has to do: to find a symbol, or to end a rule.
#[derive(Clone, Copy)]
enum Entry {
    Find(Sym),
    Done(u32),
}

/// What one turn does.
#[derive(Clone, Copy)]
enum Turn {
    /// A rule was taken or ended.
    Went,
    /// A token is wanted.
    Ready,
    /// No rule is for the terminal.
    Stuck,
}

/// The derivation of the tokens that are to come, as its steps in postorder, or why there is none. Tokens are
/// drawn one at a time, and none behind the first wrong one.
pub fn parse_ll<T: LlTable, K: Tokens>(
    alloc: Global,
    table: &T,
    tokens: &mut K,
) -> Result<Vec<Step>, ParseError>
    requires table { IsLlTable (T.grammar table.now) (T.answer table.now) }
    requires open { IsTrue (K.is_open tokens.old) }
    requires some { (all : List TokenRef) × (ending : Ending) × K.comes tokens.old all ending }
    requires few { (all : List TokenRef) (ending : Ending) → K.comes tokens.old all ending
        → length all + 1 < 2 ^ 32 }
    requires terminals { (all : List TokenRef) (ending : Ending) → K.comes tokens.old all ending
        → All (λ k. k.terminal < (T.grammar table.now).terminals) all }
    ensures { (all : List TokenRef) (ending : Ending) → K.comes tokens.old all ending
        → Parses (T.grammar table.now) all ending result }
{
    let mut stack = Vec::new(alloc);
    let mut steps = Vec::new(alloc);
    stack.push(Entry::Find(Sym::N(table.start())))?;
    let mut k = 1;
    'tokens: loop {
        match tokens.next() {
            Next::Token(token) => {
                if !expand(table, token.terminal, &mut stack, &mut steps)? {
                    return Err(ParseError::SyntaxError { k, at: token.from });
                }
                if !take(token, &mut stack, &mut steps)? {
                    return Err(ParseError::SyntaxError { k, at: token.from });
                }
                k += 1;
            }
            Next::End(at) => {
                if !expand(table, table.terminals(), &mut stack, &mut steps)? {
                    return Err(ParseError::SyntaxError { k, at });
                }
                match top_of(&stack) {
                    Some(_) => return Err(ParseError::SyntaxError { k, at }),
                    None => return Ok(steps),
                }
            }
            Next::Bad(at) => return Err(ParseError::BadToken { at }),
        }
    }
}

/// Takes the token from the stack, and says whether its terminal is on top.
fn take(token: TokenRef, stack: &mut Vec<Entry>, steps: &mut Vec<Step>) -> Result<bool, NoMemory>
    ensures { IfOk result (λ taken. Takes token (entries stack.old) steps.old.items
        (entries stack.new) steps.new.items taken) }
{
    match stack.pop() {
        Some(Entry::Find(Sym::T(t))) => {
            steps.push(Step::Shift(token))?;
            Ok(t == token.terminal)
        }
        _ => Ok(false),
    }
}

/// Takes and ends rules until a token is wanted; `false` where no rule is for the terminal.
fn expand<T: LlTable>(
    table: &T,
    t: u32,
    stack: &mut Vec<Entry>,
    steps: &mut Vec<Step>,
) -> Result<bool, NoMemory>
    requires table { IsLlTable (T.grammar table.now) (T.answer table.now) }
    requires terminal { t ≤ (T.grammar table.now).terminals }
    requires reached { IsReached (T.grammar table.now) (entries stack.old) }
    ensures { IfOk result (λ more. Expands (T.grammar table.now) t
        (entries stack.old) steps.old.items (entries stack.new) steps.new.items more) }
{
    'turns: loop {
        match one_turn(table, t, stack, steps)? {
            Turn::Went => {}
            Turn::Ready => return Ok(true),
            Turn::Stuck => return Ok(false),
        }
    }
}

/// Takes a rule for the nonterminal on top, or ends the rule that stands there.
fn one_turn<T: LlTable>(
    table: &T,
    t: u32,
    stack: &mut Vec<Entry>,
    steps: &mut Vec<Step>,
) -> Result<Turn, NoMemory>
    requires table { IsLlTable (T.grammar table.now) (T.answer table.now) }
    requires terminal { t ≤ (T.grammar table.now).terminals }
    requires reached { IsReached (T.grammar table.now) (entries stack.old) }
    ensures { IfOk result (λ turn. Turns (T.grammar table.now) t
        (entries stack.old) steps.old.items (entries stack.new) steps.new.items turn) }
{
    let Some(top) = top_of(stack) else {
        return Ok(Turn::Ready);
    };
    match top {
        Entry::Done(rule) => {
            drop_top(stack);
            steps.push(Step::Reduce(rule))?;
            Ok(Turn::Went)
        }
        Entry::Find(symbol) => match symbol {
            Sym::T(_) => Ok(Turn::Ready),
            Sym::N(n) => {
                let Some(rule) = table.predict(n, t) else {
                    return Ok(Turn::Stuck);
                };
                drop_top(stack);
                push_rule(stack, rule, table.right(rule))?;
                Ok(Turn::Went)
            }
        },
    }
}

/// The entry on top.
fn top_of(stack: &Vec<Entry>) -> Option<Entry>
    ensures { IsTop (entries stack.now) result }
{
    stack.last().copied()
}

/// Takes the entry on top off.
fn drop_top(stack: &mut Vec<Entry>)
    ensures { (x : Entry) (rest : List Entry) → entries stack.old ≡ x ∷ rest
        → entries stack.new ≡ rest }
{
    stack.pop();
}

/// Puts the rule's right side on the stack, and what ends it below.
fn push_rule(stack: &mut Vec<Entry>, rule: u32, right: &[Sym]) -> Result<(), NoMemory>
    ensures { IfOk result (λ _. entries stack.new
        ≡ finding right.now ++ (Done rule ∷ entries stack.old)) }
{
    stack.push(Entry::Done(rule))?;
    let mut i = right.len();
    while i > 0 {
        i -= 1;
        stack.push(Entry::Find(right[i]))?;
    }
    Ok(())
}

// The LR parser: a stack of states, shifts and reductions by a table's actions.
ghost use Rattle.std.specs.Prelude.{◌≡◌, ℕ, ◌+◌, ◌^◌, ◌<◌, ◌≤◌, IsTrue, List, length, All, IfOk, ◌++◌, ◌∷◌, [], Some};
ghost use Rattle.cfg_model.specs.Cfg.{IsRule};
ghost use Rattle.cfg_model.specs.LrTables.{IsLrTable};
ghost use Rattle.cfg_model.specs.declared.symbol.Sym.{Sym};
ghost use Rattle.parse_driver.specs.Parse.{Parses};
ghost use Rattle.parse_driver.specs.Stream.{Ending};
ghost use Rattle.parse_driver.specs.within.LrStack.{top, LrState, IsSettled, CanReduce, reduced_states};
ghost use Rattle.parse_driver.specs.declared.step.Step.TheVariants.{Reduce};
ghost use Rattle.parse_driver.specs.declared.tokens.TokenRef.{TokenRef};

use crate::refusal::ParseError;
use crate::step::Step;
use crate::tokens::{Next, TokenRef, Tokens};
use cfg_model::{LrAction, LrTable};
use ck_base::NoMemory;
use std::alloc::Global;

/// Parses the tokens by an LR table, after Knuth: the steps of their derivation, or the first wrong
/// place. Rules may be reduced on a wrong token before it is found to be wrong; no answer shows them.
pub fn parse_lr<T: LrTable, K: Tokens>(
    alloc: Global,
    table: &T,
    tokens: &mut K,
) -> Result<Vec<Step>, ParseError>
    requires table { IsLrTable (T.grammar table.now) (T.table table.now) }
    requires open { IsTrue (K.is_open tokens.old) }
    requires some { (all : List TokenRef) × (ending : Ending) × K.comes tokens.old all ending }
    requires few { (all : List TokenRef) (ending : Ending) → K.comes tokens.old all ending
        → length all + 1 < 2 ^ 32 }
    requires terminals { (all : List TokenRef) (ending : Ending) → K.comes tokens.old all ending
        → All (λ k. k.terminal < (T.grammar table.now).terminals) all }
    ensures { (all : List TokenRef) (ending : Ending) → K.comes tokens.old all ending
        → Parses (T.grammar table.now) all ending result }
{
    let mut states = Vec::new(alloc);
    let mut steps = Vec::new(alloc);
    states.push(0)?;
    let mut k = 1;
    'tokens: loop {
        match tokens.next() {
            Next::Token(token) => {
                let action = settle(table, token.terminal, &mut states, &mut steps)?;
                let LrAction::Shift(state) = action else {
                    return Err(ParseError::SyntaxError { k, at: token.from });
                };
                states.push(state)?;
                steps.push(Step::Shift(token))?;
                k += 1;
            }
            Next::End(at) => {
                let action = settle(table, table.terminals(), &mut states, &mut steps)?;
                let LrAction::Accept = action else {
                    return Err(ParseError::SyntaxError { k, at });
                };
                return Ok(steps);
            }
            Next::Bad(at) => return Err(ParseError::BadToken { at }),
        }
    }
}

/// Reduces as long as the table says so on the terminal, and answers what it says then.
fn settle<T: LrTable>(
    table: &T,
    t: u32,
    states: &mut Vec<u32>,
    steps: &mut Vec<Step>,
) -> Result<LrAction, NoMemory>
    requires table { IsLrTable (T.grammar table.now) (T.table table.now) }
    requires terminal { t ≤ (T.grammar table.now).terminals }
    requires stack { (read : List TokenRef) × LrState (T.grammar table.now) (T.table table.now) read
        states.old.items steps.old.items (Some t) }
    ensures { IfOk result (λ action. (read : List TokenRef)
        → LrState (T.grammar table.now) (T.table table.now) read
        states.old.items steps.old.items (Some t)
        → IsSettled (T.grammar table.now) (T.table table.now) read
        states.new.items steps.new.items t action) }
{
    'reductions: loop {
        let action = table.action(top_of(states), t);
        let LrAction::Reduce(rule) = action else {
            return Ok(action);
        };
        reduce(table, rule, states, steps)?;
    }
}

/// Reduces by a rule: takes a state off for each symbol of its right side, and goes on with its left
/// side.
fn reduce<T: LrTable>(
    table: &T,
    rule: u32,
    states: &mut Vec<u32>,
    steps: &mut Vec<Step>,
) -> Result<(), NoMemory>
    requires { CanReduce (T.grammar table.now) (T.table table.now) states.old.items rule }
    ensures states { (n : ℕ) (w : List Sym) → IsRule (T.grammar table.now) rule n w
        → IfOk result (λ _. states.new.items
        ≡ reduced_states (T.table table.now) states.old.items n (length w)) }
    ensures steps { IfOk result (λ _. steps.new.items ≡ steps.old.items ++ (Reduce rule ∷ [])) }
{
    let kept = states.len() - table.len(rule) as usize;
    states.truncate(kept);
    let next = table.goto(top_of(states), table.left(rule));
    states.push(next)?;
    steps.push(Step::Reduce(rule))?;
    Ok(())
}

/// The state on top.
fn top_of(states: &Vec<u32>) -> u32
    requires { 0 < length states.now.items }
    ensures { result ≡ top states.now.items }
{
    states[states.len() - 1]
}

// The list of instances of the chosen cover.
ghost use Rattle.std.specs.Prelude.{◌≡◌, ℕ, ◌+◌, ◌-◌, ◌<◌, ◌≤◌, ◌^◌, ◌++◌, ◌↔◌, List, [], ◌∷◌, length, reverse, IfOk, Err};
ghost use Rattle.tree_store.specs.Forest.{OnlyRoot, IsForest};
ghost use Rattle.ast_types.specs.TypeTable.{IsSound};
ghost use Rattle.beg_model.specs.Accepted.{IsAccepted};
ghost use Rattle.beg_model.specs.Applies.{applies};
ghost use Rattle.beg_model.specs.Cover.{Cover, Chosen, Instance as Standing, Stands};
ghost use Rattle.beg_model.specs.Labels.{AreLeastAndChosen};
ghost use Rattle.beg_model.specs.declared.error.CodeError.TheVariants as error;
ghost use Rattle.beg_registers.specs.Chosen.{IsChosenList};
ghost use Rattle.beg_registers.specs.within.Tasks.{covers_of, Opens, IsListed};

use ast_types::Types;
use beg_model::{CodeError, CoverRules, Instance, Labels, Matched, Subgoal, applies_at};
use smallvec::SmallVec;
use std::alloc::Global;
use tree_store::Tree;
use value_store::{NoMemory, Texts};

/// A place is to be covered, or an instance of a rule at a node is to be listed that has so many
/// operands.
#[derive(Clone, Copy)]
pub enum Task {
    Cover(Subgoal),
    List(u32, u32, usize),
}

/// The instances of the chosen cover of the tree's root for the goal, operands first, from left to
/// right.
pub fn choose(
    alloc: Global,
    rules: &CoverRules,
    types: &Types,
    tree: &Tree,
    texts: &Texts,
    labels: &Labels,
) -> Result<Vec<Instance>, CodeError>
    requires accepted { IsAccepted texts.now rules.now types.now tree.now }
    requires root { (r : ℕ) × OnlyRoot tree.now r }
    requires labels { AreLeastAndChosen texts.now rules.now types.now tree.now labels.now }
    ensures list { IfOk result
        (λ list. IsChosenList texts.now rules.now types.now tree.now list.items) }
    ensures no_cover { (result ≡ Err error.NoCover) ↔ ((r c : ℕ) → OnlyRoot tree.now r
        → Cover (applies texts.now rules.now types.now tree.now) r rules.now.goal c → ⊥) }
    ensures registers { (class need have : ℕ) → result ≡ Err (error.UsedUp class need have) → ⊥ }
{
    let _types = types.len();
    let _nodes = tree.len();
    let root = tree.root();
    if labels.least(root, rules.goal).is_none() {
        return Err(CodeError::NoCover);
    }
    match list_cover(alloc, rules, types, tree, texts, labels, root) {
        Ok(list) => Ok(list),
        Err(_) => Err(CodeError::NoMemory),
    }
}

/// The instances of the chosen cover of the node for the goal.
fn list_cover(
    alloc: Global,
    rules: &CoverRules,
    types: &Types,
    tree: &Tree,
    texts: &Texts,
    labels: &Labels,
    root: u32,
) -> Result<Vec<Instance>, NoMemory>
    requires accepted { IsAccepted texts.now rules.now types.now tree.now }
    requires sound { IsSound types.now }
    requires forest { IsForest tree.now }
    requires labels { AreLeastAndChosen texts.now rules.now types.now tree.now labels.now }
    requires stands { (list : List Standing) × (tops : List ℕ) × (cost : ℕ)
        × Stands (applies texts.now rules.now types.now tree.now) 0
        (record { node = root; nonterminal = rules.now.goal } ∷ []) list tops cost
        × (length list < 2 ^ 32) }
    ensures { IfOk result (λ list. (tops : List ℕ) × (cost : ℕ)
        × Stands (applies texts.now rules.now types.now tree.now) 0
        (record { node = root; nonterminal = rules.now.goal } ∷ []) list.items tops cost) }
{
    let mut tasks = Vec::new(alloc);
    let mut ready = Vec::new(alloc);
    let mut list = Vec::new(alloc);
    let mut found = Matched::new();
    tasks.push(Task::Cover(Subgoal {
        node: root,
        nonterminal: rules.goal,
    }))?;
    for _turn in 0..u64::MAX {
        let Some(task) = tasks.pop() else {
            return Ok(list);
        };
        match task {
            Task::Cover(place) => {
                open(
                    rules, types, tree, texts, labels, place, &mut found, &mut tasks,
                )?;
            }
            Task::List(rule, node, count) => {
                put(alloc, rule, node, count, &mut ready, &mut list)?;
            }
        }
    }
    Err(NoMemory)
}

/// The instance of the place's chosen rule is to be listed, and before it those of its operands.
fn open(
    rules: &CoverRules,
    types: &Types,
    tree: &Tree,
    texts: &Texts,
    labels: &Labels,
    place: Subgoal,
    found: &mut Matched,
    tasks: &mut Vec<Task>,
) -> Result<(), NoMemory>
    requires accepted { IsAccepted texts.now rules.now types.now tree.now }
    requires sound { IsSound types.now }
    requires labels { AreLeastAndChosen texts.now rules.now types.now tree.now labels.now }
    requires chosen { (c : ℕ) × (r : ℕ)
        × Chosen (applies texts.now rules.now types.now tree.now) place.node place.nonterminal c r }
    ensures { IfOk result (λ u. Opens
        (applies texts.now rules.now types.now tree.now) place tasks.old.items tasks.new.items) }
{
    let rule = labels.rule(place.node, place.nonterminal).unwrap();
    let _applies = applies_at(
        &rules.rules[rule as usize],
        types,
        tree,
        texts,
        place.node,
        found,
    );
    let operands = found.operands();
    tasks.push(Task::List(rule, place.node, operands.len()))?;
    push_covers(operands, tasks)?;
    Ok(())
}

/// Puts the places to be covered on the stack, the first on top.
fn push_covers(places: &[Subgoal], tasks: &mut Vec<Task>) -> Result<(), NoMemory>
    ensures { IfOk result (λ u. reverse tasks.new.items
        ≡ covers_of places.now ++ reverse tasks.old.items) }
{
    for i in 0..places.len() {
        let place = places[places.len() - 1 - i];
        tasks.push(Task::Cover(place))?;
    }
    Ok(())
}

/// Lists the instance, whose operands are the last numbers that are ready.
fn put(
    alloc: Global,
    rule: u32,
    node: u32,
    count: usize,
    ready: &mut Vec<u32>,
    list: &mut Vec<Instance>,
) -> Result<(), NoMemory>
    requires ready { count ≤ length ready.old.items }
    requires few { length list.old.items < 2 ^ 32 }
    ensures { IfOk result
        (λ u. IsListed rule node count ready.old.items ready.new.items list.old.items list.new.items) }
{
    let operands = take_last(alloc, ready, count)?;
    let number = list.len() as u32;
    ready.push(number)?;
    list.push(Instance {
        rule,
        node,
        operands,
    })?;
    Ok(())
}

/// Takes the last n numbers off.
fn take_last(alloc: Global, ready: &mut Vec<u32>, n: usize) -> Result<SmallVec<u32, 4>, NoMemory>
    requires { n ≤ length ready.old.items }
    ensures items { IfOk result (λ last. ready.old.items ≡ ready.new.items ++ last.items) }
    ensures count { IfOk result (λ last. length last.items ≡ n) }
{
    let at = ready.len() - n;
    let last = SmallVec::from_slice(alloc, &ready[at..])?;
    ready.truncate(at);
    Ok(last)
}

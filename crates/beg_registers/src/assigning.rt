// Registers for the values of a list of instances.
ghost use Rattle.std.specs.Prelude.{IfOk, MatchOption, Err, None, replicate, ◌≡◌, ℕ, ◌+◌, ◌<◌, ◌≤◌, ◌^◌, List, length, slice_get, slice_index, Some, true, false};
ghost use Rattle.value_store.specs.declared.text.Texts.{Texts};
ghost use Rattle.ast_types.specs.TypeTable.{TypeTable};
ghost use Rattle.tree_store.specs.Forest.{Node};
ghost use Rattle.beg_model.specs.declared.error.CodeError.TheVariants as error;
ghost use Rattle.beg_registers.specs.Assigned.{HasRegisters, AreRegisters, IsUsedUp};
ghost use Rattle.beg_registers.specs.Chosen.{IsChosenList};
ghost use Rattle.beg_registers.specs.within.Fitting.{FitBelow, AssignedBelow};
ghost use Rattle.beg_registers.specs.within.Uses.{IsTree};
ghost use Rattle.beg_model.specs.Items.{IsKnown, AreKnown, item_of, items};
ghost use Rattle.beg_model.specs.Registers.{HasClass, IsLeastFree};
ghost use Rattle.beg_registers.specs.within.OnePass.{AreUses, busy, IsRoomy};

use crate::items::{holds, is_early};
use crate::need::need_of;
use crate::uses::fill_uses;
use beg_model::{CodeError, CoverRules, Instance};
use std::alloc::Global;
use value_store::NoMemory;

/// A class whose need exceeds its registers.
#[derive(Clone, Copy)]
pub struct Lack {
    pub class: u32,
    pub need: u32,
    pub have: u32,
}

/// The register of each instance of the list whose nonterminal holds one.
pub fn assign(
    alloc: Global,
    rules: &CoverRules,
    list: &[Instance],
) -> Result<Vec<Option<u32>>, CodeError>
    requires { (texts : Texts) × (table : TypeTable) × (nodes : List Node)
        × IsChosenList texts rules.now table nodes list.now }
    ensures registers { IfOk result (λ registers. AreRegisters rules.now list.now registers.items) }
    ensures used_up { (class need have : ℕ) → result ≡ Err (error.UsedUp class need have)
        → IsUsedUp rules.now list.now class need have }
    ensures no_cover { result ≡ Err error.NoCover → ⊥ }
{
    let Ok(uses) = uses_of(alloc, rules, list) else {
        return Err(CodeError::NoMemory);
    };
    match first_lack(alloc, rules, list, uses.as_slice()) {
        Ok(Some(lack)) => Err(CodeError::UsedUp {
            class: lack.class,
            need: lack.need,
            have: lack.have,
        }),
        Ok(None) => match assign_all(alloc, rules, list, uses.as_slice()) {
            Ok(registers) => Ok(registers),
            Err(_) => Err(CodeError::NoMemory),
        },
        Err(_) => Err(CodeError::NoMemory),
    }
}

/// The place of use of each operand.
fn uses_of(alloc: Global, rules: &CoverRules, list: &[Instance]) -> Result<Vec<u32>, NoMemory>
    requires known { AreKnown rules.now list.now }
    requires few { length list.now + 1 < 2 ^ 32 }
    requires tree { IsTree (items rules.now list.now) }
    ensures { IfOk result (λ uses. (class : ℕ)
        → AreUses (items rules.now list.now) uses.items class) }
{
    let mut uses = vec![in alloc; 0u32; list.len()]?;
    fill_uses(rules, list, uses.as_mut_slice());
    Ok(uses)
}

/// The first class whose need exceeds its registers.
fn first_lack(
    alloc: Global,
    rules: &CoverRules,
    list: &[Instance],
    uses: &[u32],
) -> Result<Option<Lack>, NoMemory>
    requires known { AreKnown rules.now list.now }
    requires few { length list.now + 1 < 2 ^ 32 }
    requires uses { (class : ℕ) → AreUses (items rules.now list.now) uses.now class }
    requires classes { length rules.now.classes.items ≤ 8 }
    requires registers { (class have : ℕ) → HasRegisters rules.now class have → have ≤ 64 }
    ensures { IfOk result (λ lack. MatchOption lack (FitBelow rules.now list.now
        (length rules.now.classes.items))
        (λ l. IsUsedUp rules.now list.now l.class l.need l.have)) }
{
    for class in 0..rules.classes.len() {
        let mut ends = vec![in alloc; 0u32; list.len()]?;
        let need = need_of(rules, list, uses, class as u32, ends.as_mut_slice());
        let have = register_count(rules, class) as u32;
        if need > have {
            return Ok(Some(Lack {
                class: class as u32,
                need,
                have,
            }));
        }
    }
    Ok(None)
}

/// How many registers the class has.
fn register_count(rules: &CoverRules, class: usize) -> usize
    requires { class < length rules.now.classes.items }
    ensures { HasRegisters rules.now class result }
{
    rules.classes[class].len()
}

/// The registers of the values of all classes.
fn assign_all(
    alloc: Global,
    rules: &CoverRules,
    list: &[Instance],
    uses: &[u32],
) -> Result<Vec<Option<u32>>, NoMemory>
    requires known { AreKnown rules.now list.now }
    requires few { length list.now + 1 < 2 ^ 32 }
    requires tree { IsTree (items rules.now list.now) }
    requires uses { (class : ℕ) → AreUses (items rules.now list.now) uses.now class }
    requires classes { length rules.now.classes.items ≤ 8 }
    requires registers { (class have : ℕ) → HasRegisters rules.now class have → have ≤ 64 }
    requires fit { FitBelow rules.now list.now (length rules.now.classes.items) }
    ensures { IfOk result (λ registers. AssignedBelow rules.now list.now registers.items
        (length rules.now.classes.items)) }
{
    let mut registers = no_registers(alloc, list.len())?;
    for class in 0..rules.classes.len() {
        assign_next(alloc, rules, list, uses, class as u32, &mut registers)?;
    }
    Ok(registers)
}

/// No register for any of so many instances.
fn no_registers(alloc: Global, count: usize) -> Result<Vec<Option<u32>>, NoMemory>
    ensures { IfOk result (λ registers. registers.items ≡ replicate count None) }
{
    let mut registers = Vec::new(alloc);
    for _i in 0..count {
        registers.push(None)?;
    }
    Ok(registers)
}

/// Gives each value of the class its register.
fn assign_next(
    alloc: Global,
    rules: &CoverRules,
    list: &[Instance],
    uses: &[u32],
    class: u32,
    registers: &mut Vec<Option<u32>>,
) -> Result<(), NoMemory>
    requires known { AreKnown rules.now list.now }
    requires few { length list.now + 1 < 2 ^ 32 }
    requires tree { IsTree (items rules.now list.now) }
    requires uses { AreUses (items rules.now list.now) uses.now class }
    requires there { class < length rules.now.classes.items }
    requires registers { (have : ℕ) → HasRegisters rules.now class have → have ≤ 64 }
    requires fit { FitBelow rules.now list.now (length rules.now.classes.items) }
    requires so_far { AssignedBelow rules.now list.now registers.old.items class }
    ensures { IfOk result (λ u. AssignedBelow rules.now list.now registers.new.items (class + 1)) }
{
    let have = register_count(rules, class as usize);
    let mut until = vec![in alloc; 0u32; have]?;
    assign_class(
        rules,
        list,
        uses,
        class,
        until.as_mut_slice(),
        registers.as_mut_slice(),
    );
    Ok(())
}

/// Whether a register that is held to before `until` is held at the place before `next`.
fn is_busy(until: u32, next: u32, early: bool) -> bool
    ensures { result ≡ busy until next early }
{
    until > next || until == next && early
}

/// The first register that isn't busy; their number where all are.
fn first_idle(until: &[u32], next: u32, early: bool) -> usize
    ensures within { result ≤ length until.now }
    ensures before { (j : ℕ) → j < result → busy (slice_index until.now j) next early ≡ true }
    ensures idle { result < length until.now → busy (slice_index until.now result) next early
        ≡ false }
{
    for k in 0..until.len() {
        if !is_busy(until[k], next, early) {
            return k;
        }
    }
    until.len()
}

/// The first register that isn't busy at the place before `next`, where the instance stands.
fn idle_register(rules: &CoverRules, i: &Instance, until: &[u32], next: u32) -> usize
    requires { IsKnown rules.now i.now }
    ensures within { result ≤ length until.now }
    ensures before { (j : ℕ) → j < result
        → busy (slice_index until.now j) next (item_of rules.now i.now).early ≡ true }
    ensures idle { result < length until.now
        → busy (slice_index until.now result) next (item_of rules.now i.now).early ≡ false }
{
    first_idle(until, next, is_early(rules, i))
}

/// Gives each value of the class its register; `until` has a place for each register of the class,
/// with 0.
pub(crate) fn assign_class(
    rules: &CoverRules,
    list: &[Instance],
    uses: &[u32],
    class: u32,
    until: &mut [u32],
    registers: &mut [Option<u32>],
)
    requires known { AreKnown rules.now list.now }
    requires few { length list.now + 1 < 2 ^ 32 }
    requires uses { AreUses (items rules.now list.now) uses.now class }
    requires registers { length until.old ≤ 64 }
    requires size { length registers.old ≡ length list.now }
    requires fresh { (k : ℕ) → slice_index until.old k ≡ 0 }
    requires room { IsRoomy (items rules.now list.now) class (length until.old) }
    ensures size { length registers.new ≡ length registers.old }
    ensures values { (p : ℕ) → HasClass (items rules.now list.now) p class
        → (k : ℕ) × (slice_get registers.new p ≡ Some (Some k))
        × IsLeastFree (items rules.now list.now) registers.new class p k × (k < length until.old) }
    ensures others { (p : ℕ) → (HasClass (items rules.now list.now) p class → ⊥)
        → slice_get registers.new p ≡ slice_get registers.old p }
{
    for p in 0..list.len() {
        let instance = &list[p];
        if holds(rules, instance, class) {
            let k = idle_register(rules, instance, until, p as u32 + 1);
            let use_place = uses[p];
            until[k] = use_place + 1;
            registers[p] = Some(k as u32);
        }
    }
}

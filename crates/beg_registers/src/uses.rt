// Where each operand is used.
ghost use Rattle.std.specs.Prelude.{◌≡◌, ℕ, ◌+◌, ◌<◌, ◌≤◌, ◌^◌, List, length, slice_index, Contains};
ghost use Rattle.beg_model.specs.Items.{IsKnown, AreKnown, item_of, items};
ghost use Rattle.beg_model.specs.Registers.{IsOperand, IsText, UsedAt};
ghost use Rattle.beg_registers.specs.within.Uses.{user_of};

use crate::items::{holding, operands_of};
use beg_model::{CoverRules, Holding, Instance};

/// Where an operand of the instance is used: where the instance is, if that holds a text; else here.
fn user(rules: &CoverRules, i: &Instance, above: u32, own: u32) -> u32
    requires { IsKnown rules.now i.now }
    ensures { result ≡ user_of (item_of rules.now i.now) above own }
{
    match holding(rules, i) {
        Holding::Operand => above,
        Holding::Class(_) => own,
        Holding::Nothing => own,
    }
}

/// The operands are used at the place; the others as before.
fn mark(operands: &[u32], place: u32, uses: &mut [u32])
    requires { (w : ℕ) → Contains operands.now w → w < length uses.old }
    ensures size { length uses.new ≡ length uses.old }
    ensures marked { (w : ℕ) → Contains operands.now w → slice_index uses.new w ≡ place }
    ensures others { (w : ℕ) → (Contains operands.now w → ⊥) → slice_index uses.new w
        ≡ slice_index uses.old w }
{
    for k in 0..operands.len() {
        let o = operands[k];
        uses[o as usize] = place;
    }
}

/// Finds the place of use of each operand, from the last instance down.
pub(crate) fn fill_uses(rules: &CoverRules, list: &[Instance], uses: &mut [u32])
    requires known { AreKnown rules.now list.now }
    requires few { length list.now < 2 ^ 32 }
    requires size { length uses.old ≡ length list.now }
    requires below { (w p : ℕ) → IsOperand (items rules.now list.now) w p → w < p }
    requires one { (w p q : ℕ) → IsOperand (items rules.now list.now) w p
        → IsOperand (items rules.now list.now) w q → p ≡ q }
    requires texts { (p : ℕ) → IsText (items rules.now list.now) p → (q : ℕ)
        × IsOperand (items rules.now list.now) p q }
    ensures size { length uses.new ≡ length uses.old }
    ensures used { (w p : ℕ) → IsOperand (items rules.now list.now) w p
        → UsedAt (items rules.now list.now) w (slice_index uses.new w) }
{
    for i in (0..list.len()).rev() {
        let instance = &list[i];
        let above = uses[i];
        let place = user(rules, instance, above, i as u32);
        mark(operands_of(instance), place, uses);
    }
}

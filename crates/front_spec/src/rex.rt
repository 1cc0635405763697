// The section REX read: its rules and states, or its first fault.
ghost use Rattle.std.specs.Prelude.{◌≡◌, ℕ, ◌+◌, ◌^◌, ◌<◌, ◌≤◌, List, Some, true, length, map, slice_get, IfOk, IfErr};
ghost use Rattle.ck_base.specs.declared.fault.Kind.TheVariants.{Twice as twice};
ghost use Rattle.rex_model.specs.Positions.{position_count};
ghost use Rattle.rex_model.specs.RuleMeaning.{rules_of};
ghost use Rattle.rex_model.specs.Rules.{Rule};
ghost use Rattle.rex_model.specs.Sets.{marked_rules};
ghost use Rattle.section_frame.specs.Declares.{DeclareAll, Grow, HasAt, judged};
ghost use Rattle.section_frame.specs.FirstFault.{Accepts};
ghost use Rattle.section_frame.specs.Passes.{judged_by, numbered};
ghost use Rattle.section_frame.specs.Stages.{IsFirstIn};
ghost use Rattle.spec_text.specs.Lines.{Line};
ghost use Rattle.spec_text.specs.Promise.{AreSectionsOf};
ghost use Rattle.front_spec.specs.Promise.{DeclaresRules, IsRexFault};
ghost use Rattle.front_spec.specs.RexFaults.{RexFault, all_states, rex};
ghost use Rattle.front_spec.specs.RexShapes.{RexShape};
ghost use Rattle.front_spec.specs.Seen.{saying};

use crate::declaration::{Declarations, Says};
use crate::fault::{ByState, ByToken, limit_in, twice_in, unknown_in};
use crate::rules::scan_rules;
use bumpalo::Bump;
use ck_base::{Names, NoMemory, SpecFault};
use rex_model::ScanRules;
use section_frame::{Numbered, declared_lines, gather, gathered, stages};
use spec_text::{Sections, rex_of};
use std::alloc::Global;

/// The scan rules of the section REX, or its first fault: the first line without a shape; else the
/// first line of kind twice, then unknown, then limit. `s` is what `sections` gives of `spec`.
/// States are numbered from STD on in the order of their lines, tokens in the order in which they
/// are first met.
pub fn read_rex<'a>(
    alloc: Global,
    arena: &'a Bump<Global>,
    spec: &[u8],
    s: &Sections,
) -> Result<ScanRules<'a>, SpecFault>
    requires size { length spec.now ≤ 1048576 }
    requires read { AreSectionsOf spec.now s.now }
    ensures rules { IfOk result (λ rules. DeclaresRules spec.now (rules_of rules)) }
    ensures fault { IfErr result (IsRexFault spec.now) }
    ensures positions { IfOk result (λ rules.
        position_count (marked_rules (rules_of rules).list) ≤ 4096) }
    ensures next { IfOk result (λ rules. (i n : ℕ) (rule : Rule)
        → slice_get (rules_of rules).list i ≡ Some rule → rule.next ≡ Some n
        → n < length (rules_of rules).states) }
    ensures tokens { IfOk result (λ rules. (i n : ℕ) (rule : Rule)
        → slice_get (rules_of rules).list i ≡ Some rule → rule.token ≡ Some n
        → n < length (rules_of rules).tokens) }
    ensures active { IfOk result (λ rules. (i k : ℕ) (rule : Rule)
        → slice_get (rules_of rules).list i ≡ Some rule → rule.active k ≡ true
        → k < length (rules_of rules).states) }
    ensures states { IfOk result (λ rules. length (rules_of rules).states ≤ 64) }
    ensures few { IfOk result (λ rules. length (rules_of rules).list < 2 ^ 32) }
{
    let section = rex_of(s);
    let texts = Bump::new(alloc);
    let list = declared_lines(alloc, &texts, spec, section.lines, &Declarations { arena })?;
    let list = list.as_slice();
    let states = declared_states(alloc, list)?;
    let tokens = gathered(alloc, list, &ByToken)?;
    let rules = scan_rules(alloc, arena, &states, &tokens, list)?;
    Ok(ScanRules {
        states,
        tokens,
        rules,
    })
}

/// The names of the start states, or the first fault where each line has a shape.
fn declared_states(alloc: Global, list: &[Numbered<Says<'_, '_>>]) -> Result<Names, SpecFault>
    requires few { length list.now + 2 < 2 ^ 32 }
    requires grow { Grow (map numbered list.now) }
    ensures states { IfOk result (λ names.
        names ≡ all_states (map (judged_by saying) list.now)) }
    ensures accepted { IfOk result (λ names. (lines : List Line)
        → DeclareAll RexShape lines (map (judged_by saying) list.now)
        → Accepts (judged rex lines) (map (judged_by saying) list.now)) }
    ensures fault { IfErr result (λ fault. (lines : List Line)
        → DeclareAll RexShape lines (map (judged_by saying) list.now)
        → IsFirstIn (judged rex lines) fault) }
{
    let twice = twice_in(alloc, list)?;
    stages(twice, None, None, None)?;
    let states = states_of(alloc, list)?;
    let unknown = unknown_in(&states, list)?;
    let limit = limit_in(list)?;
    stages(None, unknown, None, limit)?;
    Ok(states)
}

/// The names of the start states, where none is there twice.
fn states_of(alloc: Global, list: &[Numbered<Says<'_, '_>>]) -> Result<Names, NoMemory>
    requires few { length list.now + 2 < 2 ^ 32 }
    requires apart { let ds = map (judged_by saying) list.now in
        (line : ℕ) → HasAt ds (RexFault ds twice) line → ⊥ }
    ensures { IfOk result (λ names. names ≡ all_states (map (judged_by saying) list.now)) }
{
    let mut names = Names::new(alloc);
    names.intern(b"STD")?;
    gather(&mut names, list, &ByState)?;
    Ok(names)
}

// The first fault of the section REX, kind by kind.
ghost use Rattle.std.specs.Prelude.{◌≡◌, ℕ, ◌+◌, ◌-◌, ◌^◌, ◌<◌, ◌≤◌, [], length, map, min, unwrap_or, None, IfOk};
ghost use Rattle.ck_base.specs.declared.fault.Kind.TheVariants.{Limit as limit, Twice as twice, Unknown as unknown};
ghost use Rattle.section_frame.specs.Declares.{Grow};
ghost use Rattle.section_frame.specs.Passes.{FirstWith, judged_by, numbered};
ghost use Rattle.spec_text.specs.Seen.{bytes_of};
ghost use Rattle.front_spec.specs.RexFaults.{RexFault, all_states, context_positions};
ghost use Rattle.front_spec.specs.RexShapes.{rule as a_rule};
ghost use Rattle.front_spec.specs.Seen.{names_in, regex_in, said_rule, saying};
ghost use Rattle.front_spec.specs.Steps.{counted_positions};

use crate::declaration::Says;
use crate::rule::DeclaredRule;
use ck_base::{Names, NoMemory};
use rex_model::{Regex, positions};
use section_frame::{
    Adding, Again, Among, Both, Counted, Missing, Naming, Numbered, Uses, Words, first_line,
};
use std::alloc::Global;

/// States are called by their lines.
#[derive(Clone, Copy)]
pub(crate) struct ByState;

impl<'a, 's> Naming<Says<'a, 's>> for ByState {
    ghost use Rattle.front_spec.specs.RexShapes.{Saying};
    ghost use Rattle.front_spec.specs.RexFaults.{state_name};
    ghost use Rattle.front_spec.specs.Seen.{saying};

    ghost Said = { Saying };

    ghost seen = { saying };

    ghost name = { state_name };

    fn name_of<'t>(&self, says: &'t Says<'a, 's>) -> Option<&'t [u8]> {
        match says {
            Says::State(name) => Some(name),
            Says::Rule(_) => None,
        }
    }
}

/// Tokens are called by the rules that give them.
#[derive(Clone, Copy)]
pub(crate) struct ByToken;

impl<'a, 's> Naming<Says<'a, 's>> for ByToken {
    ghost use Rattle.front_spec.specs.RexShapes.{Saying};
    ghost use Rattle.front_spec.specs.RexFaults.{token_name};
    ghost use Rattle.front_spec.specs.Seen.{saying};

    ghost Said = { Saying };

    ghost seen = { saying };

    ghost name = { token_name };

    fn name_of<'t>(&self, says: &'t Says<'a, 's>) -> Option<&'t [u8]> {
        match says {
            Says::State(_) => None,
            Says::Rule(rule) => rule.token,
        }
    }
}

/// Rules use the states by which they say where they are active.
#[derive(Clone, Copy)]
pub(crate) struct WhereActive;

impl<'a, 's> Uses<Says<'a, 's>> for WhereActive {
    ghost use Rattle.front_spec.specs.RexShapes.{Saying};
    ghost use Rattle.front_spec.specs.RexFaults.{active_names};
    ghost use Rattle.front_spec.specs.Seen.{saying};

    ghost Said = { Saying };

    ghost seen = { saying };

    ghost uses = { active_names };

    fn count(&self, says: &Says<'a, 's>) -> usize {
        match says {
            Says::State(_) => 0,
            Says::Rule(rule) => active_in(rule).len(),
        }
    }

    fn used<'t>(&self, says: &'t Says<'a, 's>, place: usize) -> &'t [u8] {
        match says {
            Says::State(_) => unreachable!(),
            Says::Rule(rule) => active_in(rule)[place],
        }
    }
}

/// The states by which the rule says where it is active.
fn active_in<'r, 's>(rule: &'r DeclaredRule<'_, 's>) -> &'r [&'s [u8]]
    ensures { map bytes_of result.now ≡ unwrap_or (names_in rule.now.states) [] }
{
    match &rule.states {
        Some(states) => states.as_slice(),
        None => &[],
    }
}

/// Rules use the state to which they go.
#[derive(Clone, Copy)]
pub(crate) struct BehindGo;

impl<'a, 's> Uses<Says<'a, 's>> for BehindGo {
    ghost use Rattle.front_spec.specs.RexShapes.{Saying};
    ghost use Rattle.front_spec.specs.RexFaults.{go_names};
    ghost use Rattle.front_spec.specs.Seen.{saying};

    ghost Said = { Saying };

    ghost seen = { saying };

    ghost uses = { go_names };

    fn count(&self, says: &Says<'a, 's>) -> usize {
        match says {
            Says::State(_) => 0,
            Says::Rule(rule) => usize::from(rule.next.is_some()),
        }
    }

    fn used<'t>(&self, says: &'t Says<'a, 's>, _place: usize) -> &'t [u8] {
        match says {
            Says::State(_) => unreachable!(),
            Says::Rule(rule) => rule.next.unwrap(),
        }
    }
}

/// Each state is one.
#[derive(Clone, Copy)]
pub(crate) struct OneState;

impl<'a, 's> Adding<Says<'a, 's>> for OneState {
    ghost use Rattle.front_spec.specs.RexShapes.{Saying};
    ghost use Rattle.front_spec.specs.RexFaults.{one_state};
    ghost use Rattle.front_spec.specs.Seen.{saying};

    ghost Said = { Saying };

    ghost seen = { saying };

    ghost adds = { one_state };

    fn added(&self, says: &Says<'a, 's>) -> u32 {
        match says {
            Says::State(_) => 1,
            Says::Rule(_) => 0,
        }
    }
}

/// Rules have positions; of one rule no more are counted than are too many.
#[derive(Clone, Copy)]
pub(crate) struct Positions;

impl<'a, 's> Adding<Says<'a, 's>> for Positions {
    ghost use Rattle.front_spec.specs.RexShapes.{Saying};
    ghost use Rattle.front_spec.specs.Seen.{saying};
    ghost use Rattle.front_spec.specs.Steps.{counted_positions};

    ghost Said = { Saying };

    ghost seen = { saying };

    ghost adds = { counted_positions };

    fn added(&self, says: &Says<'a, 's>) -> u32 {
        match says {
            Says::State(_) => 0,
            Says::Rule(rule) => positions_in(rule),
        }
    }
}

/// How many positions the rule has, with its end mark; 4,097 where there are more.
fn positions_in(rule: &DeclaredRule<'_, '_>) -> u32
    ensures { result ≡ counted_positions (a_rule (said_rule rule.now)) }
{
    let behind = positions_behind(&rule.context);
    let count = u64::from(positions(&rule.body)) + u64::from(behind) + 1;
    count.min(4097) as u32
}

/// How many positions the context has; 4,294,967,295 where there are more.
fn positions_behind(context: &Option<Regex<'_>>) -> u32
    ensures { result ≡ min (context_positions (regex_in context.now)) (2 ^ 32 - 1) }
{
    match context {
        Some(context) => positions(context),
        None => 0,
    }
}

/// The first line of a state that is there already or is STD, or of a rule whose token is END.
pub(crate) fn twice_in(
    alloc: Global,
    list: &[Numbered<Says<'_, '_>>],
) -> Result<Option<u32>, NoMemory>
    requires few { length list.now + 1 < 2 ^ 32 }
    requires grow { Grow (map numbered list.now) }
    ensures first { let ds = map (judged_by saying) list.now in
        IfOk result (FirstWith ds (RexFault ds twice)) }
{
    let std = [b"STD".as_slice()];
    let end = [b"END".as_slice()];
    let by_state = Again {
        names: Names::new(alloc),
        naming: ByState,
    };
    let by_std = Among {
        words: Words { list: &std },
        naming: ByState,
    };
    let by_end = Among {
        words: Words { list: &end },
        naming: ByToken,
    };
    let mut test = Both {
        first: by_state,
        second: Both {
            first: by_std,
            second: by_end,
        },
    };
    first_line(list, &mut test)
}

/// The first line of a rule that names a state which isn't there.
pub(crate) fn unknown_in(
    states: &Names,
    list: &[Numbered<Says<'_, '_>>],
) -> Result<Option<u32>, NoMemory>
    requires states { states.now ≡ all_states (map (judged_by saying) list.now) }
    requires few { length list.now + 1 < 2 ^ 32 }
    requires grow { Grow (map numbered list.now) }
    ensures first { let ds = map (judged_by saying) list.now in
        IfOk result (FirstWith ds (RexFault ds unknown)) }
{
    let active = Missing {
        words: states,
        uses: WhereActive,
    };
    let behind_go = Missing {
        words: states,
        uses: BehindGo,
    };
    let mut test = Both {
        first: active,
        second: behind_go,
    };
    first_line(list, &mut test)
}

/// The line by which there are more than 64 states with STD, or more than 4,096 positions.
pub(crate) fn limit_in(list: &[Numbered<Says<'_, '_>>]) -> Result<Option<u32>, NoMemory>
    requires few { length list.now + 1 < 2 ^ 32 }
    requires grow { Grow (map numbered list.now) }
    ensures first { let ds = map (judged_by saying) list.now in
        IfOk result (FirstWith ds (RexFault ds limit)) }
{
    let states = Counted {
        count: 0,
        limit: 63,
        adding: OneState,
    };
    let positions = Counted {
        count: 0,
        limit: 4096,
        adding: Positions,
    };
    let mut test = Both {
        first: states,
        second: positions,
    };
    first_line(list, &mut test)
}

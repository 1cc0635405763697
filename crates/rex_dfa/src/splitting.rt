// Automata for the splits of rules with a right context, each made once.
ghost use Rattle.std.specs.Prelude.{◌≡◌, ◌+◌, ◌⊎◌, ◌<◌, ◌≤◌, IfOk, MatchOption, length, map};
ghost use Rattle.rex_model.specs.Meaning.{meaning};
ghost use Rattle.rex_model.specs.Positions.{position_count};
ghost use Rattle.rex_model.specs.RuleMeaning.{rule_of};
ghost use Rattle.rex_model.specs.ScanSets.{HasMoreSplitSets};
ghost use Rattle.rex_model.specs.Sets.{marked_rules};
ghost use Rattle.rex_model.specs.TableMeaning.{halves_of};
ghost use Rattle.rex_dfa.specs.within.Splits.{AreSplits, HasMoreBackward, HasMoreForward, IsMade, Splitting};

use crate::halves::{backward_of, forward_of};
use ck_base::NoMemory;
use rex_model::{Regex, ScanRule, Split};
use std::alloc::Global;

/// All splits together have at most so many sets.
const MOST: u32 = 4096;

/// A split, and how many sets its automata stand for.
#[derive(Drop)]
pub(crate) struct Made {
    pub(crate) split: Split,
    pub(crate) count: u32,
}

/// The splits of the rules; `None` where they have more than 4,096 sets together.
pub(crate) fn splits_of(alloc: Global, rules: &[ScanRule]) -> Result<Option<Vec<Split>>, NoMemory>
    requires { position_count (marked_rules (map rule_of rules.now)) ≤ 4096 }
    ensures { IfOk result (λ splits. MatchOption splits
        (HasMoreSplitSets (map rule_of rules.now) 4096)
        (λ splits. AreSplits (map rule_of rules.now) (map halves_of splits.items))) }
{
    let mut splits = Vec::new(alloc);
    let mut total = 0;
    for i in 0..rules.len() {
        match add_split(alloc, rules, i, &mut splits, total)? {
            Some(sum) => total = sum,
            None => return Ok(None),
        }
    }
    Ok(Some(splits))
}

/// Adds the split of rule `i`, where it has a context; `None` where the splits have too many sets
/// then.
fn add_split(
    alloc: Global,
    rules: &[ScanRule],
    i: usize,
    splits: &mut Vec<Split>,
    total: u32,
) -> Result<Option<u32>, NoMemory>
    requires inside { i < length rules.now }
    requires few { position_count (marked_rules (map rule_of rules.now)) ≤ 4096 }
    requires splitting { Splitting (map rule_of rules.now) i
        (map halves_of splits.old.items) total }
    ensures { IfOk result (λ total. MatchOption total
        (HasMoreSplitSets (map rule_of rules.now) 4096)
        (Splitting (map rule_of rules.now) (i + 1) (map halves_of splits.new.items))) }
{
    let rule = &rules[i];
    match rule.context {
        Some(context) => match made_of(alloc, i as u32, rule.body, context)? {
            Some(made) => {
                let sum = total + made.count;
                if sum > MOST {
                    return Ok(None);
                }
                splits.push(made.split)?;
                Ok(Some(sum))
            }
            None => Ok(None),
        },
        None => Ok(Some(total)),
    }
}

/// The split of a rule; `None` where one of its automata has more than 4,096 states.
fn made_of(
    alloc: Global,
    rule: u32,
    body: &Regex,
    context: &Regex,
) -> Result<Option<Made>, NoMemory>
    requires body { position_count (meaning body.now) < 4096 }
    requires context { position_count (meaning context.now) < 4096 }
    ensures { IfOk result (λ made. MatchOption made
        (HasMoreForward (meaning body.now) 4096 ⊎ HasMoreBackward (meaning context.now) 4096)
        (λ made. IsMade rule (meaning body.now) (meaning context.now)
        (halves_of made.split) made.count)) }
{
    match forward_of(alloc, body)? {
        Some(forward) => match backward_of(alloc, context)? {
            Some(backward) => {
                let count = forward.count + backward.count;
                Ok(Some(Made {
                    split: Split {
                        rule,
                        forward: forward.dfa,
                        backward: backward.dfa,
                    },
                    count,
                }))
            }
            None => Ok(None),
        },
        None => Ok(None),
    }
}

// How a rule matches at a place: the token's length and its context's.
ghost use Rattle.std.specs.Prelude.{ℕ, ◌≡◌, ◌+◌, ◌^◌, ◌<◌, ◌≤◌, length, drop, Some};
ghost use Rattle.rex_model.specs.Meaning.{meaning};
ghost use Rattle.rex_model.specs.Positions.{position_count};
ghost use Rattle.rex_model.specs.RuleMeaning.{rule_of};
ghost use Rattle.rex_model.specs.Rules.{trailing};
ghost use Rattle.rex_model.specs.within.Longest.{IsLongestOrEmpty};
ghost use Rattle.rex_model.specs.within.Pairs.{IsBestUpTo, IsPairOfRule, better_of, plain_of};

use crate::empty_word::nullable;
use crate::firsts::add_first;
use crate::longest::longest;
use crate::position_sets::PositionSets;
use crate::regex::Regex;
use crate::rules::ScanRule;
use crate::sets::step;
use ck_base::Bits;
use std::mem::swap;

/// How many bytes a text has, and how many together with what stands behind it.
#[derive(Clone, Copy)]
pub(crate) struct Pair {
    pub(crate) len: usize,
    pub(crate) whole: usize,
}

/// The best text of the rule at the beginning of `rest`; `None` where there is none, or the rule
/// isn't active.
pub(crate) fn pair_of_rule(
    sets: &mut PositionSets,
    rule: &ScanRule,
    state: u32,
    rest: &[u8],
) -> Option<Pair>
    requires room { position_count (rule_of rule.now).body ≤ sets.old }
    requires behind { position_count (trailing (rule_of rule.now).context) ≤ sets.old }
    ensures best { IsPairOfRule (rule_of rule.now) state rest.now result }
    ensures same { sets.new ≡ sets.old }
{
    if !rule.states.has(state) {
        return None;
    }
    match rule.context {
        Some(context) => best_pair(
            rule.body,
            context,
            rest,
            &mut sets.from,
            &mut sets.to,
            &mut sets.behind_from,
            &mut sets.behind_to,
        ),
        None => plain(longest(rule.body, rest, &mut sets.from, &mut sets.to)),
    }
}

/// The pair of a text behind which nothing stands.
fn plain(len: Option<usize>) -> Option<Pair>
    ensures { result ≡ plain_of len }
{
    match len {
        Some(len) => Some(Pair { len, whole: len }),
        None => None,
    }
}

/// The best pair of the body and the context at the text's beginning. The first two sets hold
/// positions of the body in turn, and the others those of the context.
fn best_pair(
    body: &Regex,
    context: &Regex,
    text: &[u8],
    from: &mut Bits,
    to: &mut Bits,
    behind_from: &mut Bits,
    behind_to: &mut Bits,
) -> Option<Pair>
    requires room { position_count (meaning body.now) ≤ from.old.size }
    requires fits { from.old.size < 2 ^ 32 }
    requires same_size { to.old.size ≡ from.old.size }
    requires behind_room { position_count (meaning context.now) ≤ behind_from.old.size }
    requires behind_fits { behind_from.old.size < 2 ^ 32 }
    requires behind_same { behind_to.old.size ≡ behind_from.old.size }
    ensures best { IsBestUpTo (meaning body.now) (meaning context.now) text.now
        (length text.now) result }
    ensures from_size { from.new.size ≡ from.old.size }
    ensures to_size { to.new.size ≡ to.old.size }
    ensures behind_from_size { behind_from.new.size ≡ behind_from.old.size }
    ensures behind_to_size { behind_to.new.size ≡ behind_to.old.size }
{
    from.clear();
    to.clear();
    add_first(body, 0, from);
    let mut best = None;
    for (i, byte) in text.iter().enumerate() {
        if from.is_empty() {
            break;
        }
        if step(body, 0, from, *byte, to) {
            let found = longest_or_empty(context, &text[i + 1..], behind_from, behind_to);
            best = better(best, i + 1, found);
        }
        swap(from, to);
        to.clear();
    }
    best
}

/// How many bytes the longest word has that the text begins with, the empty word among them.
fn longest_or_empty(r: &Regex, text: &[u8], from: &mut Bits, to: &mut Bits) -> Option<usize>
    requires room { position_count (meaning r.now) ≤ from.old.size }
    requires fits { from.old.size < 2 ^ 32 }
    requires same_size { to.old.size ≡ from.old.size }
    ensures longest { IsLongestOrEmpty (meaning r.now) text.now result }
    ensures from_size { from.new.size ≡ from.old.size }
    ensures to_size { to.new.size ≡ to.old.size }
{
    let empty = nullable(r);
    match longest(r, text, from, to) {
        Some(k) => Some(k),
        None if empty => Some(0),
        None => None,
    }
}

/// The better of the best pair so far and one whose text is longer, if a word of its context
/// follows.
fn better(best: Option<Pair>, len: usize, behind: Option<usize>) -> Option<Pair>
    requires { (k : ℕ) → behind ≡ Some k → len + k < 2 ^ 64 }
    ensures { result ≡ better_of best len behind }
{
    match (best, behind) {
        (best, None) => best,
        (Some(best), Some(k)) if len + k < best.whole => Some(best),
        (_, Some(k)) => Some(Pair {
            len,
            whole: len + k,
        }),
    }
}

// An automaton run over a text: the last place at which it accepts.
ghost use Rattle.std.specs.Prelude.{◌≡◌, ◌≢◌, ◌<◌, MatchOption, length};
ghost use Rattle.rex_model.specs.Runs.{AcceptsNothing, IsLongestRun, IsStateOf, accepted, moved, nowhere};
ghost use Rattle.rex_model.specs.TableMeaning.{automaton_of};
ghost use Rattle.rex_model.specs.Tables.{IsDfa};
ghost use Rattle.scan_driver.specs.within.Found.{found_with};
ghost use Rattle.scan_driver.specs.within.Furthest.{IsFurthest};

use rex_model::Dfa;

/// Stands for no state.
const NOWHERE: u16 = 65_535;

/// A rule, and how many bytes of a text it goes over.
#[derive(Clone, Copy)]
pub(crate) struct Found {
    pub(crate) rule: u32,
    pub(crate) len: usize,
}

/// The last state of a run, and how many bytes of a text lead to it.
#[derive(Clone, Copy)]
pub(crate) struct Reached {
    pub(crate) state: u16,
    pub(crate) len: usize,
}

/// The longest beginning of the text that is accepted from the state, and what is accepted there. It
/// is mostly the furthest that the automaton comes; only where it isn't, the text is gone through
/// again.
pub(crate) fn longest(dfa: &Dfa, start: u16, text: &[u8]) -> Option<Found>
    requires dfa { IsDfa (automaton_of dfa.now) }
    requires state { IsStateOf (automaton_of dfa.now) start }
    ensures { MatchOption result (AcceptsNothing (automaton_of dfa.now) start text.now)
        (λ found. IsLongestRun (automaton_of dfa.now) start text.now found.rule found.len) }
{
    if start == NOWHERE {
        return last_accepted(dfa, start, text);
    }
    let end = furthest(dfa, start, text);
    match dfa.accepts[end.state as usize] {
        Some(rule) => Some(Found { rule, len: end.len }),
        None => last_accepted(dfa, start, text),
    }
}

/// Goes on with the bytes of the text as long as there is a state: one look-up a byte.
fn furthest(dfa: &Dfa, start: u16, text: &[u8]) -> Reached
    requires dfa { IsDfa (automaton_of dfa.now) }
    requires state { IsStateOf (automaton_of dfa.now) start }
    requires some { start ≢ nowhere }
    ensures { IsFurthest (automaton_of dfa.now) start text.now result.state result.len }
{
    let moves = dfa.moves.as_slice();
    let _states = dfa.accepts.len();
    let mut state = start;
    for (i, byte) in text.iter().enumerate() {
        let next = moves[256 * state as usize + *byte as usize];
        if next == NOWHERE {
            return Reached { state, len: i };
        }
        state = next;
    }
    Reached {
        state,
        len: text.len(),
    }
}

/// The same as `longest`, with a look at what is accepted after each byte.
fn last_accepted(dfa: &Dfa, start: u16, text: &[u8]) -> Option<Found>
    requires dfa { IsDfa (automaton_of dfa.now) }
    requires state { IsStateOf (automaton_of dfa.now) start }
    ensures { MatchOption result (AcceptsNothing (automaton_of dfa.now) start text.now)
        (λ found. IsLongestRun (automaton_of dfa.now) start text.now found.rule found.len) }
{
    let mut state = start;
    let mut found = found_at(accept(dfa, state), 0, None);
    for (i, byte) in text.iter().enumerate() {
        if state == NOWHERE {
            break;
        }
        state = after(dfa, state, *byte);
        found = found_at(accept(dfa, state), i + 1, found);
    }
    found
}

/// What was found, with what is accepted after `len` bytes.
fn found_at(rule: Option<u32>, len: usize, found: Option<Found>) -> Option<Found>
    ensures { result ≡ found_with rule len found }
{
    match rule {
        Some(rule) => Some(Found { rule, len }),
        None => found,
    }
}

/// The state after the byte.
pub(crate) fn after(dfa: &Dfa, state: u16, byte: u8) -> u16
    requires dfa { IsDfa (automaton_of dfa.now) }
    requires state { IsStateOf (automaton_of dfa.now) state }
    ensures moved { result ≡ moved (automaton_of dfa.now) state byte }
    ensures state { IsStateOf (automaton_of dfa.now) result }
{
    if state == NOWHERE {
        return NOWHERE;
    }
    dfa.moves[256 * state as usize + byte as usize]
}

/// What is accepted in the state.
pub(crate) fn accept(dfa: &Dfa, state: u16) -> Option<u32>
    requires { IsStateOf (automaton_of dfa.now) state }
    ensures { result ≡ accepted (automaton_of dfa.now) state }
{
    if state == NOWHERE {
        return None;
    }
    dfa.accepts[state as usize]
}

// The next token of a text, by tables.
ghost use Rattle.std.specs.Prelude.{ℕ, ◌≡◌, ◌<◌, List, length, MatchOption};
ghost use Rattle.rex_model.specs.Rules.{Rule};
ghost use Rattle.rex_model.specs.Run.{Scans};
ghost use Rattle.rex_model.specs.Runs.{AreBytes};
ghost use Rattle.rex_model.specs.TableMeaning.{tables_of};
ghost use Rattle.rex_model.specs.Tables.{GivesWinners, IsWellFormed};
ghost use Rattle.rex_model.specs.Winner.{HasNoCandidate};
ghost use Rattle.scan_driver.specs.within.Found.{IsWon, scan_with};

use crate::cutting::cut;
use crate::running::{Found, longest};
use rex_model::{Scan, ScanAction, ScanTables};

/// What the tables find in the text at the place `at` in the state. At the text's end and past it this
/// is `End`.
pub fn next(tables: &ScanTables, text: &[u8], state: u32, at: usize) -> Scan
    requires well_formed { IsWellFormed (tables_of tables.now) }
    requires gives { (rules : List Rule) × GivesWinners (tables_of tables.now) rules }
    requires state { state < length (tables_of tables.now).starts }
    ensures { (rules : List Rule) → GivesWinners (tables_of tables.now) rules
        → Scans rules text.now state at result }
{
    if at >= text.len() {
        return Scan::End;
    }
    match winner(tables, state, &text[at..]) {
        Some(found) => scan_of(
            tables.actions[found.rule as usize],
            found.rule,
            at + found.len,
            state,
        ),
        None => Scan::BadToken(at),
    }
}

/// The rule that wins at the beginning of `rest`, and how many bytes its token's text has.
fn winner(tables: &ScanTables, state: u32, rest: &[u8]) -> Option<Found>
    requires well_formed { IsWellFormed (tables_of tables.now) }
    requires gives { (rules : List Rule) × GivesWinners (tables_of tables.now) rules }
    requires state { state < length (tables_of tables.now).starts }
    ensures { MatchOption result
        ((rules : List Rule) → GivesWinners (tables_of tables.now) rules
        → HasNoCandidate rules state rest.now)
        (λ found. IsWon (tables_of tables.now) state rest.now found.rule found.len) }
{
    known_bytes(rest);
    let found = longest(&tables.main, tables.starts[state as usize], rest)?;
    let len = cut(&tables.splits, found.rule, &rest[..found.len]);
    Some(Found {
        rule: found.rule,
        len,
    })
}

/// The text's numbers are bytes.
fn known_bytes(text: &[u8])
    ensures { AreBytes text.now }
{}

/// What a scan answers with this action of the rule, where `to` is the place after its text.
fn scan_of(action: ScanAction, rule: u32, to: usize, state: u32) -> Scan
    ensures { result ≡ scan_with action rule to state }
{
    let state = action.next.unwrap_or(state);
    match action.token {
        Some(_) => Scan::Token { rule, to, state },
        None => Scan::Skip { rule, to, state },
    }
}

// The tokens of a source, drawn one at a time for a parser.
ghost use Rattle.std.specs.Prelude.{◌≡◌, ℕ, ◌+◌, ◌-◌, ◌^◌, ◌<◌, ◌≤◌, List, true, length, IfSome, slice_get};
ghost use Rattle.rex_model.specs.Rules.{Rules};
ghost use Rattle.rex_model.specs.TableMeaning.{tables_of};
ghost use Rattle.parse_driver.specs.Stream.{Draws, Ending, GoesOn};
ghost use Rattle.parse_driver.specs.declared.tokens.TokenRef.{TokenRef};
ghost use Rattle.ck_chain.specs.within.Scanners.{ScansBy};
ghost use Rattle.ck_chain.specs.within.Streams.{CanDraw, ComesBy, Left};

use parse_driver::{Next, TokenRef, Tokens};
use rex_model::{Scan, ScanTables};
use std::marker::Model;

/// The tokens of a source, scanned one at a time.
#[derive(Drop)]
pub(crate) struct SourceTokens<'t> {
    tables: &'t ScanTables,
    source: &'t [u8],
    /// The start state in which the next token is scanned.
    state: u32,
    /// The place where it is scanned.
    at: usize,
}

impl<'t> Model for SourceTokens<'t> {
    ghost Value = { Left };

    ghost view = { λ tokens. record {
      tables = tables_of tokens.tables.now;
      source = tokens.source.now;
      state = tokens.state;
      at = tokens.at;
    } };

    ghost invariant = { λ tokens. CanDraw (tables_of tokens.tables.now) tokens.source.now
        tokens.state tokens.at };
}

/// What is drawn, and the state and the place where scanning goes on.
#[derive(Clone, Copy)]
struct Drawn {
    next: Next,
    state: u32,
    at: usize,
}

impl<'t> SourceTokens<'t> {
    /// The tokens of the source from its beginning on.
    pub(crate) fn new(tables: &'t ScanTables, source: &'t [u8]) -> SourceTokens<'t>
        requires scans { (rules : Rules) × ScansBy rules (tables_of tables.now) }
        requires small { length source.now + 1 < 2 ^ 32 }
        ensures { result ≡ record {
          tables = tables_of tables.now;
          source = source.now;
          state = 0;
          at = 0;
        } }
    {
        SourceTokens {
            tables,
            source,
            state: 0,
            at: 0,
        }
    }
}

impl<'t> Tokens for SourceTokens<'t> {
    ghost comes = { λ left. ComesBy left.tables left.source left.state left.at };

    ghost left = { λ left. length left.source - left.at };

    ghost is_open = { λ left. true };

    fn next(&mut self) -> Next {
        let drawn = draw(self.tables, self.source, self.state, self.at);
        self.state = drawn.state;
        self.at = drawn.at;
        drawn.next
    }
}

/// The next token from the place in the start state on, or how the tokens end. Texts that are skipped are
/// passed over.
fn draw(tables: &ScanTables, source: &[u8], first_state: u32, from: usize) -> Drawn
    requires { CanDraw (tables_of tables.now) source.now first_state from }
    ensures drawn { (tokens : List TokenRef) (ending : Ending)
        → ComesBy (tables_of tables.now) source.now first_state from tokens ending
        → Draws (ComesBy (tables_of tables.now) source.now result.state result.at) tokens ending
        result.next }
    ensures can_draw { CanDraw (tables_of tables.now) source.now result.state result.at }
    ensures goes_on { GoesOn result.next true (length source.now - from)
        (length source.now - result.at) }
{
    let mut state = first_state;
    let mut at = from;
    loop {
        match scan_driver::next(tables, source, state, at) {
            Scan::Token {
                rule,
                to,
                state: after,
            } => {
                let token = TokenRef {
                    terminal: token_of(tables, rule),
                    from: at as u32,
                    to: to as u32,
                };
                return Drawn {
                    next: Next::Token(token),
                    state: after,
                    at: to,
                };
            }
            Scan::Skip {
                to,
                state: after,
                ..
            } => {
                at = to;
                state = after;
            }
            Scan::End => {
                return Drawn {
                    next: Next::End(at as u32),
                    state,
                    at,
                };
            }
            Scan::BadToken(_) => {
                return Drawn {
                    next: Next::Bad(at as u32),
                    state,
                    at,
                };
            }
        }
    }
}

/// The token of the rule; 0 where it has none.
fn token_of(tables: &ScanTables, rule: u32) -> u32
    requires { rule < length tables.now.actions.items }
    ensures { IfSome (slice_get tables.now.actions.items rule)
        (λ action. IfSome action.token (λ t. result ≡ t)) }
{
    match tables.actions[rule as usize].token {
        Some(token) => token,
        None => 0,
    }
}

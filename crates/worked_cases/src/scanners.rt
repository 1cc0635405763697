// Both scanners of one list of rules, compared at each place.
ghost use Rattle.std.specs.Prelude.{◌≡◌, List, ◌^◌, ◌<◌, length};
ghost use Rattle.rex_model.specs.RuleMeaning.{rules_of};
ghost use Rattle.rex_model.specs.Rules.{Rule};
ghost use Rattle.rex_model.specs.TableMeaning.{tables_of};
ghost use Rattle.rex_model.specs.Tables.{GivesWinners, IsWellFormed};

use anyhow::{Result, bail};
use bumpalo::Bump;
use front_spec::read_rex;
use rex_dfa::build;
use rex_model::{ScanRules, ScanTables, scan_sets};
use scan_driver::next;
use spec_text::sections;
use std::alloc::Global;
use std::fs;

/// A specification has at most this many bytes.
const SPEC_LIMIT: usize = 1_048_576;

/// The examples whose sources are scanned in both ways: specification and source.
const EXAMPLES: [(&str, &str); 7] = [
    ("examples/01-tokens/SPEC", "examples/01-tokens/SOURCE"),
    ("examples/02-states/SPEC", "examples/02-states/SOURCE"),
    ("examples/03-contexts/SPEC", "examples/03-contexts/SOURCE"),
    ("examples/04-ll/SPEC", "examples/04-ll/SOURCE"),
    ("examples/05-lalr/SPEC", "examples/05-lalr/SOURCE"),
    ("examples/06-json/SPEC", "examples/06-json/SOURCE"),
    ("examples/07-trees/SPEC", "examples/07-trees/SOURCE"),
];

/// Tries that the plain scanner and the one by tables answer the same, at each place of each example
/// and in each start state.
pub(crate) fn try_scanners(rt: &HostRuntime) -> Result<()> {
    for (spec, source) in EXAMPLES {
        let rules = fs::read(rt, spec)?;
        let text = fs::read(rt, source)?;
        if !agree_on(rt.alloc(), rules.as_slice(), text.as_slice()) {
            bail!("the scanners differ on {source}");
        }
    }
    Ok(())
}

/// Whether both scanners of the specification answer the same on the text.
fn agree_on(alloc: Global, spec: &[u8], text: &[u8]) -> bool {
    if spec.len() > SPEC_LIMIT {
        return false;
    }
    let arena = Bump::new(alloc);
    let Ok(all) = sections(alloc, spec) else {
        return false;
    };
    let Ok(rules) = read_rex(alloc, &arena, spec, &all) else {
        return false;
    };
    let Ok(tables) = build(alloc, &rules) else {
        return false;
    };
    agree_in_all(alloc, &rules, &tables, text)
}

/// Whether they do in each start state.
fn agree_in_all(alloc: Global, rules: &ScanRules<'_>, tables: &ScanTables, text: &[u8]) -> bool
    requires few { length rules.now.rules.items < 2 ^ 32 }
    requires well_formed { IsWellFormed (tables_of tables.now) }
    requires gives { (list : List Rule) × GivesWinners (tables_of tables.now) list }
    requires starts { length tables.now.starts.items ≡ length rules.now.states }
{
    for state in 0..rules.states.len() {
        if !agree_in(alloc, rules, tables, text, state) {
            return false;
        }
    }
    true
}

/// Whether they do at each place, also at the end.
fn agree_in(
    alloc: Global,
    rules: &ScanRules<'_>,
    tables: &ScanTables,
    text: &[u8],
    state: u32,
) -> bool
    requires few { length rules.now.rules.items < 2 ^ 32 }
    requires well_formed { IsWellFormed (tables_of tables.now) }
    requires gives { (list : List Rule) × GivesWinners (tables_of tables.now) list }
    requires state { state < length tables.now.starts.items }
{
    for at in 0..text.len() {
        let by_tables = next(tables, text, state, at);
        if scan_sets(alloc, rules, text, state, at) != Ok(by_tables) {
            return false;
        }
    }
    scan_sets(alloc, rules, text, state, text.len()) == Ok(next(tables, text, state, text.len()))
}

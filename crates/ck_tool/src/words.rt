// The words of a command line, and whether they are right.
ghost use Rattle.std.specs.Prelude.{◌↔◌, IsTrue, MatchOption, map, string_bytes};
ghost use Rattle.ck_tool.specs.Words.{IsFileName, AreRight};
ghost use Rattle.ck_tool.specs.within.Stops.{IsAsked};

use crate::stage::stage_of;
use ck_chain::Stage;

/// What right words ask for: a stage, of the source by the specification. Both are names of files.
#[derive(Clone, Copy)]
pub(crate) struct Command<'w> {
    pub(crate) stage: Stage,
    pub(crate) spec: &'w str,
    pub(crate) source: &'w str,
}

/// The command of these words, where they are right.
pub(crate) fn command_of(words: &Vec<String>) -> Option<Command>
    ensures { let texts = map string_bytes words.now.items in
        MatchOption result (AreRight texts → ⊥) (IsAsked texts) }
{
    let [command, spec, source] = words.as_slice() else {
        return None;
    };
    let stage = stage_of(command.as_str())?;
    let spec = spec.as_str();
    let source = source.as_str();
    if is_file_name(spec) && is_file_name(source) {
        Some(Command {
            stage,
            spec,
            source,
        })
    } else {
        None
    }
}

/// Whether a word may name a file.
fn is_file_name(word: &str) -> bool
    ensures { IsTrue result ↔ IsFileName word.now }
{
    match word.as_bytes() {
        [] | [b'-', ..] => false,
        _ => true,
    }
}

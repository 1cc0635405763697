// Which stage a command's word names.
ghost use Rattle.std.specs.Prelude.{◌≡◌};
ghost use Rattle.ck_base.specs.Found.{Finds};
ghost use Rattle.ck_tool.specs.Words.{name_of};

use ck_chain::Stage;

/// The stage that the command asks for.
pub(crate) fn stage_of(command: &str) -> Option<Stage>
    ensures { Finds (λ stage. stage) (λ stage. name_of stage ≡ command.now) result }
{
    match command {
        "tokens" => Some(Stage::Tokens),
        "derive" => Some(Stage::Derive),
        "tree" => Some(Stage::Tree),
        _ => None,
    }
}

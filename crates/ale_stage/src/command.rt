//! Commands that are built.
ghost use Rattle.std.specs.Prelude.{◌≡◌};
ghost use Rattle.ale_command.specs.Commands.{command_data};
ghost use Rattle.ale_stage.specs.Stages.{command_is_built};

use crate::goal::goal_is_built;
use crate::stage::since;
use crate::term::is_built;
use ale_command::CommandTerm;

/// Whether the command is of a form, and made of forms, that are built.
pub fn command_is_built(command: &CommandTerm) -> bool
    ensures { result ≡ command_is_built (command_data command.now) }
{
    match command {
        CommandTerm::Mgsat(term) => is_built(term) && since(2),
        CommandTerm::Query(goal) => goal_is_built(goal) && since(5),
        CommandTerm::Lex(_) => since(8),
        CommandTerm::Rec(_) => since(9),
        CommandTerm::Gen(term) => is_built(term) && since(10),
        CommandTerm::Code(_, _) => since(12),
    }
}

// What lines may do to a store.
ghost use Rattle.std.specs.Prelude.{◌≡◌};
ghost use Rattle.gs_shell_grammar.specs.Grammar.{request_of};
ghost use Rattle.gs_keep_desk.specs.Looks.{harms, looks};

use gs_shell_grammar::{Command, Upgrade};

/// Whether a line only looks: what it asks for changes nothing that a store keeps.
pub fn only_looks(command: &Command<'_>) -> bool
    ensures { result ≡ looks (request_of command.now) }
{
    match command {
        Command::Ls(_)
        | Command::Stat(_)
        | Command::Read { .. }
        | Command::Digest { .. }
        | Command::Upgrade(Upgrade::Query) => true,
        _ => false,
    }
}

/// Whether a line is one that harms a store, as a trial does: it takes replicas away, damages them, keeps messages back, or has a node begin again.
pub fn harms(command: &Command<'_>) -> bool
    ensures { result ≡ harms (request_of command.now) }
{
    match command {
        Command::Lose { .. }
        | Command::Damage { .. }
        | Command::Hold(_)
        | Command::Deliver(_)
        | Command::Restart(_) => true,
        _ => false,
    }
}

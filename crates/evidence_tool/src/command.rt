// The commands, and the words that name them.
ghost use Rattle.std.specs.Prelude.{IfSome, IfNone};
ghost use Rattle.civil_moment.specs.declared.moment.Moment.{Moment};
ghost use Rattle.evidence_tool.specs.declared.command.Command.{Command};
ghost use Rattle.evidence_tool.specs.Command.{Names, IsTrial};

use crate::words::{is_alone, trial_ends};
use civil_moment::Moment;

/// What the program is asked to do.
#[derive(Clone, Copy, Debug, PartialEq, Eq)]
pub enum Command {
    /// To make an empty journal.
    Create,
    /// To answer requests.
    Serve,
    /// To judge a record.
    Verify,
    /// To write the policy that names the trial authority.
    Trial { hash_end: Moment, key_end: Moment },
}

/// The command that the words name, None where they name none.
pub fn command_of(words: &[String]) -> Option<Command>
    ensures found { IfSome result (λ c. Names words.now c) }
    ensures none { IfNone result ((c : Command) → ¬ Names words.now c) }
{
    if is_alone(words, "create") {
        Some(Command::Create)
    } else if is_alone(words, "serve") {
        Some(Command::Serve)
    } else if is_alone(words, "verify") {
        Some(Command::Verify)
    } else {
        trial_of(words)
    }
}

// The command `trial`, where the words name it.
fn trial_of(words: &[String]) -> Option<Command>
    ensures found { IfSome result (λ c. Names words.now c) }
    ensures none { IfNone result ((hash_end key_end : Moment) → ¬ IsTrial words.now hash_end key_end) }
{
    let (hash_end, key_end) = trial_ends(words)?;
    Some(Command::Trial { hash_end, key_end })
}

// The top call: the words choose the command, and the command answers the status (src/status.rt).
ghost use Rattle.std.specs.Prelude.{◌≡◌, ◌≢◌};
ghost use Rattle.civil_moment.specs.declared.moment.Moment.{Moment};
ghost use Rattle.evidence_tool.specs.declared.command.Command.{Command};
ghost use Rattle.evidence_tool.specs.declared.command.Command.TheVariants.{Create, Serve, Verify, Trial};
ghost use Rattle.evidence_tool.specs.Command.{Names};
ghost use Rattle.evidence_tool.specs.Run.{devices, run_of, NoneFell};
ghost use Rattle.evidence_tool.specs.Top.{Creates, Serves, Judges, WritesTrial, DoesNothing};

use crate::command::{Command, command_of};
use crate::creating::create;
use crate::serving::serve_input;
use crate::status::Status;
use crate::trial::write_trial;
use crate::verifying::verify_input;
use crate::words::trial_ends;
use ev_world::{Authority, Disk, Pace, Sink, Source};
use std::alloc::Global;
use std::sync::Wait;
use std::thread::Threads;

/// How a run has ended, the disk of the journal, and the authority.
#[derive(Drop)]
pub struct Ended<J, A> {
    pub status: u8,
    pub journal: J,
    pub authority: A,
}

/// Runs the command that the words name.
pub fn run<
    R: Threads + Wait + Sync,
    S: Source,
    K: Sink,
    J: Disk + Send,
    A: Authority + Send,
    P: Pace + Sync,
>(
    rt: &R,
    alloc: Global,
    words: &[String],
    input: &mut S,
    output: &mut K,
    journal: J,
    authority: A,
    pace: &P,
) -> Ended<J, A>
    ensures create { Names words.now Create → Creates
        (devices S.left S.faults K.taken K.faults J.tells J.reads J.images J.clock J.since J.faults)
        (run_of input.old input.new output.old output.new journal authority result) }
    ensures serve { Names words.now Serve → Serves
        (devices S.left S.faults K.taken K.faults J.tells J.reads J.images J.clock J.since J.faults)
        (run_of input.old input.new output.old output.new journal authority result) }
    ensures verify { Names words.now Verify → Judges
        (devices S.left S.faults K.taken K.faults J.tells J.reads J.images J.clock J.since J.faults)
        (run_of input.old input.new output.old output.new journal authority result) }
    ensures trial { (hash_end key_end : Moment) → Names words.now (Trial hash_end key_end)
        → WritesTrial hash_end key_end
        (devices S.left S.faults K.taken K.faults J.tells J.reads J.images J.clock J.since J.faults)
        (run_of input.old input.new output.old output.new journal authority result) }

    // Status 2 comes exactly where the words name none of these, and then nothing is done.
    ensures none { ((c : Command) → ¬ Names words.now c) → DoesNothing
        (run_of input.old input.new output.old output.new journal authority result) }
    ensures named { result.status ≡ 2 → (c : Command) → ¬ Names words.now c }

    ensures later { NoneFell
        (devices S.left S.faults K.taken K.faults J.tells J.reads J.images J.clock J.since J.faults)
        (run_of input.old input.new output.old output.new journal authority result) }
{
    match command_of(words) {
        Some(Command::Create) => {
            run_create(rt, alloc, words, input, output, journal, authority, pace)
        }
        Some(Command::Serve) => run_serve(
            rt, alloc, words, input, output, journal, authority, pace,
        ),
        Some(Command::Verify) => {
            run_verify(rt, alloc, words, input, output, journal, authority, pace)
        }
        Some(Command::Trial { .. }) => {
            run_trial(rt, alloc, words, input, output, journal, authority, pace)
        }
        None => nothing(journal, authority),
    }
}

// What is done where the words name no command.
fn nothing<J, A>(journal: J, authority: A) -> Ended<J, A>
    ensures { result ≡ record { status = 2; journal = journal; authority = authority } }
{
    Ended {
        status: Status::BadWords.code(),
        journal,
        authority,
    }
}

/// Makes an empty journal.
pub fn run_create<
    R: Threads + Sync,
    S: Source,
    K: Sink,
    J: Disk + Send,
    A: Authority + Send,
    P: Pace + Sync,
>(
    _rt: &R,
    _alloc: Global,
    _words: &[String],
    _input: &mut S,
    _output: &mut K,
    journal: J,
    authority: A,
    _pace: &P,
) -> Ended<J, A>
    ensures create { Creates
        (devices S.left S.faults K.taken K.faults J.tells J.reads J.images J.clock J.since J.faults)
        (run_of _input.old _input.new _output.old _output.new journal authority result) }
    ensures later { NoneFell
        (devices S.left S.faults K.taken K.faults J.tells J.reads J.images J.clock J.since J.faults)
        (run_of _input.old _input.new _output.old _output.new journal authority result) }
{
    let (status, journal) = create(journal);
    Ended {
        status: status.code(),
        journal,
        authority,
    }
}

/// Reads requests to the end of the input, then answers them one by one.
pub fn run_serve<
    R: Threads + Sync,
    S: Source,
    K: Sink,
    J: Disk + Send,
    A: Authority + Send,
    P: Pace + Sync,
>(
    _rt: &R,
    alloc: Global,
    _words: &[String],
    input: &mut S,
    output: &mut K,
    journal: J,
    authority: A,
    _pace: &P,
) -> Ended<J, A>
    ensures serve { Serves
        (devices S.left S.faults K.taken K.faults J.tells J.reads J.images J.clock J.since J.faults)
        (run_of input.old input.new output.old output.new journal authority result) }
    ensures later { NoneFell
        (devices S.left S.faults K.taken K.faults J.tells J.reads J.images J.clock J.since J.faults)
        (run_of input.old input.new output.old output.new journal authority result) }
{
    let (status, journal) = serve_input(alloc, input, output, journal);
    Ended {
        status: status.code(),
        journal,
        authority,
    }
}

/// Reads a verification to the end of the input, and writes the line of the verdict on its record.
pub fn run_verify<
    R: Threads + Sync,
    S: Source,
    K: Sink,
    J: Disk + Send,
    A: Authority + Send,
    P: Pace + Sync,
>(
    _rt: &R,
    alloc: Global,
    _words: &[String],
    input: &mut S,
    output: &mut K,
    journal: J,
    authority: A,
    _pace: &P,
) -> Ended<J, A>
    ensures verify { Judges
        (devices S.left S.faults K.taken K.faults J.tells J.reads J.images J.clock J.since J.faults)
        (run_of input.old input.new output.old output.new journal authority result) }
    ensures words { result.status ≢ 2 }
    ensures later { NoneFell
        (devices S.left S.faults K.taken K.faults J.tells J.reads J.images J.clock J.since J.faults)
        (run_of input.old input.new output.old output.new journal authority result) }
{
    let status = verify_input(alloc, input, output);
    Ended {
        status: status.code(),
        journal,
        authority,
    }
}

/// Writes the policy that names the trial authority. The words are `trial`, the end of the hash algorithms and that of its
/// key; where they are others, nothing is done, with status 2.
pub fn run_trial<
    R: Threads + Sync,
    S: Source,
    K: Sink,
    J: Disk + Send,
    A: Authority + Send,
    P: Pace + Sync,
>(
    _rt: &R,
    alloc: Global,
    words: &[String],
    _input: &mut S,
    output: &mut K,
    journal: J,
    authority: A,
    _pace: &P,
) -> Ended<J, A>
    ensures trial { (hash_end key_end : Moment) → Names words.now (Trial hash_end key_end)
        → WritesTrial hash_end key_end
        (devices S.left S.faults K.taken K.faults J.tells J.reads J.images J.clock J.since J.faults)
        (run_of _input.old _input.new output.old output.new journal authority result) }
    ensures none { ((hash_end key_end : Moment) → ¬ Names words.now (Trial hash_end key_end)) → DoesNothing
        (run_of _input.old _input.new output.old output.new journal authority result) }
    ensures named { result.status ≡ 2
        → (hash_end key_end : Moment) → ¬ Names words.now (Trial hash_end key_end) }
    ensures later { NoneFell
        (devices S.left S.faults K.taken K.faults J.tells J.reads J.images J.clock J.since J.faults)
        (run_of _input.old _input.new output.old output.new journal authority result) }
{
    let Some((hash_end, key_end)) = trial_ends(words) else {
        return nothing(journal, authority);
    };
    let status = write_trial(alloc, hash_end, key_end, output);
    Ended {
        status: status.code(),
        journal,
        authority,
    }
}

ghost use Rattle.std.specs.Prelude.{◌<◌, IfSome};

/// What is repeated.
#[derive(Clone, Copy, Debug, Drop)]
pub enum Work {
    /// SHA-256 of one block.
    Blocks,
    /// SHA-256 of 64 bytes.
    Digests,
    /// The check of a signature.
    Check,
    /// A signature, each by the next index.
    Sign,
    /// A stamp of the trial authority, each by the next index.
    Stamp,
    /// The leaves of a hash tree.
    Leaves,
    /// A tree over leaves, and each of its paths.
    Tree,
    /// The check of the signature of a record's first token.
    Token,
    /// The verification of a record.
    Verify,
}

impl Work {
    /// Whether it is done on the standard input.
    pub fn reads_input(self) -> bool {
        matches!(self, Work::Token | Work::Verify)
    }
}

/// What is repeated, how often, and how often all of that.
#[derive(Clone, Copy, Debug, Drop)]
pub struct Command {
    pub work: Work,
    pub count: u32,
    pub times: u32,
}

fn read_work(word: &str) -> Option<Work> {
    match word {
        "blocks" => Some(Work::Blocks),
        "digests" => Some(Work::Digests),
        "check" => Some(Work::Check),
        "sign" => Some(Work::Sign),
        "stamp" => Some(Work::Stamp),
        "leaves" => Some(Work::Leaves),
        "tree" => Some(Work::Tree),
        "token" => Some(Work::Token),
        "verify" => Some(Work::Verify),
        _ => None,
    }
}

// A third word, or once where there is none.
fn read_times(words: &[String]) -> Option<u32> {
    if words.len() == 3 {
        words[2].as_str().parse::<u32>().ok()
    } else {
        Some(1)
    }
}

/// The command that two or three words spell, of at least one repeat.
pub fn read_command(words: &[String]) -> Option<Command>
    ensures { IfSome result (λ command. 0 < command.count) }
{
    if words.len() != 2 && words.len() != 3 {
        return None;
    }
    let work = read_work(words[0].as_str())?;
    let count = words[1].as_str().parse::<u32>().ok()?;
    let times = read_times(words)?;
    if count == 0 {
        return None;
    }
    Some(Command { work, count, times })
}

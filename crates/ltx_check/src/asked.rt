//! What a line asks, as far as it tells which replies the line may have.

ghost use Rattle.std.specs.Prelude.{◌≡◌};
ghost use Rattle.ltx_check.specs.Opens.{asked_by, asked_by_verb, gives};

use ltx_model::commands::{Command, Line, Op, Verb};
use ltx_model::replies::Reply;

/// What a line asks.
#[derive(Clone, Copy, Debug, PartialEq, Eq)]
pub enum Asked {
    Short,
    Long,
    Get,
    Scan,
    Write,
    Commit,
    Abort,
    /// No verb of a session: `epoch`, `flush`, `prune`, or a malformed line.
    Control,
}

fn asked_by_verb(verb: &Verb) -> Asked
    ensures { result ≡ asked_by_verb verb.now }
{
    match verb {
        Verb::Short => Asked::Short,
        Verb::Long { .. } => Asked::Long,
        Verb::Do(Op::Get { .. }) => Asked::Get,
        Verb::Do(Op::Scan { .. }) => Asked::Scan,
        Verb::Do(Op::Put { .. }) => Asked::Write,
        Verb::Do(Op::Del { .. }) => Asked::Write,
        Verb::Commit => Asked::Commit,
        Verb::Abort => Asked::Abort,
    }
}

/// What a line asks.
pub(crate) fn asked_by(line: &Line) -> Asked
    ensures { result ≡ asked_by line.now }
{
    match line {
        Line::Good(Command::Ask(_, verb)) => asked_by_verb(verb),
        _ => Asked::Control,
    }
}

/// Whether a reply that begins, answers or ends a transaction comes to such a line. Any other reply comes to every line.
pub(crate) fn gives(asked: Asked, reply: &Reply) -> bool
    ensures { result ≡ gives asked reply.now }
{
    match reply {
        Reply::Begun { .. } => asked == Asked::Short,
        Reply::BegunAt { .. } => asked == Asked::Long,
        Reply::Found { .. } | Reply::Absent => asked == Asked::Get,
        Reply::Rows { .. } => asked == Asked::Scan,
        Reply::Done => asked == Asked::Write,
        Reply::Committed { .. }
        | Reply::CommittedBefore { .. }
        | Reply::Changed { .. }
        | Reply::Late { .. }
        | Reply::Contradicts { .. } => asked == Asked::Commit,
        Reply::Aborted => asked == Asked::Abort,
        Reply::Preserved { .. } => {
            asked == Asked::Get
                || asked == Asked::Scan
                || asked == Asked::Write
                || asked == Asked::Commit
        }
        _ => true,
    }
}

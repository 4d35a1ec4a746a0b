//! The commit of a session's open transaction, by what it is.

ghost use Rattle.std.specs.Prelude.{IfOk, OnErr};
ghost use Rattle.ltx_model.specs.declared.commands.Command.TheVariants.{Ask};
ghost use Rattle.ltx_model.specs.declared.commands.Verb.TheVariants as verbs;
ghost use Rattle.ltx_core.specs.Same.{IsSame};
ghost use Rattle.ltx_core.specs.Steps.{IsAnswered};

use crate::state::Core;
use ltx_model::memory::NoMemory;
use ltx_model::numbers::Session;
use ltx_model::replies::Reply;
use ltx_open::stage::Stage;

impl Core {
    /// The session's open transaction commits or is refused. A pending batch is told from which
    /// epoch on it is live.
    pub(crate) fn commit(&mut self, session: Session) -> Result<Reply, NoMemory>
        ensures ok { IfOk result (λ reply. IsAnswered self.old (Ask session verbs.Commit) reply self.new) }
        ensures err { OnErr result (IsSame self.old self.new) }
    {
        match self.opens.stage(session) {
            None => Ok(Reply::NoTx),
            Some(Stage::Short) => self.commit_short(session),
            Some(Stage::Pending(declared)) => Ok(Reply::NotYet {
                epoch: declared.from,
            }),
            Some(Stage::Live(declared, mark)) => self.commit_batch(session, declared, mark),
        }
    }
}

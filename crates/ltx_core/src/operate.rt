//! An operation of a session's open transaction, by what it is.

ghost use Rattle.std.specs.Prelude.{◌≡◌, Some, None, IfOk, OnErr, option_map};
ghost use Rattle.ltx_model.specs.declared.commands.Command.TheVariants.{Ask};
ghost use Rattle.ltx_model.specs.declared.commands.Verb.TheVariants.{Do};
ghost use Rattle.ltx_model.specs.Answers.{refusal};
ghost use Rattle.ltx_open.specs.declared.stage.Stage.TheVariants as stages;
ghost use Rattle.ltx_open.specs.Views.{declaration};
ghost use Rattle.ltx_open.specs.Slots.{opened};
ghost use Rattle.ltx_core.specs.Same.{IsSame};
ghost use Rattle.ltx_core.specs.Steps.{IsAnswered};

use crate::state::Core;
use ltx_model::commands::Op;
use ltx_model::memory::NoMemory;
use ltx_model::numbers::Session;
use ltx_model::replies::Reply;
use ltx_open::stage::{Declared, Stage, table_of};

impl Core {
    /// An operation of the session's open transaction. A pending batch is told from which epoch on
    /// it is live.
    pub(crate) fn operate(&mut self, session: Session, op: &Op) -> Result<Reply, NoMemory>
        ensures ok { IfOk result (λ reply. IsAnswered self.old (Ask session (Do op.now)) reply self.new) }
        ensures err { OnErr result (IsSame self.old self.new) }
    {
        match self.opens.stage(session) {
            None => Ok(Reply::NoTx),
            Some(Stage::Short) => self.operate_short(session, op),
            Some(Stage::Pending(declared)) => Ok(Reply::NotYet {
                epoch: declared.from,
            }),
            Some(Stage::Live(declared, mark)) => self.operate_batch(session, declared, mark, op),
        }
    }

    /// An operation of a short: on the latest rows, or the end of the short where its table is held.
    fn operate_short(&mut self, session: Session, op: &Op) -> Result<Reply, NoMemory>
        requires short { option_map (λ a. a.stage) (opened self.old.opens session) ≡ Some stages.Short }
        ensures ok { IfOk result (λ reply. IsAnswered self.old (Ask session (Do op.now)) reply self.new) }
        ensures err { OnErr result (IsSame self.old self.new) }
    {
        let table = table_of(op);
        match self.preserve.holder(table) {
            Some(holder) => {
                let _ = self.opens.take(session);
                Ok(Reply::Preserved { table, holder })
            }
            None => self
                .opens
                .operate(session, self.alloc, &self.store, self.commits, op),
        }
    }

    /// An operation of a live batch inside of what it declared, on the rows at its mark.
    fn operate_batch(
        &mut self,
        session: Session,
        declared: Declared,
        mark: u64,
        op: &Op,
    ) -> Result<Reply, NoMemory>
        requires live { option_map (λ a. a.stage) (opened self.old.opens session) ≡ Some (stages.Live declared mark) }
        ensures ok { IfOk result (λ reply. IsAnswered self.old (Ask session (Do op.now)) reply self.new) }
        ensures err { OnErr result (IsSame self.old self.new) }
    {
        match declared.refusal(op) {
            Some(reply) => Ok(reply),
            None => self
                .opens
                .operate(session, self.alloc, &self.store, mark, op),
        }
    }
}

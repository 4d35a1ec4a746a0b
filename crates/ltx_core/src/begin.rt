//! The begin of a short, and of a batch.

ghost use Rattle.std.specs.Prelude.{IfOk, OnErr};
ghost use Rattle.ltx_model.specs.declared.commands.Command.TheVariants.{Ask};
ghost use Rattle.ltx_model.specs.declared.commands.Verb.TheVariants as verbs;
ghost use Rattle.ltx_core.specs.Same.{IsSame};
ghost use Rattle.ltx_core.specs.Steps.{IsAnswered};

use crate::state::{Core, LAST_EPOCH};
use ltx_forward::decide::Live;
use ltx_model::memory::NoMemory;
use ltx_model::numbers::{Session, Tx};
use ltx_model::replies::Reply;
use ltx_model::tables::TableSet;
use ltx_open::open::Open;
use ltx_open::stage::Declared;

impl Core {
    /// A short begins, where the session has no open transaction and there is a number left.
    pub(crate) fn begin(&mut self, session: Session) -> Result<Reply, NoMemory>
        ensures ok { IfOk result (λ reply. IsAnswered self.old (Ask session verbs.Short) reply self.new) }
        ensures err { OnErr result (IsSame self.old self.new) }
    {
        if self.opens.has(session) {
            return Ok(Reply::HasTx);
        }
        match Tx::new(self.last + 1) {
            None => Ok(Reply::LimitTx),
            Some(tx) => {
                self.opens.reserve(session)?;
                self.opens.put(session, Open::short(self.alloc, tx));
                self.last += 1;
                Ok(Reply::Begun { tx })
            }
        }
    }

    /// A batch begins, where the session has no open transaction, there is a next epoch, in which it
    /// becomes live, and there is a number left. The room for its slot, and to keep it for the log, is
    /// taken now, since the next epoch takes no memory.
    pub(crate) fn begin_batch(
        &mut self,
        session: Session,
        writes: TableSet,
        reads: TableSet,
    ) -> Result<Reply, NoMemory>
        ensures ok { IfOk result (λ reply. IsAnswered self.old (Ask session (verbs.Long writes reads)) reply self.new) }
        ensures err { OnErr result (IsSame self.old self.new) }
    {
        if self.opens.has(session) {
            return Ok(Reply::HasTx);
        }
        if self.epoch == LAST_EPOCH {
            return Ok(Reply::LimitEpoch);
        }
        match Tx::new(self.last + 1) {
            None => Ok(Reply::LimitTx),
            Some(tx) => {
                let epoch = self.epoch + 1;
                let declared = Declared {
                    writes,
                    reads,
                    from: epoch,
                };
                let slots = self.preserve.len() + 1;
                self.agenda.reserve(slots)?;
                self.events.reserve(slots)?;
                self.opens.reserve(session)?;
                self.areas.reserve(1)?;
                self.preserve.add(tx, writes)?;
                self.areas.push_reserved(Live { tx, writes, reads });
                self.opens
                    .put(session, Open::batch(self.alloc, tx, declared));
                self.last += 1;
                Ok(Reply::BegunAt { tx, epoch })
            }
        }
    }
}

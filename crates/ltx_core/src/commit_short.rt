//! The commit of a short: it is refused by a held table or by its first look-up that has changed, or its writes are installed.

ghost use Rattle.std.specs.Prelude.{◌≡◌, IfOk, OnErr, Some, option_map};
ghost use Rattle.ltx_model.specs.declared.commands.Command.TheVariants.{Ask};
ghost use Rattle.ltx_model.specs.declared.commands.Verb.TheVariants as verbs;
ghost use Rattle.ltx_open.specs.declared.stage.Stage.TheVariants as stages;
ghost use Rattle.ltx_open.specs.Views.{OpenView};
ghost use Rattle.ltx_open.specs.Slots.{opened};
ghost use Rattle.ltx_core.specs.Same.{IsSame};
ghost use Rattle.ltx_core.specs.Commits.{MayCommit};
ghost use Rattle.ltx_core.specs.Steps.{IsAnswered};

use crate::install::install;
use crate::record::record_short;
use crate::state::Core;
use ltx_model::copies::copies_of;
use ltx_model::memory::NoMemory;
use ltx_model::numbers::Session;
use ltx_model::replies::Reply;
use ltx_model::writes::WriteList;
use ltx_validate::check::Verdict;

impl Core {
    /// The session's short commits, or is refused by the least table that it touched and that is held,
    /// or by its first look-up that has changed.
    pub(crate) fn commit_short(&mut self, session: Session) -> Result<Reply, NoMemory>
        requires short { option_map (λ a. a.stage) (opened self.old.opens session) ≡ Some stages.Short }
        ensures ok { IfOk result (λ reply. IsAnswered self.old (Ask session verbs.Commit) reply self.new) }
        ensures err { OnErr result (IsSame self.old self.new) }
    {
        let Some(open) = self.opens.get(session) else {
            return Ok(Reply::NoTx);
        };
        match open.verdict(&self.store, &self.preserve)? {
            Verdict::Pass => self.accept(session),
            Verdict::Preserved { table, holder } => {
                let _ = self.opens.take(session);
                Ok(Reply::Preserved { table, holder })
            }
            Verdict::Changed {
                op,
                table,
                key,
                found,
                current,
            } => {
                let _ = self.opens.take(session);
                Ok(Reply::Changed {
                    op,
                    table,
                    key,
                    found,
                    current,
                })
            }
        }
    }

    /// Commits the session's short, and keeps its commit for the log. All memory is taken before the
    /// first change.
    fn accept(&mut self, session: Session) -> Result<Reply, NoMemory>
        requires passes { (a : OpenView) → opened self.old.opens session ≡ Some a → MayCommit self.old a }
        ensures ok { IfOk result (λ reply. IsAnswered self.old (Ask session verbs.Commit) reply self.new) }
        ensures err { OnErr result (IsSame self.old self.new) }
    {
        let Some(open) = self.opens.get(session) else {
            return Ok(Reply::NoTx);
        };
        let writes = copies_of(self.alloc, open.writes())?;
        let slots = self.preserve.len() + 1;
        self.store.reserve(self.alloc, open.writes())?;
        self.agenda.reserve(slots)?;
        self.events.reserve(slots)?;
        record_short(&mut self.records, open, &self.preserve)?;
        let Some(open) = self.opens.take(session) else {
            return Ok(Reply::NoTx);
        };
        let tx = open.number();
        self.agenda.append(tx);
        self.commits += 1;
        install(&mut self.store, tx, self.commits, writes);
        let own = WriteList::from_vec(open.into_writes());
        self.events.short(tx, self.epoch, own);
        Ok(Reply::Committed { epoch: self.epoch })
    }
}

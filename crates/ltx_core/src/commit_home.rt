//! The commit of a live batch that overtakes nobody, without a question.

ghost use Rattle.std.specs.Prelude.{◌≡◌, IfOk, OnErr};
ghost use Rattle.ltx_model.specs.declared.commands.Command.TheVariants.{Ask};
ghost use Rattle.ltx_model.specs.declared.commands.Verb.TheVariants as verbs;
ghost use Rattle.ltx_core.specs.Decided.{IsAhead};
ghost use Rattle.ltx_core.specs.Same.{IsSame};
ghost use Rattle.ltx_core.specs.Steps.{IsAnswered};

use crate::areas::drop_area;
use crate::install::install;
use crate::record::record_batch;
use crate::state::Core;
use ltx_agenda::agenda::Agenda;
use ltx_model::copies::copies_of;
use ltx_model::memory::NoMemory;
use ltx_model::numbers::Session;
use ltx_model::replies::Reply;
use ltx_model::writes::{Target, WriteList};
use ltx_preserve::preserve::Preserve;

impl Core {
    /// The session's live batch, which overtakes nobody, commits where its slot stands, and its commit
    /// is kept for the log. All memory is taken before the first change.
    pub(crate) fn commit_home(&mut self, session: Session) -> Result<Reply, NoMemory>
        requires ahead { IsAhead self.old session }
        ensures ok { IfOk result (λ reply. IsAnswered self.old (Ask session verbs.Commit) reply self.new) }
        ensures err { OnErr result (IsSame self.old self.new) }
    {
        let Some(open) = self.opens.get(session) else {
            return Ok(Reply::NoTx);
        };
        let tx = open.number();
        let writes = copies_of(self.alloc, open.writes())?;
        let slots = self.preserve.len() + 1;
        self.store.reserve(self.alloc, open.writes())?;
        self.events.reserve(slots)?;
        record_batch(&mut self.records, open, &self.preserve)?;
        let Some(open) = self.opens.take(session) else {
            return Ok(Reply::NoTx);
        };
        self.commits += 1;
        self.batch = self.commits;
        self.preserve.remove(tx);
        drop_area(&mut self.areas, tx);
        settle_at_rest(&mut self.agenda, &self.preserve);
        install(&mut self.store, tx, self.commits, writes);
        let own = WriteList::from_vec(open.into_writes());
        self.events.batch(tx, self.epoch, Target::Home, own);
        Ok(Reply::Committed { epoch: self.epoch })
    }
}

/// Settles the agenda where no batch is live any more.
pub(crate) fn settle_at_rest(agenda: &mut Agenda, preserve: &Preserve)
    ensures list { agenda.new.list ≡ agenda.old.list }
    ensures room { agenda.new.room ≡ agenda.old.room }
{
    if !preserve.is_any_live() {
        agenda.settle();
    }
}

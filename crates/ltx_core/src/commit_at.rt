//! The commit of a live batch at the place that is decided: in its slot, or before a target.

ghost use Rattle.std.specs.Prelude.{◌≡◌, ℕ, true, IfOk, OnOk, OnErr};
ghost use Rattle.ltx_model.specs.declared.commands.Command.TheVariants.{Ask};
ghost use Rattle.ltx_model.specs.declared.commands.Verb.TheVariants as verbs;
ghost use Rattle.ltx_model.specs.declared.writes.Target.TheVariants as targets;
ghost use Rattle.ltx_model.specs.Decisions.{CommitAt};
ghost use Rattle.ltx_model.specs.Listings.{is_member};
ghost use Rattle.ltx_agenda.specs.Placed.{HasRoomBefore};
ghost use Rattle.ltx_core.specs.Decided.{HasLive, IsDecided, CanMove, list_at, reply_at};
ghost use Rattle.ltx_core.specs.Same.{IsSame};
ghost use Rattle.ltx_core.specs.Steps.{IsAnswered};

use crate::areas::drop_area;
use crate::commit_home::settle_at_rest;
use crate::install::install_unless_later;
use crate::record::record_batch;
use crate::state::Core;
use ltx_agenda::agenda::Agenda;
use ltx_model::copies::copies_of;
use ltx_model::memory::NoMemory;
use ltx_model::numbers::{Session, Tx};
use ltx_model::replies::Reply;
use ltx_model::writes::{Target, WriteList};

impl Core {
    /// The session's live batch commits at the place that is decided. A write of a key whose last
    /// version was written by a later member is not installed, but is kept for the log with the others.
    /// All memory is taken before the first change.
    pub(crate) fn commit_at(&mut self, session: Session, place: Target) -> Result<Reply, NoMemory>
        requires live { HasLive self.old session }
        requires decided { IsDecided self.old session (CommitAt place) }
        ensures ok { IfOk result (λ reply. IsAnswered self.old (Ask session verbs.Commit) reply self.new) }
        ensures err { OnErr result (IsSame self.old self.new) }
    {
        let Some(open) = self.opens.get(session) else {
            return Ok(Reply::NoTx);
        };
        let tx = open.number();
        let writes = copies_of(self.alloc, open.writes())?;
        let slots = self.preserve.len() + 1;
        self.store.reserve(self.alloc, open.writes())?;
        reserve_place(&mut self.agenda, &place)?;
        self.events.reserve(slots)?;
        record_batch(&mut self.records, open, &self.preserve)?;
        let Some(open) = self.opens.take(session) else {
            return Ok(Reply::NoTx);
        };
        self.commits += 1;
        self.batch = self.commits;
        self.preserve.remove(tx);
        drop_area(&mut self.areas, tx);
        move_to(&mut self.agenda, tx, &place);
        install_unless_later(&mut self.store, &self.agenda, tx, self.commits, writes);
        settle_at_rest(&mut self.agenda, &self.preserve);
        let own = WriteList::from_vec(open.into_writes());
        self.events.batch(tx, self.epoch, place, own);
        Ok(reply_at(self.epoch, &place))
    }
}

/// Makes room for one member at the place.
fn reserve_place(agenda: &mut Agenda, place: &Target) -> Result<(), NoMemory>
    requires member { (p : ℕ) → place.now ≡ targets.Before p → is_member agenda.old.list p ≡ true }
    ensures list { agenda.new.list ≡ agenda.old.list }
    ensures room { agenda.new.room ≡ agenda.old.room }
    ensures made { OnOk result ((p : ℕ) → place.now ≡ targets.Before p → HasRoomBefore agenda.new.runs p) }
{
    match place {
        Target::Home => Ok(()),
        Target::Before(target) => agenda.reserve_before(*target),
    }
}

/// Moves the member to its place.
fn move_to(agenda: &mut Agenda, tx: Tx, place: &Target)
    requires moves { (p : ℕ) → place.now ≡ targets.Before p → CanMove agenda.old tx p }
    ensures list { agenda.new.list ≡ list_at place.now tx agenda.old.list }
    ensures room { agenda.new.room ≡ agenda.old.room }
{
    match place {
        Target::Home => {}
        Target::Before(target) => agenda.move_before(tx, *target),
    }
}

/// The reply to a commit at the place, in this epoch.
fn reply_at(epoch: u32, place: &Target) -> Reply
    ensures { result ≡ reply_at epoch place.now }
{
    match place {
        Target::Home => Reply::Committed { epoch },
        Target::Before(target) => Reply::CommittedBefore {
            epoch,
            target: *target,
        },
    }
}

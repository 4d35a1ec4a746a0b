//! The commit of a live batch, by what is decided of it.

ghost use Rattle.std.specs.Prelude.{◌≡◌, Some, IfOk, OnErr, option_map};
ghost use Rattle.ltx_model.specs.declared.commands.Command.TheVariants.{Ask};
ghost use Rattle.ltx_model.specs.declared.commands.Verb.TheVariants as verbs;
ghost use Rattle.ltx_forward.specs.Asked.{decision_of};
ghost use Rattle.ltx_open.specs.declared.stage.Stage.TheVariants as stages;
ghost use Rattle.ltx_open.specs.Views.{OpenView};
ghost use Rattle.ltx_open.specs.Slots.{opened};
ghost use Rattle.ltx_core.specs.Decided.{HasLive, IsDecided, IsRefused};
ghost use Rattle.ltx_core.specs.Same.{IsSame};
ghost use Rattle.ltx_core.specs.Steps.{IsAnswered};

use crate::areas::live_areas;
use crate::decide::decide;
use crate::end::leave;
use crate::state::Core;
use ltx_forward::decide::Decision;
use ltx_model::memory::NoMemory;
use ltx_model::numbers::Session;
use ltx_model::replies::Reply;
use ltx_open::stage::Declared;

impl Core {
    /// The session's live batch commits where its slot stands, if no batch committed since its slot
    /// and no live one is older: it overtakes nobody. Else it is decided.
    pub(crate) fn commit_batch(
        &mut self,
        session: Session,
        declared: Declared,
        mark: u64,
    ) -> Result<Reply, NoMemory>
        requires live { option_map (λ a. a.stage) (opened self.old.opens session) ≡ Some (stages.Live declared mark) }
        ensures ok { IfOk result (λ reply. IsAnswered self.old (Ask session verbs.Commit) reply self.new) }
        ensures err { OnErr result (IsSame self.old self.new) }
    {
        let Some(open) = self.opens.get(session) else {
            return Ok(Reply::NoTx);
        };
        let tx = open.number();
        if self.batch > mark || self.preserve.has_live_below(tx) {
            return self.commit_decided(session);
        }
        self.commit_home(session)
    }

    /// What is decided of the commit of the session's live batch is done.
    fn commit_decided(&mut self, session: Session) -> Result<Reply, NoMemory>
        requires live { HasLive self.old session }
        ensures ok { IfOk result (λ reply. IsAnswered self.old (Ask session verbs.Commit) reply self.new) }
        ensures err { OnErr result (IsSame self.old self.new) }
    {
        let Some(open) = self.opens.get(session) else {
            return Ok(Reply::NoTx);
        };
        let lives = live_areas(self.alloc, &self.areas, &self.preserve)?;
        let decision = decide(open, &lives, &self.records, &self.agenda)?;
        self.carry_out(session, decision)
    }

    /// The session's live batch commits at a place, waits without a change, or is refused.
    fn carry_out(&mut self, session: Session, decision: Decision) -> Result<Reply, NoMemory>
        requires live { HasLive self.old session }
        requires decided { IsDecided self.old session (decision_of decision) }
        ensures ok { IfOk result (λ reply. IsAnswered self.old (Ask session verbs.Commit) reply self.new) }
        ensures err { OnErr result (IsSame self.old self.new) }
    {
        match decision {
            Decision::Commit(place) => self.commit_at(session, place),
            Decision::Waiting(tx) => Ok(Reply::Waiting { tx }),
            Decision::Late {
                target,
                op,
                table,
                key,
                writer,
            } => Ok(self.refuse(
                session,
                Reply::Late {
                    target,
                    op,
                    table,
                    key,
                    writer,
                },
            )),
            Decision::Contradicts {
                target,
                op,
                table,
                key,
                reader,
            } => Ok(self.refuse(
                session,
                Reply::Contradicts {
                    target,
                    op,
                    table,
                    key,
                    reader,
                },
            )),
        }
    }

    /// The session's live batch ends with this refusal.
    fn refuse(&mut self, session: Session, reply: Reply) -> Reply
        requires live { HasLive self.old session }
        requires refused { IsRefused self.old session reply }
        ensures { IsAnswered self.old (Ask session verbs.Commit) result self.new }
    {
        let Some(open) = self.opens.take(session) else {
            return Reply::NoTx;
        };
        leave(
            &mut self.preserve,
            &mut self.agenda,
            &mut self.areas,
            &mut self.records,
            &open,
        );
        reply
    }
}

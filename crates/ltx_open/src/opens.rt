//! The open transactions, each at the number of its session, so that none is searched for.

ghost use Rattle.std.specs.Prelude.{◌≡◌, ◌≤◌, ◌<◌, ℕ, [], length, is_some, option_map, IfOk, OnOk, OnErr, Some, None, option_copied};
ghost use Rattle.ltx_model.specs.Limits.{most_operations};
ghost use Rattle.ltx_model.specs.declared.replies.Reply.TheVariants.{NoTx, LimitOps};
ghost use Rattle.ltx_open.specs.Views.{OpenView, gone_live};
ghost use Rattle.ltx_open.specs.Slots.{opened, HasAt};
ghost use Rattle.ltx_open.specs.Operations.{HasDoneIn, HasMore};
ghost use Rattle.ltx_open.specs.Same.{IsSameAt, AreSameOpens};

use crate::open::Open;
use crate::stage::Stage;
use ltx_model::commands::Op;
use ltx_model::memory::NoMemory;
use ltx_model::numbers::Session;
use ltx_model::replies::Reply;
use ltx_store::store::Store;
use std::alloc::Global;
use std::marker::Model;

/// The open transactions. There are slots up to the greatest session that had one.
#[derive(Debug, Drop)]
pub struct Opens {
    slots: Vec<Option<Open>>,
}

// Clauses see the slots, of which one for each session: the one at the session's number.
impl Model for Opens {
    ghost use Rattle.std.specs.Prelude.{List, Option};
    ghost use Rattle.ltx_open.specs.Views.{OpenView};

    ghost Value = { List (Option OpenView) };

    ghost view = { λ o. o.slots.items };
}

impl Opens {
    /// None, which take no memory.
    pub fn new(alloc: Global) -> Opens
        ensures { result ≡ [] }
    {
        Opens {
            slots: Vec::new(alloc),
        }
    }

    /// The session's open transaction.
    pub fn get(&self, session: Session) -> Option<&Open>
        ensures { option_copied result ≡ opened self.now session }
    {
        self.slots.get(usize::from(session.number()))?.as_ref()
    }

    /// What the session's open transaction is.
    pub fn stage(&self, session: Session) -> Option<Stage>
        ensures { result ≡ option_map (λ a. a.stage) (opened self.now session) }
    {
        Some(self.get(session)?.stage())
    }

    /// Whether the session has an open transaction.
    pub fn has(&self, session: Session) -> bool
        ensures { result ≡ is_some (opened self.now session) }
    {
        matches!(self.slots.get(usize::from(session.number())), Some(Some(_)))
    }

    /// Makes a slot for the session. After NoMemory there may be more room.
    pub fn reserve(&mut self, session: Session) -> Result<(), NoMemory>
        ensures within { OnOk result (session < length self.new) }
        ensures kept { (n : ℕ) → opened self.new n ≡ opened self.old n }
    {
        let place = usize::from(session.number());
        self.grow(place + 1)
    }

    /// The session has this open transaction, in place of the one that it had.
    pub fn put(&mut self, session: Session, tx: Open)
        requires slot { session < length self.old }
        ensures put { HasAt self.old session (Some tx) self.new }
    {
        let place = usize::from(session.number());
        self.slots[place] = Some(tx);
    }

    /// The pending batches become live at this mark.
    pub fn go_live(&mut self, mark: u64)
        ensures { (session : ℕ) → opened self.new session ≡ option_map (gone_live mark) (opened self.old session) }
    {
        for slot in self.slots.iter_mut() {
            go_live_in(slot, mark);
        }
    }

    /// The session's open transaction, out of its slot.
    pub fn take(&mut self, session: Session) -> Option<Open>
        ensures taken { result ≡ opened self.old session }
        ensures left { HasAt self.old session None self.new }
    {
        let place = usize::from(session.number());
        if place >= self.slots.len() {
            return None;
        }
        self.slots[place].take()
    }

    /// An operation of the session's open transaction on the rows at a mark. After NoMemory it is as
    /// before, but for room.
    pub fn operate(
        &mut self,
        session: Session,
        alloc: Global,
        store: &Store,
        mark: u64,
        op: &Op,
    ) -> Result<Reply, NoMemory>
        ensures none { IfOk result (λ reply. opened self.old session ≡ None → (reply ≡ NoTx) × (self.new ≡ self.old)) }
        ensures full { IfOk result (λ reply. (a : OpenView) → opened self.old session ≡ Some a → most_operations ≤ length a.notes.notes → (reply ≡ LimitOps) × AreSameOpens self.old self.new) }
        ensures done { IfOk result (λ reply. (a : OpenView) → opened self.old session ≡ Some a → length a.notes.notes < most_operations → HasMore store.now mark self.old session a op.now reply self.new) }
        ensures kept { OnErr result (AreSameOpens self.old self.new) }
    {
        let place = usize::from(session.number());
        if place >= self.slots.len() {
            return Ok(Reply::NoTx);
        }
        operate_in(&mut self.slots[place], alloc, store, mark, op)
    }

    /// Makes slots, up to this many.
    #[tactic(auto, using(crate::proofs::SlotChanges::opened_push))]
    fn grow(&mut self, count: usize) -> Result<(), NoMemory>
        ensures within { OnOk result (count ≤ length self.new) }
        ensures kept { (n : ℕ) → opened self.new n ≡ opened self.old n }
    {
        for _slot in self.slots.len()..count {
            self.slots.push(None)?;
        }
        Ok(())
    }
}

/// What is pending in a slot becomes live at this mark.
fn go_live_in(slot: &mut Option<Open>, mark: u64)
    ensures { slot.new ≡ option_map (gone_live mark) slot.old }
{
    if let Some(open) = slot {
        open.go_live(mark);
    }
}

/// An operation of the open transaction of a slot.
fn operate_in(
    slot: &mut Option<Open>,
    alloc: Global,
    store: &Store,
    mark: u64,
    op: &Op,
) -> Result<Reply, NoMemory>
    ensures none { IfOk result (λ reply. slot.old ≡ None → (reply ≡ NoTx) × (slot.new ≡ slot.old)) }
    ensures full { IfOk result (λ reply. (a : OpenView) → slot.old ≡ Some a → most_operations ≤ length a.notes.notes → (reply ≡ LimitOps) × (slot.new ≡ slot.old)) }
    ensures done { IfOk result (λ reply. (a : OpenView) → slot.old ≡ Some a → length a.notes.notes < most_operations → HasDoneIn store.now mark a op.now reply slot.new) }
    ensures kept { OnErr result (IsSameAt slot.old slot.new) }
{
    match slot {
        None => Ok(Reply::NoTx),
        Some(open) => open.operate(alloc, store, mark, op),
    }
}

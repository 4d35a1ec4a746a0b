//! The end of an open transaction without a commit.

ghost use Rattle.std.specs.Prelude.{◌≡◌};
ghost use Rattle.ltx_model.specs.declared.commands.Command.TheVariants.{Ask};
ghost use Rattle.ltx_model.specs.declared.commands.Verb.TheVariants.{Abort};
ghost use Rattle.ltx_core.specs.Ends.{left_batches, left_list, left_areas, left_records, IsKnownAs};
ghost use Rattle.ltx_core.specs.Steps.{IsAnswered};

use crate::areas::drop_area;
use crate::state::Core;
use ltx_agenda::agenda::Agenda;
use ltx_forward::decide::Live;
use ltx_model::numbers::Session;
use ltx_model::replies::Reply;
use ltx_open::open::Open;
use ltx_open::stage::Stage;
use ltx_preserve::preserve::Preserve;
use ltx_reads::records::Records;

impl Core {
    /// The session's open transaction is given up. A batch holds no table any more, and a live one
    /// leaves the agenda.
    pub(crate) fn abort(&mut self, session: Session) -> Reply
        ensures { IsAnswered self.old (Ask session Abort) result self.new }
    {
        let Some(open) = self.opens.take(session) else {
            return Reply::NoTx;
        };
        leave(
            &mut self.preserve,
            &mut self.agenda,
            &mut self.areas,
            &mut self.records,
            &open,
        );
        Reply::Aborted
    }
}

/// A transaction that ended leaves the batches that have begun, and the agenda, if it is there. Where
/// no batch is live any more, nothing is kept of commits.
pub(crate) fn leave(
    preserve: &mut Preserve,
    agenda: &mut Agenda,
    areas: &mut Vec<Live>,
    records: &mut Records,
    gone: &Open,
)
    requires known { IsKnownAs gone.now.stage gone.now.number preserve.old agenda.old.list }
    ensures batches { preserve.new ≡ left_batches gone.now.stage gone.now.number preserve.old }
    ensures list { agenda.new.list ≡ left_list gone.now.stage gone.now.number agenda.old.list }
    ensures room { agenda.new.room ≡ agenda.old.room }
    ensures areas { areas.new.items ≡ left_areas gone.now.stage gone.now.number areas.old.items }
    ensures records { records.new ≡ left_records gone.now.stage gone.now.number preserve.old records.old }
{
    match gone.stage() {
        Stage::Short => {}
        Stage::Pending(_) => {
            preserve.remove(gone.number());
            drop_area(areas, gone.number());
        }
        Stage::Live(..) => {
            preserve.remove(gone.number());
            agenda.drop_tx(gone.number());
            drop_area(areas, gone.number());
            if !preserve.is_any_live() {
                agenda.settle();
                records.clear();
            }
        }
    }
}

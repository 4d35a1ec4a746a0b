//! What is recorded of a commit beside live batches.

ghost use Rattle.std.specs.Prelude.{◌≡◌, ◌<◌, false, true, OnOk, OnErr};
ghost use Rattle.ltx_model.specs.Limits.{last_number};
ghost use Rattle.ltx_model.specs.Records.{is_kept};
ghost use Rattle.ltx_open.specs.Views.{is_batch};
ghost use Rattle.ltx_core.specs.Recorded.{is_any_live, are_several_live, HasRecordedShort, HasRecordedBatch};

use ltx_model::memory::NoMemory;
use ltx_open::open::Open;
use ltx_preserve::preserve::Preserve;
use ltx_reads::records::Records;

/// Notes the commit of a short while a batch is live, and else counts it. After NoMemory nothing has
/// changed.
pub(crate) fn record_short(
    records: &mut Records,
    tx: &Open,
    preserve: &Preserve,
) -> Result<(), NoMemory>
    requires short { is_batch tx.now.stage ≡ false }
    requires stranger { is_kept records.old tx.now.number ≡ false }
    requires limit { records.old.commits < last_number }
    ensures ok { OnOk result (HasRecordedShort (is_any_live preserve.now) records.old tx.now records.new) }
    ensures err { OnErr result (records.new ≡ records.old) }
{
    if preserve.is_any_live() {
        return tx.record(records);
    }
    records.count();
    Ok(())
}

/// Notes the commit of a live batch while another one is live, and else counts it, and nothing is
/// kept any more. After NoMemory nothing has changed.
pub(crate) fn record_batch(
    records: &mut Records,
    tx: &Open,
    preserve: &Preserve,
) -> Result<(), NoMemory>
    requires batch { is_batch tx.now.stage ≡ true }
    requires stranger { is_kept records.old tx.now.number ≡ false }
    requires limit { records.old.commits < last_number }
    ensures ok { OnOk result (HasRecordedBatch (are_several_live preserve.now) records.old tx.now records.new) }
    ensures err { OnErr result (records.new ≡ records.old) }
{
    if are_several_live(preserve) {
        return tx.record(records);
    }
    records.count();
    records.clear();
    Ok(())
}

/// Whether more than one batch is live.
fn are_several_live(preserve: &Preserve) -> bool
    ensures { result ≡ are_several_live preserve.now }
{
    let mut live: usize = 0;
    for place in 0..preserve.len() {
        if preserve.pending_at(place).is_none() {
            live += 1;
        }
    }
    live > 1
}

//! The areas of the batches that have begun.

ghost use Rattle.std.specs.Prelude.{◌≡◌, length, IfOk};
ghost use Rattle.ltx_core.specs.Recorded.{areas_without, areas_of_live};

use ltx_forward::decide::Live;
use ltx_model::memory::NoMemory;
use ltx_model::numbers::Tx;
use ltx_preserve::preserve::Preserve;
use std::alloc::Global;

/// Takes out the area of a batch that has ended.
pub(crate) fn drop_area(areas: &mut Vec<Live>, tx: Tx)
    ensures { areas.new.items ≡ areas_without tx areas.old.items }
{
    areas.retain(|live| live.tx != tx);
}

/// The areas of those that are live. The areas stand in the order in which the batches were entered.
pub(crate) fn live_areas(
    alloc: Global,
    areas: &[Live],
    preserve: &Preserve,
) -> Result<Vec<Live>, NoMemory>
    requires all { length areas.now ≡ length preserve.now }
    ensures { IfOk result (λ lives. lives.items ≡ areas_of_live preserve.now areas.now) }
{
    let mut lives = Vec::new(alloc);
    for place in 0..areas.len() {
        if preserve.pending_at(place).is_none() {
            lives.push(copy_of(&areas[place]))?;
        }
    }
    Ok(lives)
}

/// An area that equals this one.
fn copy_of(live: &Live) -> Live
    ensures { result ≡ live.now }
{
    Live {
        tx: live.tx,
        writes: live.writes,
        reads: live.reads,
    }
}

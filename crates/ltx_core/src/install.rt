//! The store of a core: filled with the rows of a base, and with the writes of each commit.

ghost use Rattle.std.specs.Prelude.{◌≡◌, ◌<◌, ℕ, true, not, IfOk, option_map};
ghost use Rattle.std.specs.List.{AllByRecursion};
ghost use Rattle.ltx_model.specs.Keys.{Cell, IsRising};
ghost use Rattle.ltx_model.specs.Operations.{cell_of_write};
ghost use Rattle.ltx_store.specs.Kept.{versions_at, room_at, latest_rows, AreUpTo};
ghost use Rattle.ltx_core.specs.Installed.{HasInstalled, HasInstalledUnless, AreByMembers, last_writer};
ghost use Rattle.ltx_chain.specs.Versions.{AreBelow};
ghost use Rattle.ltx_model.specs.Decisions.{is_installed};
ghost use Rattle.ltx_model.specs.Listings.{is_member};
ghost use Rattle.ltx_model.specs.LastWrites.{made_before};
ghost use Rattle.ltx_model.specs.StoredRows.{row_at};
ghost use Rattle.ltx_chain.specs.Versions.{latest};
ghost use Rattle.ltx_core.specs.Stands.{IsOfBase, write_seen};

use ltx_agenda::agenda::Agenda;
use ltx_model::memory::NoMemory;
use ltx_model::numbers::Tx;
use ltx_model::rows::StoredList;
use ltx_model::writes::Write;
use ltx_store::store::Store;
use std::alloc::Global;

/// Adds the versions that a commit's writes make of their keys, without taking memory.
pub(crate) fn install(store: &mut Store, writer: Tx, mark: u64, writes: Vec<Write>)
    requires rising { IsRising cell_of_write writes.items }
    requires room { AllByRecursion (λ w. 0 < room_at store.old (cell_of_write w)) writes.items }
    requires above { (newest : ℕ) × (newest < mark) × AreUpTo newest store.old }
    ensures installed { HasInstalled store.old store.new writer mark writes.items }
    ensures marks { AreUpTo mark store.new }
{
    for write in writes {
        store.install(writer, mark, write);
    }
}

/// Adds the versions that a commit's writes make of their keys, but for keys whose last version was
/// written by a member that stands later in the agenda, without taking memory. The agenda has the
/// writer where it stands once it is committed, and is not settled yet.
pub(crate) fn install_unless_later(
    store: &mut Store,
    agenda: &Agenda,
    writer: Tx,
    mark: u64,
    writes: Vec<Write>,
)
    requires rising { IsRising cell_of_write writes.items }
    requires room { AllByRecursion (λ w. 0 < room_at store.old (cell_of_write w)) writes.items }
    requires above { (newest : ℕ) × (newest < mark) × AreUpTo newest store.old }
    requires member { is_member agenda.now.list writer ≡ true }
    requires members { (cell : Cell) → AreByMembers agenda.now.list (versions_at store.old cell) }
    ensures installed { HasInstalledUnless agenda.now.list store.old store.new writer mark writes.items }
    ensures marks { AreUpTo mark store.new }
{
    for write in writes {
        if !has_later(store, agenda, writer, mark, &write) {
            store.install(writer, mark, write);
        }
    }
}

/// Whether the last version of a write's key was written by a member that stands behind the writer.
fn has_later(store: &Store, agenda: &Agenda, writer: Tx, mark: u64, write: &Write) -> bool
    requires below { AreBelow mark (versions_at store.now (cell_of_write write.now)) }
    requires member { is_member agenda.now.list writer ≡ true }
    requires members { AreByMembers agenda.now.list (versions_at store.now (cell_of_write write.now)) }
    ensures { result ≡ not (is_installed agenda.now.list (last_writer store.now (cell_of_write write.now)) writer) }
{
    let Some(last) = store.get_at(write.table, &write.key, mark) else {
        return false;
    };
    if last.mark == 0 {
        return false;
    }
    agenda.before(writer, last.writer)
}

/// A store with the rows of a base, each as the one version of its key, with mark 0.
pub(crate) fn load(alloc: Global, rows: StoredList) -> Result<Store, NoMemory>
    ensures rows { IfOk result (λ store. latest_rows store ≡ rows) }
    ensures marks { IfOk result (λ store. AreUpTo 0 store) }
    ensures versions { IfOk result (λ store. (cell : Cell) → AllByRecursion (IsOfBase rows cell) (versions_at store cell)) }
    ensures written { IfOk result (λ store. (cell : Cell) → write_seen (latest (versions_at store cell)) ≡ option_map made_before (row_at rows cell)) }
{
    let mut store = Store::new(alloc)?;
    for row in rows.into_vec() {
        store.load(alloc, row)?;
    }
    Ok(store)
}

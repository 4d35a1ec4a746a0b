//! Whom the commit of a live batch waits for.

ghost use Rattle.std.specs.Prelude.{◌≡◌, List, true, option_map};
ghost use Rattle.std.specs.List.{find};
ghost use Rattle.ltx_model.specs.declared.looked.Noted.{Noted};
ghost use Rattle.ltx_model.specs.declared.writes.Write.{Write};
ghost use Rattle.ltx_model.specs.Batches.{overtaken_live, elder_reader};
ghost use Rattle.ltx_model.specs.Listings.{is_member};
ghost use Rattle.ltx_model.specs.Records.{Records};
ghost use Rattle.ltx_model.specs.States.{State, LiveBatch};
ghost use Rattle.ltx_agenda.specs.Placed.{Listed};
ghost use Rattle.ltx_forward.specs.Asked.{IsAsked};
ghost use Rattle.ltx_forward.specs.Waits.{AreTablesOf, AreTablesInto, is_overtaken, may_read_some, may_read_from};

use crate::decide::Live;
use crate::late::stands_from;
use crate::overtake::preserves;
use ltx_agenda::agenda::Agenda;
use ltx_long::long::LongTx;
use ltx_model::looked::Looked;
use ltx_model::numbers::Tx;
use ltx_model::tables::TableSet;
use ltx_model::writes::Write;

/// The least live batch that this one overtakes: of the live batches the first one, in the order of
/// their numbers, that has a smaller number and preserves a table into which this one looked.
pub(crate) fn overtaken_live(tx: &LongTx, lives: &[Live]) -> Option<Tx>
    ensures { (s : State) (i : LiveBatch) (writes : List Write) (records : Records) (agenda : Listed) → IsAsked s i tx.now writes lives.now records agenda → result ≡ overtaken_live s i }
{
    first_overtaken(lives, tx.tx(), tx.looked_into())
}

/// The least elder that may still read what the batch wrote: of the live batches the first one, in the
/// order of their numbers, that has a smaller number, is p or stands after it, and has a table in its
/// read area that the batch wrote.
pub(crate) fn elder_reader(
    tx: &LongTx,
    writes: &[Write],
    lives: &[Live],
    agenda: &Agenda,
    p: Tx,
) -> Option<Tx>
    requires place { is_member agenda.now.list p ≡ true }
    ensures { (s : State) (i : LiveBatch) (records : Records) → IsAsked s i tx.now writes.now lives.now records agenda.now → result ≡ elder_reader s i p }
{
    first_reader(lives, tx.tx(), tables_of(writes), agenda, p)
}

/// The first of the live batches with a smaller number that preserves one of these tables.
fn first_overtaken(lives: &[Live], number: Tx, looked_into: TableSet) -> Option<Tx>
    ensures { (notes : List Noted) → AreTablesInto notes looked_into → result ≡ option_map (λ live. live.tx) (find (is_overtaken number notes) lives.now) }
{
    for live in lives {
        if is_overtaken(live, number, looked_into) {
            return Some(live.tx);
        }
    }
    None
}

/// Whether the live batch has a smaller number and preserves one of these tables.
fn is_overtaken(live: &Live, number: Tx, looked_into: TableSet) -> bool
    ensures { (notes : List Noted) → AreTablesInto notes looked_into → result ≡ is_overtaken number notes live.now }
{
    preserves(live.tx, live.writes, number, looked_into)
}

/// The first of the live batches with a smaller number that is p or stands after it, and has one of
/// these tables in its read area.
fn first_reader(lives: &[Live], number: Tx, written: TableSet, agenda: &Agenda, p: Tx) -> Option<Tx>
    requires place { is_member agenda.now.list p ≡ true }
    ensures { (writes : List Write) → AreTablesOf writes written → result ≡ option_map (λ live. live.tx) (find (may_read_from agenda.now.list p number writes) lives.now) }
{
    for live in lives {
        if may_read(live, number, written) && stands_from(agenda, p, live.tx) {
            return Some(live.tx);
        }
    }
    None
}

/// Whether the live batch has a smaller number and one of these tables in its read area.
fn may_read(live: &Live, number: Tx, written: TableSet) -> bool
    ensures { (writes : List Write) → AreTablesOf writes written → result ≡ may_read_some number writes live.now }
{
    live.tx < number && live.reads.meets(written)
}

/// The tables of these writes.
fn tables_of(writes: &[Write]) -> TableSet
    ensures { AreTablesOf writes.now result }
{
    let mut tables = TableSet::empty();
    for write in writes {
        tables = tables.with(write.table);
    }
    tables
}

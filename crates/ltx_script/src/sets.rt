//! Sets of tables in a command's text. Each piece is appended; where memory is wanting, the text keeps what it held and
//! may have a front of the piece behind it.

ghost use Rattle.std.specs.Prelude.{◌≡◌, ◌++◌, ◌+◌, ◌-◌, ◌<◌, length, take, filter, OnOk, ◌∷◌, [], if◌then◌else◌};
ghost use Rattle.std.specs.List.{range_with_len};
ghost use Rattle.ltx_model.specs.Tables.{has_table};
ghost use Rattle.ltx_text.specs.Decimals.{decimal_of};
ghost use Rattle.ltx_script.specs.Commands.{commas, set_text};

use ltx_model::memory::NoMemory;
use ltx_model::numbers::Table;
use ltx_model::tables::TableSet;
use ltx_text::decimals::put_decimal;
use ltx_text::print::put_text;

/// Appends a comma and a table that is in the set, and nothing for one that is not.
fn put_member(set: TableSet, table: Table, out: &mut Vec<u8>) -> Result<(), NoMemory>
    ensures ok { OnOk result (out.new.items ≡ out.old.items ++ (if has_table set table then 44 ∷ decimal_of table else [])) }
    ensures front { take (length out.old.items) out.new.items ≡ out.old.items }
{
    if !set.has(table) {
        return Ok(());
    }
    out.push(b',')?;
    put_decimal(u64::from(table.number()), out)
}

/// Appends the least table of a set and, each after a comma, its other tables.
fn put_tables(set: TableSet, least: Table, out: &mut Vec<u8>) -> Result<(), NoMemory>
    ensures ok { OnOk result (out.new.items ≡ out.old.items ++ commas (least ∷ filter (has_table set) (range_with_len (least + 1) (63 - least)))) }
    ensures front { take (length out.old.items) out.new.items ≡ out.old.items }
{
    put_decimal(u64::from(least.number()), out)?;
    for n in least.number() + 1..Table::COUNT {
        let Some(table) = Table::new(n) else {
            return Ok(());
        };
        put_member(set, table, out)?;
    }
    Ok(())
}

/// Appends the spelling of a set of tables.
#[tactic(auto, unfolding(crate::specs::Commands::set_text))]
pub(crate) fn put_set(set: TableSet, out: &mut Vec<u8>) -> Result<(), NoMemory>
    ensures ok { OnOk result (out.new.items ≡ out.old.items ++ set_text set) }
    ensures front { take (length out.old.items) out.new.items ≡ out.old.items }
{
    if set == TableSet::all() {
        return put_text(b"*", out);
    }
    match set.least() {
        None => put_text(b"-", out),
        Some(table) => put_tables(set, table, out),
    }
}

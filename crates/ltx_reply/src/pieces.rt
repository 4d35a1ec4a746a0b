//! Pieces of a reply's text. Each is appended; where memory is wanting, the text keeps what it held and may have a front
//! of the piece behind it.

ghost use Rattle.std.specs.Prelude.{◌≡◌, ◌++◌, Option, length, take, flat_map, OnOk};
ghost use Rattle.ltx_text.specs.Words.{word_of};
ghost use Rattle.ltx_text.specs.Decimals.{decimal_of};
ghost use Rattle.ltx_reply.specs.Texts.{writer_text, row_text, cause_text};
ghost use Rattle.ltx_text.specs.Cuts.{spaced};

use ltx_model::bytes::Key;
use ltx_model::commands::Bad;
use ltx_model::memory::NoMemory;
use ltx_model::numbers::{Table, Tx};
use ltx_model::rows::Row;
use ltx_text::print::{put_bytes, put_number, put_text};

/// Appends a word, a space and a number.
pub(crate) fn put_named(word: &[u8], n: u64, out: &mut Vec<u8>) -> Result<(), NoMemory>
    ensures ok { OnOk result (out.new.items ≡ out.old.items ++ word.now ++ spaced (decimal_of n)) }
    ensures front { take (length out.old.items) out.new.items ≡ out.old.items }
{
    put_text(word, out)?;
    put_number(n, out)
}

/// Appends a space and a writer's number, or `none`.
pub(crate) fn put_writer(writer: Option<Tx>, out: &mut Vec<u8>) -> Result<(), NoMemory>
    ensures ok { OnOk result (out.new.items ≡ out.old.items ++ spaced (writer_text writer)) }
    ensures front { take (length out.old.items) out.new.items ≡ out.old.items }
{
    match writer {
        None => put_text(b" none", out),
        Some(tx) => put_number(tx.number(), out),
    }
}

/// Appends an operation, a table and a key, each after a space.
pub(crate) fn put_place(op: u32, table: Table, key: &Key, out: &mut Vec<u8>) -> Result<(), NoMemory>
    ensures ok { OnOk result (out.new.items ≡ out.old.items ++ spaced (decimal_of op) ++ spaced (decimal_of table) ++ spaced (word_of key.now)) }
    ensures front { take (length out.old.items) out.new.items ≡ out.old.items }
{
    put_number(u64::from(op), out)?;
    put_number(u64::from(table.number()), out)?;
    put_bytes(key.bytes(), out)
}

/// Appends a row's key and value, each after a space.
fn put_row(row: &Row, out: &mut Vec<u8>) -> Result<(), NoMemory>
    ensures ok { OnOk result (out.new.items ≡ out.old.items ++ row_text row.now) }
    ensures front { take (length out.old.items) out.new.items ≡ out.old.items }
{
    put_bytes(row.key.bytes(), out)?;
    put_bytes(row.value.bytes(), out)
}

/// Appends rows, one after another.
pub(crate) fn put_rows(rows: &[Row], out: &mut Vec<u8>) -> Result<(), NoMemory>
    ensures ok { OnOk result (out.new.items ≡ out.old.items ++ flat_map row_text rows.now) }
    ensures front { take (length out.old.items) out.new.items ≡ out.old.items }
{
    for row in rows {
        put_row(row, out)?;
    }
    Ok(())
}

/// Appends a space and the name of a cause.
pub(crate) fn put_cause(cause: Bad, out: &mut Vec<u8>) -> Result<(), NoMemory>
    ensures ok { OnOk result (out.new.items ≡ out.old.items ++ spaced (cause_text cause)) }
    ensures front { take (length out.old.items) out.new.items ≡ out.old.items }
{
    match cause {
        Bad::Verb => put_text(b" verb", out),
        Bad::Session => put_text(b" session", out),
        Bad::Table => put_text(b" table", out),
        Bad::Key => put_text(b" key", out),
        Bad::Value => put_text(b" value", out),
        Bad::Sets => put_text(b" sets", out),
        Bad::Words => put_text(b" words", out),
        Bad::Long => put_text(b" long", out),
    }
}

//! What an open transaction is: a short, or a batch that waits for its epoch or is live.

ghost use Rattle.std.specs.Prelude.{◌≡◌};
ghost use Rattle.ltx_model.specs.declared.replies.Reply.TheVariants.{Outside, NotPreserved};
ghost use Rattle.ltx_model.specs.Answers.{refusal, unless_in};
ghost use Rattle.ltx_model.specs.Tables.{has_table};
ghost use Rattle.ltx_model.specs.Operations.{table_of};
ghost use Rattle.ltx_open.specs.Views.{declaration};

use ltx_model::commands::Op;
use ltx_model::numbers::Table;
use ltx_model::replies::Reply;
use ltx_model::tables::TableSet;

/// What a batch declared: the tables that it will write, its read area, and the epoch in which it
/// becomes live.
#[derive(Clone, Copy, Debug)]
pub struct Declared {
    pub writes: TableSet,
    pub reads: TableSet,
    pub from: u32,
}

/// What an open transaction is. A live batch has the number of commits at its slot.
#[derive(Clone, Copy, Debug)]
pub enum Stage {
    Short,
    Pending(Declared),
    Live(Declared, u64),
}

impl Declared {
    /// Why the batch may not do the operation: it would read outside of its area, or write a table
    /// that it did not declare.
    pub fn refusal(self, op: &Op) -> Option<Reply>
        ensures { result ≡ refusal (declaration self) op.now }
    {
        match op {
            Op::Get { table, .. } => self.outside(*table),
            Op::Scan { table, .. } => self.outside(*table),
            Op::Put { table, .. } => self.undeclared(*table),
            Op::Del { table, .. } => self.undeclared(*table),
        }
    }

    /// The refusal of a read of the table, if it is outside of the area.
    fn outside(self, table: Table) -> Option<Reply>
        ensures { result ≡ unless_in (has_table self.reads table) (Outside table) }
    {
        if self.reads.has(table) {
            return None;
        }
        Some(Reply::Outside { table })
    }

    /// The refusal of a write of the table, if it is not declared.
    fn undeclared(self, table: Table) -> Option<Reply>
        ensures { result ≡ unless_in (has_table self.writes table) (NotPreserved table) }
    {
        if self.writes.has(table) {
            return None;
        }
        Some(Reply::NotPreserved { table })
    }
}

/// The table of an operation.
pub fn table_of(op: &Op) -> Table
    ensures { result ≡ table_of op.now }
{
    match op {
        Op::Get { table, .. } => *table,
        Op::Scan { table, .. } => *table,
        Op::Put { table, .. } => *table,
        Op::Del { table, .. } => *table,
    }
}

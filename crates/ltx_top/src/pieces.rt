//! The pieces of a script, as its reader gives them, and why a run stops where there is none.

ghost use Rattle.std.specs.Prelude.{◌≡◌, ◌≤◌, ◌<◌, ◌+◌, [], true, false, Ok, IfOk, IsErrOf};
ghost use Rattle.ltx_outside.specs.Faults.{Rose};
ghost use Rattle.ltx_text.specs.Lines.{AsksOf, Cuts, Knows, NoFeedAhead, feeds};
ghost use Rattle.ltx_text.specs.Pieces.{OnEnd, given};
ghost use Rattle.ltx_top.specs.Endings.{failed_reads};
ghost use Rattle.ltx_top.specs.declared.status.Stop.TheVariants as stops;

use crate::status::Stop;
use ltx_outside::Source;
use ltx_text::lines::Lines;
use ltx_text::piece::{Piece, TextFault};

/// Takes the next piece of the script.
pub(crate) fn next_piece<S: Source>(lines: &mut Lines, source: &mut S) -> Result<Piece, Stop>
    ensures gave { IfOk result (λ piece. Knows lines.old (S.left source.old) → Cuts lines.old lines.new (S.left source.old) (S.left source.new) (given (Ok piece))) }
    ensures lost { IsErrOf result stops.NoMemory → Knows lines.old (S.left source.old) → Cuts lines.old lines.new (S.left source.old) (S.left source.new) [] }
    ensures failed { IsErrOf result stops.Source → Knows lines.old (S.left source.old) → Cuts lines.old lines.new (S.left source.old) (S.left source.new) [] }
    ensures failed_open { IsErrOf result stops.Source → (feeds lines.new.held ≡ 0) × (lines.new.ended ≡ false) }
    ensures passed { IsErrOf result stops.TooMuch → Knows lines.old (S.left source.old) → Cuts lines.old lines.new (S.left source.old) (S.left source.new) [] }
    ensures past { IsErrOf result stops.TooMuch → lines.new.limit < lines.new.taken }
    ensures below { IsErrOf result stops.TooMuch → lines.old.taken ≤ lines.old.limit → (feeds lines.old.held ≡ 0)
        × NoFeedAhead lines.old (S.left source.old) }
    ensures within { lines.new.limit < lines.new.taken → IsErrOf result stops.TooMuch }
    ensures other { IsErrOf result stops.Sink → ⊥ }
    ensures ended { IfOk result (λ piece. OnEnd (Ok piece) ((lines.new.held ≡ []) × (lines.new.ended ≡ true))) }
    ensures knows { Knows lines.old (S.left source.old) → Knows lines.new (S.left source.new) }
    ensures asks { AsksOf lines.old lines.new (S.left source.old) (S.reads source.old) (S.reads source.new) (failed_reads result) }
    ensures quiet { 0 < feeds lines.old.held → (S.reads source.new ≡ S.reads source.old) × (lines.new.taken ≡ lines.old.taken) }
    ensures limit { lines.new.limit ≡ lines.old.limit }
    ensures least { lines.new.taken ≤ lines.new.limit + 1 }
    ensures rose { IsErrOf result stops.Source → Rose (S.faults source.old) (S.faults source.new) }
    ensures calm { (IsErrOf result stops.Source → ⊥) → S.faults source.new ≡ S.faults source.old }
    ensures counted { S.faults source.old ≤ S.faults source.new }
{
    match lines.next(source) {
        Ok(piece) => Ok(piece),
        Err(TextFault::ReadFault) => Err(Stop::Source),
        Err(TextFault::TooMuch) => Err(Stop::TooMuch),
        Err(TextFault::NoMemory) => Err(Stop::NoMemory),
    }
}

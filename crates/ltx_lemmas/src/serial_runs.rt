//! What transactions see, and what a run of them gives.

ghost use Rattle.std.specs.Prelude.{◌≡◌, ◌⊎◌, ℕ, ◌<◌, ◌≤◌, true, false, List, [], ◌∷◌, ◌++◌, map, None, Some, Contains};
ghost use Rattle.std.specs.List.{AllByRecursion};
ghost use Rattle.ltx_model.specs.declared.commands.Op.{Op};
ghost use Rattle.ltx_model.specs.declared.rows.StoredRow.{StoredRow};
ghost use Rattle.ltx_model.specs.Keys.{Cell, IsRising};
ghost use Rattle.ltx_model.specs.StoredRows.{cell_of, row_at, writer_at};
ghost use Rattle.ltx_model.specs.Operations.{Transaction, operations, looks_up, looks_up_key, writes_key};
ghost use Rattle.ltx_model.specs.Rows.{rows_after_all, see, play, run, RunGives};
ghost use Rattle.ltx_model.specs.Batches.{contradicted};
ghost use Rattle.ltx_lemmas.specs.Plays.{AreSeen};
ghost use Rattle.ltx_lemmas.specs.Sources.{AreSourced};

/// Rows in strictly rising order of table and key are determined by their look-ups, and runs keep that order.
pub fn rising_rows()
    ensures determined { (xs ys : List StoredRow) → IsRising cell_of xs → IsRising cell_of ys → ((q : Cell)
        → row_at xs q ≡ row_at ys q) → xs ≡ ys }
    ensures kept { (rows : List StoredRow) (ts : List Transaction) → IsRising cell_of rows
        → IsRising cell_of (run rows ts) }
{}

/// A reply depends only on the rows of the keys that its operation looks up, and so do the replies of a whole transaction.
/// Where each recorded reply is what the transaction sees, a play of it gives the recorded replies.
pub fn replies_by_look_ups()
    ensures one { (n : ℕ) (rows more : List StoredRow) (earlier : List Op) (op : Op)
        → IsRising cell_of rows → IsRising cell_of more → ((q : Cell)
        → looks_up q earlier op ≡ true → row_at rows q ≡ row_at more q)
        → see n rows earlier op ≡ see n more earlier op }
    ensures all { (n : ℕ) (rows more : List StoredRow) (ops : List Op) → IsRising cell_of rows
        → IsRising cell_of more → ((q : Cell) → looks_up_key ops q ≡ true
        → row_at rows q ≡ row_at more q) → play n rows ops ≡ play n more ops }
    ensures seen { (n : ℕ) (rows : List StoredRow) (t : Transaction) → AreSeen n rows [] t.answered
        → play n rows (operations t) ≡ map (λ a. a.reply) t.answered }
{}

/// The row of a key after a run is what the last transaction that wrote the key left there, whatever stood there before; where
/// none wrote it, the row stays.
pub fn last_writer()
    ensures written { (q : Cell) (rows : List StoredRow) (front : List Transaction) (t : Transaction) (back : List Transaction)
        → writes_key (operations t) q ≡ true
        → AllByRecursion (λ u. writes_key (operations u) q ≡ false) back
        → row_at (run rows (front ++ t ∷ back)) q ≡ row_at (rows_after_all t.number [] (operations t)) q }
    ensures unwritten { (q : Cell) (rows : List StoredRow) (ts : List Transaction)
        → AllByRecursion (λ t. writes_key (operations t) q ≡ false) ts
        → row_at (run rows ts) q ≡ row_at rows q }
{}

/// Each row after a run is the base's or is what a transaction wrote last there. Where numbers of transactions are above the
/// base's writers and no two are one, rows of one key with one writer are one.
pub fn writer_fixes_row()
    ensures sourced { (base : List StoredRow) (ts : List Transaction) → AreSourced base ts (run base ts) }
    ensures fixed { (base : List StoredRow) (last : ℕ) (ts : List Transaction)
        → ((q : Cell) (row : StoredRow) → row_at base q ≡ Some row → row.writer ≤ last)
        → ((t : Transaction) → Contains ts t → last < t.number) → ((t u : Transaction)
        → Contains ts t → Contains ts u → t.number ≡ u.number → t ≡ u)
        → (rows more : List StoredRow) → AreSourced base ts rows → AreSourced base ts more
        → (q : Cell) → writer_at rows q ≡ writer_at more q → row_at rows q ≡ row_at more q }
{}

/// Runs of joined lists: the rows of the second part start from those of the first. A transaction may be put into the middle of a
/// run where it gets its replies there and no later one sees what it writes: all keep their replies.
pub fn joined_runs()
    ensures rows { (rows : List StoredRow) (xs ys : List Transaction)
        → run rows (xs ++ ys) ≡ run (run rows xs) ys }
    ensures inside { (rows : List StoredRow) (front back : List Transaction) (t : Transaction)
        → IsRising cell_of rows → RunGives rows (front ++ back)
        → play t.number (run rows front) (operations t) ≡ map (λ a. a.reply) t.answered
        → ((q : Cell) → writes_key (operations t) q ≡ true → contradicted q back ≡ None)
        → RunGives rows (front ++ t ∷ back) }
{}

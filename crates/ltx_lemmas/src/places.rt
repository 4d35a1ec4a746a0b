//! Places among the members of the agenda after each kind of move.

ghost use Rattle.std.specs.Prelude.{◌≡◌, ◌≢◌, ℕ, true, false, List, [], ◌∷◌, ◌++◌, ◌||◌, ◌==◌, map, Contains};
ghost use Rattle.ltx_model.specs.Operations.{Transaction};
ghost use Rattle.ltx_model.specs.Agenda.{Member, LiveSlot, Committed, number_of, is_member, without_member, insert_before, commit_at_slot, part_before, part_from, serial};
ghost use Rattle.ltx_lemmas.specs.Places.{is_before, AreApart};

/// One more member, one less, one put before another or one committed at its slot leaves the others in their relation.
pub fn others_keep_order()
    ensures appended { (ms : List Member) (x : Member) (a b : ℕ) → is_member ms b ≡ true
        → is_before (ms ++ x ∷ []) a b ≡ is_before ms a b }
    ensures removed { (ms : List Member) (n a b : ℕ) → a ≢ n → b ≢ n
        → is_before (without_member ms n) a b ≡ is_before ms a b }
    ensures inserted { (x : Member) (p : ℕ) (ms : List Member) (a b : ℕ) → number_of x ≢ a → number_of x ≢ b
        → is_before (insert_before x p ms) a b ≡ is_before ms a b }
    ensures home { (t : Transaction) (ms : List Member) (a b : ℕ)
        → is_before (map (commit_at_slot t) ms) a b ≡ is_before ms a b }
{}

/// A new member that is put before another has the other's predecessors before it, and after it the other and its successors.
pub fn place_after_insert()
    ensures right { (x : Member) (p : ℕ) (ms : List Member) (a : ℕ) → is_member ms (number_of x) ≡ false
        → is_member ms p ≡ true
        → is_before (insert_before x p ms) a (number_of x) ≡ is_before ms a p }
    ensures left { (x : Member) (p : ℕ) (ms : List Member) (b : ℕ) → is_member ms p ≡ true
        → number_of x ≢ b → is_member ms (number_of x) ≡ false
        → is_before (insert_before x p ms) (number_of x) b ≡ ((p == b) || is_before ms p b) }
{}

/// A commit puts its transaction into the serial order between the part before its place and the part from it on, where its
/// place is its slot or its target; a live batch that leaves changes nothing in the order.
pub fn order_after_commit()
    ensures short { (ms : List Member) (t : Transaction)
        → serial (ms ++ Committed t ∷ []) ≡ serial ms ++ t ∷ [] }
    ensures home { (t : Transaction) (ms : List Member) → AreApart ms → Contains ms (LiveSlot t.number)
        → serial (map (commit_at_slot t) ms)
        ≡ serial (part_before t.number ms) ++ t ∷ serial (part_from t.number ms) }
    ensures before { (t : Transaction) (p : ℕ) (ms : List Member) → AreApart ms
        → Contains ms (LiveSlot t.number) → p ≢ t.number → is_member ms p ≡ true
        → serial (insert_before (Committed t) p (without_member ms t.number))
        ≡ serial (part_before p ms) ++ t ∷ serial (part_from p ms) }
    ensures leaves { (n : ℕ) (ms : List Member) → AreApart ms → Contains ms (LiveSlot n)
        → serial (without_member ms n) ≡ serial ms }
{}

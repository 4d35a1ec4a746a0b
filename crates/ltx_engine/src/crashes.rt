//! What a crash may leave of a run, by its history: the rows through one epoch, every acknowledged commit included. It stays so when the
//! run goes on.

ghost use Rattle.std.specs.Prelude.{◌≡◌, ℕ, Bool, true, false, List, [], ◌++◌, Option, None, IfSome, IfNone};
ghost use Rattle.ltx_model.specs.declared.commands.Line.{Line};
ghost use Rattle.ltx_model.specs.declared.replies.Entry.{Entry};
ghost use Rattle.ltx_model.specs.declared.replies.Reply.{Reply};
ghost use Rattle.ltx_model.specs.States.{Base, IsSound, State};
ghost use Rattle.ltx_model.specs.Histories.{state};
ghost use Rattle.ltx_model.specs.Answers.{IsLegalWith};
ghost use Rattle.ltx_model.specs.Disks.{Crashes};
ghost use Rattle.ltx_model.specs.Recovery.{IsRecovered};
ghost use Rattle.ltx_core.specs.Built.{built};
ghost use Rattle.ltx_log.specs.Images.{StaysTold, EachSince};
ghost use Rattle.ltx_log.specs.Running.{EachNow};
ghost use Rattle.ltx_engine.specs.Views.{EngineView};
ghost use Rattle.ltx_engine.specs.Stands.{StandsFor};
ghost use Rattle.ltx_engine.specs.Images.{RecoversThrough, RecoversEither, RecoversAlike, IsThrough, HoldsAcknowledged};
ghost use Rattle.ltx_engine.specs.Crashes.{Survives, Holds};
ghost use Rattle.ltx_engine.specs.Steps.{with_entry, LeavesEither, LeavesDurable};

/// A disk's bytes recover one base at most.
pub fn bytes_recover_one_base()
    ensures { (bytes : List ℕ) (first second : Base) → IsRecovered bytes first → IsRecovered bytes second → first ≡ second }
{}

/// Bytes that recover the base, or the rows through the durable epoch of a history or through its last closed one, recover the rows
/// through one closed epoch, and do so for each longer history.
pub fn images_survive_longer_histories()
    ensures first { (built : State → Line → Bool) (base : Base) (history : List Entry) → IsSound base → IsLegalWith built base history
        → (bytes : List ℕ) → IsRecovered bytes base → IsThrough base history bytes }
    ensures either { (built : State → Line → Bool) (base : Base) (history more : List Entry) → IsSound base
        → IsLegalWith built base (history ++ more)
        → (bytes : List ℕ) → RecoversEither (state base history) bytes → IsThrough base (history ++ more) bytes }
    ensures through { (built : State → Line → Bool) (base : Base) (history more : List Entry) → IsSound base
        → IsLegalWith built base (history ++ more)
        → (bytes : List ℕ) → IsThrough base history bytes → IsThrough base (history ++ more) bytes }
{}

/// Bytes that recover the rows through the durable epoch, or through the last closed one, have every acknowledged commit; and so have
/// those that recover the base, before any entry.
pub fn images_hold_what_is_acknowledged()
    ensures first { (base : Base) → IsSound base → (bytes : List ℕ) → IsRecovered bytes base → HoldsAcknowledged base [] bytes }
    ensures durable { (built : State → Line → Bool) (base : Base) (history : List Entry) → IsSound base → IsLegalWith built base history
        → (bytes : List ℕ) → RecoversThrough (state base history) (state base history).durable bytes
        → HoldsAcknowledged base history bytes }
    ensures either { (built : State → Line → Bool) (base : Base) (history : List Entry) → IsSound base → IsLegalWith built base history
        → (bytes : List ℕ) → RecoversEither (state base history) bytes → HoldsAcknowledged base history bytes }
{}

/// An opening: what each image since a moment, and each image now, has by what `start`, `Engine::over` and `Engine::open` say of it.
pub fn openings_survive()
    ensures since { (base : Base) → IsSound base → (content : Option (List ℕ)) (old new : Option Crashes)
        → IfSome content (λ bytes. IsRecovered bytes base) → EachSince RecoversAlike content old new → Survives base [] content old new }
    ensures now { (base : Base) → IsSound base → (content : Option (List ℕ)) (new : Option Crashes)
        → EachNow (λ bytes image. IsRecovered image base) content new → Holds base [] content new }
{}

/// A reply of `Engine::answer`: what was so of each image since a moment, however early, is so with its entry. Each image now has every
/// acknowledged commit, as long as no append met a fault of the disk. Of content and images from before, the disk must have told them.
pub fn answers_survive()
    ensures since { (old new : EngineView) (line : Line) (reply : Reply) (base : Base) (history : List Entry) → IsSound base
        → IsLegalWith built base (with_entry history line reply) → StandsFor old base history
        → LeavesEither old new → (old.log.closed ≡ true → new.log ≡ old.log)
        → (content : Option (List ℕ)) (before : Option Crashes) → StaysTold content old.log.content
        → Survives base history content before old.log.crashes
        → Survives base (with_entry history line reply) content before new.log.crashes }
    ensures now { (old new : EngineView) (line : Line) (reply : Reply) (base : Base) (history : List Entry) → IsSound base
        → IsLegalWith built base (with_entry history line reply) → StandsFor old base history
        → LeavesDurable old line reply new → old.log.closed ≡ false
        → (content : Option (List ℕ)) → StaysTold content new.log.content
        → Holds base (with_entry history line reply) content new.log.crashes }
{}

/// A fault of `Engine::answer`: the same of the history as it was, also in the middle of a flush.
pub fn faults_survive()
    ensures since { (old new : EngineView) (base : Base) (history : List Entry) → IsSound base
        → IsLegalWith built base history → StandsFor old base history
        → LeavesEither old new → (old.log.closed ≡ true → new.log ≡ old.log)
        → (content : Option (List ℕ)) (before : Option Crashes) → StaysTold content old.log.content
        → Survives base history content before old.log.crashes → Survives base history content before new.log.crashes }
    ensures now { (old new : EngineView) (base : Base) (history : List Entry) → IsSound base
        → IsLegalWith built base history → StandsFor old base history
        → LeavesEither old new → (old.log.closed ≡ true → new.log ≡ old.log) → IfNone old.log.crashes (new.log.crashes ≡ None)
        → (content : Option (List ℕ)) → StaysTold content old.log.content
        → Holds base history content old.log.crashes → Holds base history content new.log.crashes }
{}

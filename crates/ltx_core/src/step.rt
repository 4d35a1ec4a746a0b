//! A command, handed to its event. What is not built yet is answered `later`.

ghost use Rattle.std.specs.Prelude.{◌≡◌, ◌≢◌, [], ◌∷◌, ◌++◌, List, IsOk, IfOk, OnErr, true};
ghost use Rattle.ltx_model.specs.declared.commands.Command.TheVariants.{Ask, Flush};
ghost use Rattle.ltx_model.specs.declared.commands.Line.TheVariants.{Good};
ghost use Rattle.ltx_model.specs.declared.replies.Entry.{Entry};
ghost use Rattle.ltx_model.specs.States.{Base, IsSound};
ghost use Rattle.ltx_model.specs.Histories.{state};
ghost use Rattle.ltx_model.specs.Answers.{staged, IsLegalWith};
ghost use Rattle.ltx_core.specs.Built.{built, is_abort, takes_no_memory};
ghost use Rattle.ltx_core.specs.Same.{IsSame};
ghost use Rattle.ltx_core.specs.Stands.{StandsFor};
ghost use Rattle.ltx_core.specs.Steps.{IsAnswered};

use crate::state::Core;
use ltx_model::commands::{Command, Verb};
use ltx_model::memory::NoMemory;
use ltx_model::numbers::Session;
use ltx_model::replies::Reply;

impl Core {
    /// One command other than a flush, which needs a log. The reply is the answer of the state that the
    /// base and the history lead to, and the core then stands for the history with this entry. What is
    /// not built yet is answered `later`.
    /// The next epoch and an abort take no memory. After `NoMemory` the core stands for what it stood for, and for nothing else.
    pub fn step(&mut self, command: &Command) -> Result<Reply, NoMemory>
        requires unflushed { command.now ≢ Flush }
        ensures reply { IfOk result (λ reply. (base : Base) (history : List Entry) → IsSound base → IsLegalWith built base history → StandsFor self.old base history
            → reply ≡ staged built (state base history) (Good command.now)) }
        ensures stands { IfOk result (λ reply. (base : Base) (history : List Entry) → IsSound base → IsLegalWith built base history → StandsFor self.old base history
            → StandsFor self.new base (history ++ record { line = Good command.now; reply = reply } ∷ [])) }
        ensures ready { takes_no_memory command.now ≡ true → IsOk result }
        ensures kept { OnErr result ((base : Base) (history : List Entry) → StandsFor self.old base history → StandsFor self.new base history) }
        ensures kept_back { OnErr result ((base : Base) (history : List Entry) → StandsFor self.new base history → StandsFor self.old base history) }
    {
        self.apply(command)
    }

    /// A command, by what it is.
    fn apply(&mut self, command: &Command) -> Result<Reply, NoMemory>
        requires unflushed { command.now ≢ Flush }
        ensures ok { IfOk result (λ reply. IsAnswered self.old command.now reply self.new) }
        ensures ready { takes_no_memory command.now ≡ true → IsOk result }
        ensures err { OnErr result (IsSame self.old self.new) }
    {
        match command {
            Command::Ask(session, verb) => self.serve(*session, verb),
            Command::Epoch => Ok(self.advance()),
            Command::Flush => Ok(Reply::Later),
            Command::Prune => Ok(Reply::Later),
        }
    }

    /// What a session asks.
    fn serve(&mut self, session: Session, verb: &Verb) -> Result<Reply, NoMemory>
        ensures ok { IfOk result (λ reply. IsAnswered self.old (Ask session verb.now) reply self.new) }
        ensures ready { is_abort verb.now ≡ true → IsOk result }
        ensures err { OnErr result (IsSame self.old self.new) }
    {
        match verb {
            Verb::Short => self.begin(session),
            Verb::Do(op) => self.operate(session, op),
            Verb::Commit => self.commit(session),
            Verb::Abort => Ok(self.abort(session)),
            Verb::Long { writes, reads } => self.begin_batch(session, *writes, *reads),
        }
    }
}

//! Why a line gives no command: its cause, or want of memory.

ghost use Rattle.std.specs.Prelude.{◌≡◌};
ghost use Rattle.ltx_script.specs.declared.refusal.Refusal.TheVariants.{Memory};

use ltx_model::commands::Bad;
use ltx_model::memory::NoMemory;

#[derive(Debug, Drop)]
pub(crate) enum Refusal {
    Memory,
    Cause(Bad),
}

impl From<NoMemory> for Refusal {
    ghost from_gives = { λ _ e. e ≡ Memory };

    fn from(_e: NoMemory) -> Refusal {
        Refusal::Memory
    }
}

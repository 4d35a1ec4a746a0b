//! Why a text gives no reply: it is none, or memory was wanting.

ghost use Rattle.std.specs.Prelude.{◌≡◌};
ghost use Rattle.ltx_reply.specs.declared.unread.Unread.TheVariants.{Memory};

use ltx_model::memory::NoMemory;

#[derive(Debug, Drop)]
pub(crate) enum Unread {
    Memory,
    NoReply,
}

impl From<NoMemory> for Unread {
    ghost from_gives = { λ _ e. e ≡ Memory };

    fn from(_e: NoMemory) -> Unread {
        Unread::Memory
    }
}

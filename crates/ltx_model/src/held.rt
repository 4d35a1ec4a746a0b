//! Byte strings that hold few bytes themselves, so that most keys and values take no memory of their own and
//! are copied by a move.

ghost use Rattle.std.specs.Prelude.{◌≡◌, ◌<◌, ◌≤◌, ℕ, length, IsOk, IfOk, IfSome, IfNone};
ghost use Rattle.ltx_model.specs.Held.{bytes_of, IsForm};
ghost use Rattle.ltx_model.specs.Limits.{held_inside};

use crate::memory::NoMemory;
use std::alloc::Global;
use std::marker::Model;

/// How many bytes a byte string holds itself: with their number and the tag of their form they fill four words.
const INSIDE: usize = 30;

/// Where the bytes are.
#[derive(Debug, Drop)]
pub(crate) enum Form {
    /// The first `len` of these.
    Short { len: u8, bytes: [u8; INSIDE] },
    /// All of these.
    Long(Vec<u8>),
}

/// A byte string.
#[derive(Debug, Drop)]
pub(crate) struct Held {
    form: Form,
}

impl Model for Held {
    ghost use Rattle.std.specs.Prelude.{ℕ, List};
    ghost use Rattle.ltx_model.specs.Held.{bytes_of, IsForm};

    ghost Value = { List ℕ };

    ghost view = { λ h. bytes_of h.form };

    ghost invariant = { λ h. IsForm h.form };
}

/// The bytes where they are few enough to be held inside.
fn short_of(bytes: &[u8]) -> Option<Form>
    ensures some { IfSome result (λ form. (bytes_of form ≡ bytes.now) × IsForm form) }
    ensures none { IfNone result (held_inside < length bytes.now) }
{
    if bytes.len() > INSIDE {
        return None;
    }
    let mut held = [0; INSIDE];
    held[..bytes.len()].copy_from_slice(bytes);
    Some(Form::Short {
        len: bytes.len() as u8,
        bytes: held,
    })
}

impl Held {
    /// The bytes of a vector, which is let go where they are few.
    pub(crate) fn from_vec(bytes: Vec<u8>) -> Held
        ensures value { result ≡ bytes.items }
    {
        match short_of(&bytes) {
            Some(form) => Held { form },
            None => Held {
                form: Form::Long(bytes),
            },
        }
    }

    /// These bytes. Memory is taken only where they are more than 30.
    pub(crate) fn from_slice(alloc: Global, bytes: &[u8]) -> Result<Held, NoMemory>
        ensures value { IfOk result (λ held. held ≡ bytes.now) }
        ensures short { length bytes.now ≤ held_inside → IsOk result }
    {
        match short_of(bytes) {
            Some(form) => Ok(Held { form }),
            None => Ok(Held {
                form: Form::Long(Vec::from_slice(alloc, bytes)?),
            }),
        }
    }

    /// The bytes.
    pub(crate) fn bytes(&self) -> &[u8]
        ensures value { result.now ≡ self.now }
    {
        match &self.form {
            Form::Short { len, bytes } => &bytes[..usize::from(*len)],
            Form::Long(bytes) => bytes,
        }
    }

    /// The same bytes. Memory is taken only where they are more than 30.
    pub(crate) fn copy(&self) -> Result<Held, NoMemory>
        ensures equal { IfOk result (λ held. held ≡ self.now) }
    {
        match &self.form {
            Form::Short { len, bytes } => Ok(Held {
                form: Form::Short {
                    len: *len,
                    bytes: *bytes,
                },
            }),
            Form::Long(bytes) => Ok(Held {
                form: Form::Long(bytes.clone()?),
            }),
        }
    }
}

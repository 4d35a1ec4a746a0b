//! The plain form of a noted operation: what it looked up and what it wrote.
//! The records of commits and the checks read transactions through it alone.

ghost use Rattle.std.specs.Prelude.{◌≡◌, ℕ, List, IfOk};
ghost use Rattle.ltx_model.specs.declared.looked.Noted.{Noted};

use crate::bytes::{Bound, Key};
use crate::copies::{Copies, copy_of_option};
use crate::memory::NoMemory;
use crate::numbers::{Table, Tx};
use crate::writes::{KeyList, Look, LookList};
use std::alloc::Global;

/// What an operation reached of its table. `own` names what the transaction had written before:
/// whether the key is such a one, or the keys of the range that are.
#[derive(Debug, Drop)]
pub enum Reach {
    Nothing,
    Point {
        key: Key,
        look: Option<Look>,
        own: bool,
    },
    Range {
        low: Bound,
        high: Bound,
        looks: LookList,
        own: KeyList,
    },
}

/// A noted operation: its table, what it reached, and the key that it wrote.
#[derive(Debug, Drop)]
pub struct Noted {
    pub table: Table,
    pub reach: Reach,
    pub write: Option<Key>,
}

/// A transaction with its noted operations.
pub trait Looked {
    // Its number.
    ghost tx_of: { Self → ℕ };
    // Its operations, in their order.
    ghost noted_of: { Self → List Noted };

    /// Its number.
    fn tx(&self) -> Tx
        ensures value { result ≡ tx_of self.now };

    /// Its noted operations, in the order in which they were answered.
    fn noted(&self) -> &[Noted]
        ensures value { result.now ≡ noted_of self.now };
}

impl Reach {
    /// A reach that equals this one.
    pub fn copy(&self, alloc: Global) -> Result<Reach, NoMemory>
        ensures equal { IfOk result (λ reach. reach ≡ self.now) }
    {
        match self {
            Reach::Nothing => Ok(Reach::Nothing),
            Reach::Point { key, look, own } => Ok(Reach::Point {
                key: key.copy()?,
                look: copy_of_option(look)?,
                own: *own,
            }),
            Reach::Range {
                low,
                high,
                looks,
                own,
            } => Ok(Reach::Range {
                low: low.copy()?,
                high: high.copy()?,
                looks: looks.copy(alloc)?,
                own: own.copy(alloc)?,
            }),
        }
    }
}

impl Noted {
    /// A note that equals this one.
    pub fn copy(&self, alloc: Global) -> Result<Noted, NoMemory>
        ensures equal { IfOk result (λ noted. noted ≡ self.now) }
    {
        Ok(Noted {
            table: self.table,
            reach: self.reach.copy(alloc)?,
            write: copy_of_option(&self.write)?,
        })
    }
}

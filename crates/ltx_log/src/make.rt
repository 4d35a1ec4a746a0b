//! Making a log of a blank disk, in at most three steps. Each image on the way is blank or a log without frames.

ghost use Rattle.std.specs.Prelude.{◌≡◌, ◌≤◌, ◌∷◌, ◌++◌, [], ℕ, List, length, OnOk, OnErr, Some, None, IfSome, IfNone};
ghost use Rattle.ltx_model.specs.Contents.{IsBlank, IsUnopened, header};
ghost use Rattle.ltx_outside.specs.Faults.{Rose};
ghost use Rattle.ltx_log.specs.Images.{IsStill, EachSince, StaysTold};
ghost use Rattle.ltx_log.specs.Readings.{IsFront};
ghost use Rattle.ltx_log.specs.Making.{IsShut, Lacks, IsFresh};

use crate::front::has_header;
use crate::settle::settle;
use ltx_outside::{Disk, Failed};

/// The header's bytes behind its gate, and the first frame's gate, which is closed.
const BEHIND: [u8; 17] = [76, 84, 88, 76, 79, 71, 48, 49, 0, 0, 0, 0, 0, 0, 0, 0, 0];

/// How much of a header a blank disk lacks.
#[derive(Clone, Copy, Debug, PartialEq, Eq)]
pub(crate) enum Lack {
    /// All of it.
    All,
    /// What stands behind its gate, which is shut.
    Header,
    /// Its open gate alone.
    Gate,
}

/// How much of a header a blank disk lacks, by its size and its first bytes.
pub(crate) fn lack_of(size: u64, front: &[u8]) -> Lack
    ensures { (bytes : List ℕ) → IsFront bytes size front.now → IsBlank bytes → Lacks bytes result }
{
    if size == 18 && has_header(front) && front.last() == Some(&0) {
        Lack::Gate
    } else if front.first() == Some(&0) {
        Lack::Header
    } else {
        Lack::All
    }
}

/// Opens the header's gate, all else of which stands there.
fn open_header<D: Disk>(disk: &mut D) -> Result<(), Failed>
    requires unopened { IfSome (D.content disk.old) IsUnopened }
    requires still { IsStill (D.content disk.old) (D.crashes disk.old) }
    ensures made { OnOk result (IfSome (D.content disk.old) (λ bytes. D.content disk.new ≡ Some (1 ∷ header ++ 0 ∷ []))) }
    ensures since { EachSince (λ bytes. IsFresh) (D.content disk.old) (D.crashes disk.old) (D.crashes disk.new) }
    ensures told { StaysTold (D.content disk.old) (D.content disk.new) }
    ensures untold { IfNone (D.content disk.old) (D.content disk.new ≡ None) }
    ensures secret { IfNone (D.crashes disk.old) (D.crashes disk.new ≡ None) }
    ensures settled { OnOk result (IsStill (D.content disk.new) (D.crashes disk.new)) }
    ensures counted { D.faults disk.old ≤ D.faults disk.new }
    ensures calm { OnOk result (D.faults disk.new ≡ D.faults disk.old) }
    ensures cause { OnErr result (Rose (D.faults disk.old) (D.faults disk.new)) }
{
    settle(disk, 0, &[1])
}

/// Writes what stands behind the header's gate, which is shut, and opens it.
fn write_header<D: Disk>(disk: &mut D) -> Result<(), Failed>
    requires shut { IfSome (D.content disk.old) IsShut }
    requires still { IsStill (D.content disk.old) (D.crashes disk.old) }
    ensures made { OnOk result (IfSome (D.content disk.old) (λ bytes. D.content disk.new ≡ Some (1 ∷ header ++ 0 ∷ []))) }
    ensures since { EachSince (λ bytes. IsFresh) (D.content disk.old) (D.crashes disk.old) (D.crashes disk.new) }
    ensures told { StaysTold (D.content disk.old) (D.content disk.new) }
    ensures untold { IfNone (D.content disk.old) (D.content disk.new ≡ None) }
    ensures secret { IfNone (D.crashes disk.old) (D.crashes disk.new ≡ None) }
    ensures settled { OnOk result (IsStill (D.content disk.new) (D.crashes disk.new)) }
    ensures counted { D.faults disk.old ≤ D.faults disk.new }
    ensures calm { OnOk result (D.faults disk.new ≡ D.faults disk.old) }
    ensures cause { OnErr result (Rose (D.faults disk.old) (D.faults disk.new)) }
{
    match settle(disk, 1, &BEHIND) {
        Ok(()) => open_header(disk),
        Err(fault) => Err(fault),
    }
}

/// Makes a header's shut gate of at most one byte, and the rest behind it.
fn write_all<D: Disk>(disk: &mut D) -> Result<(), Failed>
    requires short { IfSome (D.content disk.old) (λ bytes. length bytes ≤ 1) }
    requires still { IsStill (D.content disk.old) (D.crashes disk.old) }
    ensures made { OnOk result (IfSome (D.content disk.old) (λ bytes. D.content disk.new ≡ Some (1 ∷ header ++ 0 ∷ []))) }
    ensures since { EachSince (λ bytes. IsFresh) (D.content disk.old) (D.crashes disk.old) (D.crashes disk.new) }
    ensures told { StaysTold (D.content disk.old) (D.content disk.new) }
    ensures untold { IfNone (D.content disk.old) (D.content disk.new ≡ None) }
    ensures secret { IfNone (D.crashes disk.old) (D.crashes disk.new ≡ None) }
    ensures settled { OnOk result (IsStill (D.content disk.new) (D.crashes disk.new)) }
    ensures counted { D.faults disk.old ≤ D.faults disk.new }
    ensures calm { OnOk result (D.faults disk.new ≡ D.faults disk.old) }
    ensures cause { OnErr result (Rose (D.faults disk.old) (D.faults disk.new)) }
{
    match settle(disk, 0, &[0]) {
        Ok(()) => write_header(disk),
        Err(fault) => Err(fault),
    }
}

/// Makes a log without frames of a blank disk on which nothing is pending.
pub(crate) fn make_log<D: Disk>(disk: &mut D, lack: Lack) -> Result<(), Failed>
    requires lacks { IfSome (D.content disk.old) (λ bytes. Lacks bytes lack) }
    requires still { IsStill (D.content disk.old) (D.crashes disk.old) }
    ensures made { OnOk result (IfSome (D.content disk.old) (λ bytes. D.content disk.new ≡ Some (1 ∷ header ++ 0 ∷ []))) }
    ensures since { EachSince (λ bytes. IsFresh) (D.content disk.old) (D.crashes disk.old) (D.crashes disk.new) }
    ensures told { StaysTold (D.content disk.old) (D.content disk.new) }
    ensures untold { IfNone (D.content disk.old) (D.content disk.new ≡ None) }
    ensures secret { IfNone (D.crashes disk.old) (D.crashes disk.new ≡ None) }
    ensures settled { OnOk result (IsStill (D.content disk.new) (D.crashes disk.new)) }
    ensures counted { D.faults disk.old ≤ D.faults disk.new }
    ensures calm { OnOk result (D.faults disk.new ≡ D.faults disk.old) }
    ensures cause { OnErr result (Rose (D.faults disk.old) (D.faults disk.new)) }
{
    match lack {
        Lack::All => write_all(disk),
        Lack::Header => write_header(disk),
        Lack::Gate => open_header(disk),
    }
}

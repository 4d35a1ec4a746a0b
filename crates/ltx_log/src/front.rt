//! What a disk is, by its size and its first bytes.

ghost use Rattle.std.specs.Prelude.{◌≡◌, ◌≤◌, ◌↔◌, ℕ, List, length, IfOk, IfErr, IfSome, OnOk, IsTrue};
ghost use Rattle.ltx_model.specs.Contents.{HasHeader, IsBlank, IsLog};
ghost use Rattle.ltx_log.specs.Causes.{IsDeviceFault};
ghost use Rattle.ltx_log.specs.Readings.{IsKind, IsFront};
ghost use Rattle.ltx_log.specs.declared.front.Kind.TheVariants as kinds;

use crate::fault::OpenFault;
use ltx_outside::Disk;
use std::alloc::Global;

/// The bytes behind the header's gate.
pub(crate) const HEADER: [u8; 16] = [76, 84, 88, 76, 79, 71, 48, 49, 0, 0, 0, 0, 0, 0, 0, 0];

/// Where the gate of the first frame stands.
pub(crate) const FIRST_GATE: u64 = 17;

/// What a disk is: nothing yet, a log, or something else.
#[derive(Clone, Copy, Debug, PartialEq, Eq)]
pub(crate) enum Kind {
    Blank,
    Log,
    Foreign,
}

/// The first bytes of a disk, as many as a header and a gate have, where there are so many.
pub(crate) fn front_of<D: Disk>(
    alloc: Global,
    disk: &mut D,
    size: u64,
) -> Result<Vec<u8>, OpenFault>
    requires size { IfSome (D.content disk.old) (λ bytes. length bytes ≡ size) }
    ensures front { IfOk result (λ front. IfSome (D.content disk.old) (λ bytes. IsFront bytes size front.items)) }
    ensures kept { D.content disk.new ≡ D.content disk.old }
    ensures images { D.crashes disk.new ≡ D.crashes disk.old }
    ensures counted { D.faults disk.old ≤ D.faults disk.new }
    ensures calm { OnOk result (D.faults disk.new ≡ D.faults disk.old) }
    ensures cause { IfErr result (IsDeviceFault (D.faults disk.old) (D.faults disk.new)) }
{
    let mut front = Vec::new(alloc);
    match front.resize(size.min(18) as usize, 0) {
        Ok(()) => {}
        Err(_) => return Err(OpenFault::NoMemory),
    }
    match disk.read_at(0, &mut front) {
        Ok(()) => Ok(front),
        Err(_) => Err(OpenFault::DiskFault),
    }
}

/// Whether the header's bytes stand behind its gate.
pub(crate) fn has_header(front: &[u8]) -> bool
    ensures { IsTrue result ↔ HasHeader front.now }
{
    front.len() >= 17 && &front[1..17] == HEADER.as_slice()
}

/// Whether a disk is blank: it has at most one byte, or no more than a header whose gate is 0, or a header that lacks its open
/// gate alone.
fn is_blank(size: u64, front: &[u8]) -> bool
    ensures { (bytes : List ℕ) → IsFront bytes size front.now → IsTrue result ↔ IsBlank bytes }
{
    size <= 1
        || (size <= 18 && front.first() == Some(&0))
        || (size == 18
            && has_header(front)
            && front.first() != Some(&1)
            && front.last() == Some(&0))
}

/// Whether a disk is a log.
fn is_log(size: u64, front: &[u8]) -> bool
    ensures long { IsTrue result → 18 ≤ size }
    ensures log { (bytes : List ℕ) → IsFront bytes size front.now → IsTrue result ↔ IsLog bytes }
{
    size >= 18 && front.first() == Some(&1) && has_header(front)
}

/// What a disk is.
pub(crate) fn kind_of(size: u64, front: &[u8]) -> Kind
    ensures long { result ≡ kinds.Log → 18 ≤ size }
    ensures kind { (bytes : List ℕ) → IsFront bytes size front.now → IsKind bytes result }
{
    if is_blank(size, front) {
        Kind::Blank
    } else if is_log(size, front) {
        Kind::Log
    } else {
        Kind::Foreign
    }
}

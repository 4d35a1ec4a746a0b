//! The frame under an open gate.

ghost use Rattle.std.specs.Prelude.{◌≡◌, ◌≤◌, ◌<◌, ◌+◌, ◌^◌, ◌↔◌, ℕ, length, IfOk, IfErr, IfSome, IfNone, OnOk, IsTrue, option_map};
ghost use Rattle.ltx_model.specs.Frames as frames;
ghost use Rattle.ltx_model.specs.Contents.{IsOpenAt, next_gate};
ghost use Rattle.ltx_model.specs.Spellings.{Spells};
ghost use Rattle.ltx_log.specs.Causes.{IsDeviceFault};
ghost use Rattle.ltx_log.specs.Readings.{HasLength, FindsBody, FindsFrame};

use crate::fault::OpenFault;
use ltx_frame::decode::decode_frame;
use ltx_frame::frame::Frame;
use ltx_model::memory::NoMemory;
use ltx_outside::{Disk, LOG_LIMIT};
use std::alloc::Global;

/// Whether a body of so many bytes and the next gate lie within the disk and the log's limit.
fn fits(size: u64, gate: u64, count: u64) -> bool
    requires limit { gate + 9 < 2 ^ 64 }
    ensures { IsTrue result ↔ ((gate + 9 + count + 1 ≤ size) × (gate + 9 + count + 1 ≤ 1099511627776)) }
{
    let most = size.min(LOG_LIMIT);
    gate + 9 < most && count <= most - (gate + 9) - 1
}

/// The body of so many bytes behind a gate. None where it and the next gate do not lie within the disk and the log's limit.
fn body_at<D: Disk>(
    alloc: Global,
    disk: &mut D,
    size: u64,
    gate: u64,
    count: u64,
) -> Result<Option<Vec<u8>>, OpenFault>
    requires size { IfSome (D.content disk.old) (λ bytes. length bytes ≡ size) }
    requires limit { gate + 9 < 2 ^ 64 }
    ensures room { IfOk result (λ body. IfSome body (λ b. (length b.items ≡ count) × (gate + 9 + count + 1 ≤ size) × (gate + 9 + count + 1 ≤ 1099511627776))) }
    ensures body { IfOk result (λ body. IfSome (D.content disk.old) (λ bytes. FindsBody bytes gate count (option_map (λ b. b.items) body))) }
    ensures kept { D.content disk.new ≡ D.content disk.old }
    ensures images { D.crashes disk.new ≡ D.crashes disk.old }
    ensures counted { D.faults disk.old ≤ D.faults disk.new }
    ensures calm { OnOk result (D.faults disk.new ≡ D.faults disk.old) }
    ensures cause { IfErr result (IsDeviceFault (D.faults disk.old) (D.faults disk.new)) }
{
    if !fits(size, gate, count) {
        return Ok(None);
    }
    let mut body = Vec::new(alloc);
    match body.resize(count as usize, 0) {
        Ok(()) => {}
        Err(_) => return Err(OpenFault::NoMemory),
    }
    match disk.read_at(gate + 9, &mut body) {
        Ok(()) => Ok(Some(body)),
        Err(_) => Err(OpenFault::DiskFault),
    }
}

/// The frame with this body, where its epoch is above that of the frame before.
fn frame_of(alloc: Global, body: &[u8], before: u32) -> Result<Option<Frame>, NoMemory>
    ensures found { IfOk result (λ found. IfSome found (λ frame. Spells body.now frame × (before + 1 ≤ frame.epoch))) }
    ensures none { IfOk result (λ found. IfNone found ((f : frames.Frame) → Spells body.now f → before + 1 ≤ f.epoch → ⊥)) }
{
    match decode_frame(alloc, body) {
        Err(fault) => Err(fault),
        Ok(None) => Ok(None),
        Ok(Some(frame)) => {
            if frame.epoch() > before {
                Ok(Some(frame))
            } else {
                Ok(None)
            }
        }
    }
}

/// The frame under the open gate at a place, with the length that stands behind the gate, and the place of the next gate.
/// None where no frame stands there whose epoch is above that of the frame before.
pub(crate) fn frame_at<D: Disk>(
    alloc: Global,
    disk: &mut D,
    size: u64,
    gate: u64,
    before: u32,
    told: Option<u64>,
) -> Result<Option<(Frame, u64)>, OpenFault>
    requires size { IfSome (D.content disk.old) (λ bytes. length bytes ≡ size) }
    requires limit { gate + 9 < 2 ^ 64 }
    requires open_gate { IfSome (D.content disk.old) (λ bytes. IsOpenAt bytes gate) }
    requires length_told { IfSome (D.content disk.old) (λ bytes. HasLength bytes gate told) }
    ensures frame { IfOk result (λ found. IfSome (D.content disk.old) (λ bytes. FindsFrame bytes gate before (option_map (λ p. p.0) found))) }
    ensures next { IfOk result (λ found. IfSome found (λ p. (p.1 ≡ next_gate gate p.0) × (p.1 < size) × (p.1 < 1099511627776))) }
    ensures kept { D.content disk.new ≡ D.content disk.old }
    ensures images { D.crashes disk.new ≡ D.crashes disk.old }
    ensures counted { D.faults disk.old ≤ D.faults disk.new }
    ensures calm { OnOk result (D.faults disk.new ≡ D.faults disk.old) }
    ensures cause { IfErr result (IsDeviceFault (D.faults disk.old) (D.faults disk.new)) }
{
    let Some(count) = told else {
        return Ok(None);
    };
    match body_at(alloc, disk, size, gate, count) {
        Err(fault) => Err(fault),
        Ok(None) => Ok(None),
        Ok(Some(body)) => match frame_of(alloc, &body, before) {
            Err(_) => Err(OpenFault::NoMemory),
            Ok(None) => Ok(None),
            Ok(Some(frame)) => Ok(Some((frame, gate + 9 + count))),
        },
    }
}

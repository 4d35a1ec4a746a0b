//! What is written of a frame before its gate is opened.

ghost use Rattle.std.specs.Prelude.{◌≡◌, ◌≤◌, ◌<◌, ◌+◌, ◌↔◌, [], ◌∷◌, ◌++◌, IfOk, IfSome, IfNone, length};
ghost use Rattle.ltx_model.specs.Contents.{framed};
ghost use Rattle.ltx_model.specs.Spellings.{body_bytes};

use byteorder::{BigEndian, ByteOrder};
use ltx_frame::encode::encode_frame;
use ltx_frame::frame::Frame;
use ltx_model::memory::NoMemory;
use ltx_outside::LOG_LIMIT;
use std::alloc::Global;

/// The length of the frame's body, the body, and a next gate of 0.
pub(crate) fn piece_of(alloc: Global, frame: &Frame) -> Result<Vec<u8>, NoMemory>
    ensures piece { IfOk result (λ piece. piece.items ≡ framed (body_bytes frame.now) ++ 0 ∷ []) }
{
    let mut piece = Vec::new(alloc);
    piece.resize(8, 0)?;
    encode_frame(frame, &mut piece)?;
    let count = (piece.len() - 8) as u64;
    BigEndian::write_u64(&mut piece, count);
    piece.push(0)?;
    Ok(piece)
}

/// The place of the next gate where a piece of so many bytes stands behind a gate, if it lies within the log's limit.
pub(crate) fn next_gate(gate: u64, size: u64) -> Option<u64>
    requires within { gate < 1099511627776 }
    ensures some { IfSome result (λ next. (next ≡ gate + size) × (next < 1099511627776)) }
    ensures none { IfNone result (1099511627776 ≤ gate + size) }
{
    if size < LOG_LIMIT - gate {
        Some(gate + size)
    } else {
        None
    }
}

//! A disk in memory, for tests and programs without a file. It tells its bytes, and nothing of crashes.

ghost use Rattle.std.specs.Prelude.{◌≡◌, [], ◌≤◌, ◌<◌, ◌↔◌, ◌⊎◌, ◌+◌, Some, length, vec_capacity, take, drop, IsErr, IsTrue, IfOk, OnOk, OnErr};
ghost use Rattle.ltx_outside.specs.Contents.{overwritten};
ghost use Rattle.ltx_outside.specs.Memory.{CountsCall, is_to_fail, no_calls};

use crate::calls::Calls;
use crate::disk::Disk;
use crate::failed::Failed;
use ltx_model::memory::NoMemory;
use std::marker::Model;

/// Bytes in memory, with room for so many. It fails the calls of given numbers, and each write past its room.
#[derive(Debug, Drop)]
pub struct MemDisk {
    bytes: Vec<u8>,
    room: usize,
    calls: Calls,
}

impl Model for MemDisk {
    ghost use Rattle.std.specs.Prelude.{◌≤◌, vec_capacity};
    ghost use Rattle.ltx_outside.specs.Memory.{DiskState};

    ghost Value = { DiskState };

    ghost view = { λ d. record { bytes = d.bytes.items; room = d.room; calls = d.calls } };

    ghost invariant = { λ d. d.room ≤ vec_capacity d.bytes };
}

impl MemDisk {
    /// A disk with these bytes and room for so many in all, that fails the calls of these numbers, counted from 1.
    /// After `NoMemory` the bytes are gone.
    pub fn new(bytes: Vec<u8>, room: usize, failing: Vec<u64>) -> Result<MemDisk, NoMemory>
        ensures { IfOk result (λ disk. disk ≡ record { bytes = bytes.items; room = room; calls = no_calls failing.items }) }
    {
        let mut bytes = bytes;
        bytes.reserve(room.saturating_sub(bytes.len()))?;
        Ok(MemDisk {
            bytes,
            room,
            calls: Calls::new(failing),
        })
    }

    /// All that it holds.
    pub fn bytes(&self) -> &[u8]
        ensures { result.now ≡ self.now.bytes }
    {
        &self.bytes
    }
}

impl Disk for MemDisk {
    ghost use Rattle.std.specs.Prelude.{Some, None};

    ghost content = { λ d. Some d.bytes };

    ghost crashes = { λ _. None };

    ghost faults = { λ d. d.calls.faults };

    /// It fails exactly where its number is one of those that fail.
    fn len(&mut self) -> Result<u64, Failed>
        ensures length { IfOk result (λ n. n ≡ length self.old.bytes) }
        ensures kept { (self.new.bytes ≡ self.old.bytes) × (self.new.room ≡ self.old.room) }
        ensures planned { IsErr result ↔ IsTrue (is_to_fail self.new.calls) }
        ensures counted { CountsCall self.old.calls self.new.calls result }
        ensures sound { self.old.calls.failing ≡ [] → self.new.calls.faults ≡ self.old.calls.faults }
    {
        self.calls.next()?;
        Ok(self.bytes.len() as u64)
    }

    /// It fails exactly where its number is one of those that fail.
    fn read_at(&mut self, at: u64, buffer: &mut [u8]) -> Result<(), Failed>
        requires within { at + length buffer.old ≤ length self.old.bytes }
        ensures bytes { OnOk result (buffer.new ≡ take (length buffer.old) (drop at self.old.bytes)) }
        ensures kept { (self.new.bytes ≡ self.old.bytes) × (self.new.room ≡ self.old.room) }
        ensures planned { IsErr result ↔ IsTrue (is_to_fail self.new.calls) }
        ensures counted { CountsCall self.old.calls self.new.calls result }
        ensures sound { self.old.calls.failing ≡ [] → self.new.calls.faults ≡ self.old.calls.faults }
    {
        self.calls.next()?;
        let (_, from) = self.bytes.split_at(at as usize);
        buffer.copy_from_slice(&from[..buffer.len()]);
        Ok(())
    }

    /// It fails exactly where its number is one of those that fail, or where the piece ends past the room.
    /// After a failure its bytes are as before.
    fn write_at(&mut self, at: u64, piece: &[u8]) -> Result<(), Failed>
        requires within { at ≤ length self.old.bytes }
        ensures bytes { OnOk result (self.new.bytes ≡ overwritten at piece.now self.old.bytes) }
        ensures kept { OnErr result (self.new.bytes ≡ self.old.bytes) }
        ensures room { self.new.room ≡ self.old.room }
        ensures planned { IsErr result ↔ (IsTrue (is_to_fail self.new.calls) ⊎ (self.old.room < at + length piece.now)) }
        ensures counted { CountsCall self.old.calls self.new.calls result }
        ensures sound { self.old.calls.failing ≡ [] → at + length piece.now ≤ self.old.room → self.new.calls.faults ≡ self.old.calls.faults }
    {
        self.calls.next()?;
        let at = at as usize;
        let fits = at <= self.room && piece.len() <= self.room - at;
        if !fits || overwrite(&mut self.bytes, at, piece).is_err() {
            return Err(self.calls.fault());
        }
        Ok(())
    }

    /// It fails exactly where its number is one of those that fail.
    fn sync(&mut self) -> Result<(), Failed>
        ensures kept { (self.new.bytes ≡ self.old.bytes) × (self.new.room ≡ self.old.room) }
        ensures planned { IsErr result ↔ IsTrue (is_to_fail self.new.calls) }
        ensures counted { CountsCall self.old.calls self.new.calls result }
        ensures sound { self.old.calls.failing ≡ [] → self.new.calls.faults ≡ self.old.calls.faults }
    {
        self.calls.next()
    }
}

/// Puts a piece over the bytes from a place on, and behind them what is longer. It allocates only where capacity is missing.
pub(crate) fn overwrite(bytes: &mut Vec<u8>, at: usize, piece: &[u8]) -> Result<(), NoMemory>
    requires within { at ≤ length bytes.old.items }
    ensures bytes { OnOk result (bytes.new.items ≡ overwritten at piece.now bytes.old.items) }
    ensures kept { OnErr result (bytes.new.items ≡ bytes.old.items) }
    ensures capacity { vec_capacity bytes.old ≤ vec_capacity bytes.new }
    ensures full { OnErr result (vec_capacity bytes.old < at + length piece.now) }
{
    let behind = piece.len().min(bytes.len() - at);
    let (over, more) = piece.split_at(behind);
    bytes.extend_from_slice(more)?;
    bytes[at..at + behind].copy_from_slice(over);
    Ok(())
}

//! A disk in memory that tells what a crash may leave, and of which each image can be had.

ghost use Rattle.std.specs.Prelude.{◌≡◌, ◌≤◌, ◌<◌, ◌+◌, ◌^◌, ◌∷◌, ◌++◌, [], max, length, vec_capacity, get_or, IfOk, OnOk, OnErr, ℕ, IsTrue, IsErr};
ghost use Rattle.ltx_model.specs.Disks.{Images, IsImage, only, synced, wrote, is_written};
ghost use Rattle.ltx_outside.specs.Contents.{overwritten};
ghost use Rattle.ltx_outside.specs.Faults.{next_count};
ghost use Rattle.ltx_outside.specs.Memory.{is_to_fail};
ghost use Rattle.ltx_outside.specs.Crash.{byte_of, images_after, settled_disk, IsFilled, KeepsImages};

use crate::calls::Calls;
use crate::disk::Disk;
use crate::failed::Failed;
use crate::mem_disk::overwrite;
use ltx_model::memory::NoMemory;
use std::alloc::Global;
use std::marker::Model;

/// Which of the images after a call is meant: one of that length, as far as an image may have it, in which each byte that
/// is free is that of `fill` at its place, or 0 past the end of `fill`.
#[derive(Debug, Drop)]
pub struct Choice {
    pub length: u64,
    pub fill: Vec<u8>,
}

/// What a crash between two syncs may leave: the bytes fixed by the earlier one, the ranges written since, the newest first,
/// and the greatest length since.
#[derive(Debug, Drop)]
struct Between {
    fixed: Vec<u8>,
    written: Vec<(u64, u64)>,
    longest: u64,
}

impl Model for Between {
    ghost use Rattle.std.specs.Prelude.{◌≤◌, length};
    ghost use Rattle.ltx_model.specs.Disks.{Images};

    ghost Value = { Images };

    ghost view = { λ b. record { fixed = b.fixed.items; written = b.written.items; longest = b.longest } };

    ghost invariant = { λ b. length b.fixed.items ≤ b.longest };
}

impl Between {
    /// Nothing but these bytes.
    fn new(alloc: Global, bytes: &[u8]) -> Result<Between, NoMemory>
        ensures only { IfOk result (λ between. between ≡ only bytes.now) }
    {
        Ok(Between {
            fixed: bytes.to_vec(alloc)?,
            written: Vec::new(alloc),
            longest: bytes.len() as u64,
        })
    }

    /// The same once more.
    fn copy(&self, alloc: Global) -> Result<Between, NoMemory>
        ensures equal { IfOk result (λ between. between ≡ self.now) }
    {
        Ok(Between {
            fixed: self.fixed.to_vec(alloc)?,
            written: self.written.to_vec(alloc)?,
            longest: self.longest,
        })
    }

    /// Counts a write.
    fn note(&mut self, at: u64, count: u64) -> Result<(), NoMemory>
        requires { at + count < 2 ^ 64 }
        ensures noted { OnOk result (self.new ≡ record { fixed = self.old.fixed; written = (at, count) ∷ self.old.written; longest = max self.old.longest (at + count) }) }
        ensures kept { OnErr result (self.new ≡ self.old) }
    {
        self.written.insert(0, (at, count))?;
        self.longest = self.longest.max(at + count);
        Ok(())
    }

    /// Whether a place was written.
    fn is_written(&self, place: u64) -> bool
        ensures { result ≡ is_written self.now.written place }
    {
        self.written
            .iter()
            .any(|(at, count)| *at <= place && place - *at < *count)
    }

    /// The byte of an image.
    fn byte(&self, fill: &[u8], place: usize) -> u8
        ensures { result ≡ byte_of self.now fill.now place }
    {
        if place < self.fixed.len() && !self.is_written(place as u64) {
            return self.fixed[place];
        }
        if place < fill.len() {
            return fill[place];
        }
        0
    }

    /// The bytes of an image.
    fn filled(&self, alloc: Global, size: u64, fill: &[u8]) -> Result<Vec<u8>, NoMemory>
        ensures filled { IfOk result (λ image. IsFilled self.now size fill.now image.items) }
        ensures bounds { length self.now.fixed ≤ self.now.longest }
    {
        let size = size.min(self.longest).max(self.fixed.len() as u64) as usize;
        let mut image = Vec::new(alloc);
        for place in 0..size {
            image.push(self.byte(fill, place))?;
        }
        Ok(image)
    }

    /// The image of that length, as far as an image may have it, that is filled with these bytes and with zeros behind them.
    fn image(&self, alloc: Global, size: u64, fill: &[u8]) -> Result<Vec<u8>, NoMemory>
        ensures sound { IfOk result (λ image. IsImage self.now image.items) }
        ensures complete { IfOk result (λ image. IsImage self.now fill.now → size ≡ length fill.now → image.items ≡ fill.now) }
    {
        self.filled(alloc, size, fill)
    }
}

/// Bytes in memory. It fails the calls of given numbers, each write past its room, and each call past so many; such a write
/// counts as one.
#[derive(Debug, Drop)]
pub struct CrashDisk {
    alloc: Global,
    bytes: Vec<u8>,
    room: usize,
    current: Between,
    past: Vec<Between>,
    after: Vec<Between>,
    most: usize,
    calls: Calls,
}

impl Model for CrashDisk {
    ghost use Rattle.ltx_outside.specs.Crash.{CrashState};

    ghost Value = { CrashState };

    ghost view = { λ d. record { bytes = d.bytes.items; room = d.room; crashes = record { now = d.current; past = d.past.items }; after = d.after.items; most = d.most; calls = d.calls } };
}

impl CrashDisk {
    /// A disk with these bytes, which are the only image, and room for so many in all. It fails the calls of these numbers,
    /// counted from 1, and those past `most`. After `NoMemory` the bytes are gone.
    pub fn new(
        alloc: Global,
        bytes: Vec<u8>,
        room: usize,
        most: usize,
        failing: Vec<u64>,
    ) -> Result<CrashDisk, NoMemory>
        ensures { IfOk result (λ disk. disk ≡ settled_disk bytes.items room most failing.items) }
    {
        let mut bytes = bytes;
        bytes.reserve(room.saturating_sub(bytes.len()))?;
        let current = Between::new(alloc, &bytes)?;
        let mut after = Vec::new(alloc);
        after.push(current.copy(alloc)?)?;
        Ok(CrashDisk {
            alloc,
            bytes,
            room,
            current,
            past: Vec::new(alloc),
            after,
            most,
            calls: Calls::new(failing),
        })
    }

    /// All that it holds.
    pub fn bytes(&self) -> &[u8]
        ensures { result.now ≡ self.now.bytes }
    {
        &self.bytes
    }

    /// An image that a crash may leave after so many calls, or now where fewer were made. Each one can be had: where `fill`
    /// is an image and `length` its length, that one is given.
    pub fn image(&self, after: usize, choice: &Choice) -> Result<Vec<u8>, NoMemory>
        ensures sound { IfOk result (λ image. IsImage (images_after after self.now) image.items) }
        ensures complete { IfOk result (λ image. IsImage (images_after after self.now) choice.now.fill.items → choice.now.length ≡ length choice.now.fill.items → image.items ≡ choice.now.fill.items) }
    {
        match self.after.get(after) {
            Some(between) => between.image(self.alloc, choice.length, &choice.fill),
            None => self.current.image(self.alloc, choice.length, &choice.fill),
        }
    }
}

impl CrashDisk {
    /// Counts one more call, which fails where its number is one of those that are to fail, or past the most.
    fn count(&mut self) -> Result<(), Failed>
        ensures calm { OnOk result (self.new.calls.faults ≡ self.old.calls.faults) }
        ensures rose { OnErr result (self.new.calls.faults ≡ next_count self.old.calls.faults) }
        ensures later { self.old.calls.faults ≤ self.new.calls.faults }
        ensures kept { (self.new.bytes ≡ self.old.bytes) × (self.new.crashes ≡ self.old.crashes) × (self.new.after ≡ self.old.after) × (self.new.room ≡ self.old.room) × (self.new.most ≡ self.old.most) }
    {
        self.calls.next()?;
        if self.calls.made() > self.most as u64 {
            return Err(self.calls.fault());
        }
        Ok(())
    }

    /// Keeps the images of now as those after this call, unless there is no memory for them.
    fn keep(&mut self)
        ensures images { KeepsImages self.old self.new }
        ensures kept { (self.new.bytes ≡ self.old.bytes) × (self.new.crashes ≡ self.old.crashes) × (self.new.calls ≡ self.old.calls) × (self.new.room ≡ self.old.room) × (self.new.most ≡ self.old.most) }
    {
        if let Ok(images) = self.current.copy(self.alloc) {
            let _ = self.after.push(images);
        }
    }

    /// Counts a call that leaves the disk as it is.
    fn look(&mut self) -> Result<(), Failed>
        ensures calm { OnOk result (self.new.calls.faults ≡ self.old.calls.faults) }
        ensures rose { OnErr result (self.new.calls.faults ≡ next_count self.old.calls.faults) }
        ensures later { self.old.calls.faults ≤ self.new.calls.faults }
        ensures images { KeepsImages self.old self.new }
        ensures kept { (self.new.bytes ≡ self.old.bytes) × (self.new.crashes ≡ self.old.crashes) × (self.new.room ≡ self.old.room) × (self.new.most ≡ self.old.most) }
    {
        let counted = self.count();
        self.keep();
        counted
    }

    /// Makes the bytes the only image.
    fn turn(&mut self) -> Result<(), NoMemory>
        ensures turned { OnOk result (self.new.crashes ≡ synced self.old.bytes self.old.crashes) }
        ensures err { OnErr result (self.new.crashes ≡ self.old.crashes) }
        ensures kept { (self.new.bytes ≡ self.old.bytes) × (self.new.calls ≡ self.old.calls) × (self.new.after ≡ self.old.after) × (self.new.room ≡ self.old.room) × (self.new.most ≡ self.old.most) }
    {
        let next = Between::new(self.alloc, &self.bytes)?;
        self.past.reserve(1)?;
        let before = std::mem::replace(&mut self.current, next);
        self.past.push_reserved(before);
        Ok(())
    }

    /// A sync, before its images are kept.
    fn fix(&mut self) -> Result<(), Failed>
        ensures turned { OnOk result (self.new.crashes ≡ synced self.old.bytes self.old.crashes) }
        ensures err { OnErr result (self.new.crashes ≡ self.old.crashes) }
        ensures calm { OnOk result (self.new.calls.faults ≡ self.old.calls.faults) }
        ensures rose { OnErr result (self.new.calls.faults ≡ next_count self.old.calls.faults) }
        ensures later { self.old.calls.faults ≤ self.new.calls.faults }
        ensures kept { (self.new.bytes ≡ self.old.bytes) × (self.new.after ≡ self.old.after) × (self.new.room ≡ self.old.room) × (self.new.most ≡ self.old.most) }
    {
        self.count()?;
        match self.turn() {
            Ok(()) => Ok(()),
            Err(_) => Err(self.calls.fault()),
        }
    }

    /// Puts a piece at a place, where there is room.
    fn put(&mut self, at: usize, piece: &[u8]) -> Result<(), Failed>
        requires within { at ≤ length self.old.bytes }
        ensures bytes { OnOk result (self.new.bytes ≡ overwritten at piece.now self.old.bytes) }
        ensures err { OnErr result (self.new.bytes ≡ self.old.bytes) }
        ensures calm { OnOk result (self.new.calls.faults ≡ self.old.calls.faults) }
        ensures rose { OnErr result (self.new.calls.faults ≡ next_count self.old.calls.faults) }
        ensures later { self.old.calls.faults ≤ self.new.calls.faults }
        ensures kept { (self.new.crashes ≡ self.old.crashes) × (self.new.after ≡ self.old.after) × (self.new.room ≡ self.old.room) × (self.new.most ≡ self.old.most) }
    {
        self.count()?;
        let fits = at <= self.room && piece.len() <= self.room - at;
        if !fits || overwrite(&mut self.bytes, at, piece).is_err() {
            return Err(self.calls.fault());
        }
        Ok(())
    }
}

impl Disk for CrashDisk {
    ghost use Rattle.std.specs.Prelude.{Some};

    ghost content = { λ d. Some d.bytes };

    ghost crashes = { λ d. Some d.crashes };

    ghost faults = { λ d. d.calls.faults };

    fn len(&mut self) -> Result<u64, Failed> {
        self.look()?;
        Ok(self.bytes.len() as u64)
    }

    fn read_at(&mut self, at: u64, buffer: &mut [u8]) -> Result<(), Failed> {
        self.look()?;
        let (_, from) = self.bytes.split_at(at as usize);
        buffer.copy_from_slice(&from[..buffer.len()]);
        Ok(())
    }

    /// A write that fails counts as one, unless there was no memory to note it.
    fn write_at(&mut self, at: u64, piece: &[u8]) -> Result<(), Failed> {
        if self.current.note(at, piece.len() as u64).is_err() {
            return Err(self.calls.fault());
        }
        let done = self.put(at as usize, piece);
        self.keep();
        done
    }

    fn sync(&mut self) -> Result<(), Failed> {
        let done = self.fix();
        self.keep();
        done
    }
}

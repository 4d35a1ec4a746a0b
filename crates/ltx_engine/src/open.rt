//! An opening: the log is read whole, or made on a blank disk, and what it gives back is recovered.

ghost use Rattle.std.specs.Prelude.{◌≡◌, ◌≤◌, ◌<◌, ◌∷◌, [], ℕ, false, None, IfOk, IfErr, IfNone, IfSome, OnOk};
ghost use Rattle.ltx_model.specs.Restored.{IsRestored};
ghost use Rattle.ltx_model.specs.States.{IsSound, base_of};
ghost use Rattle.ltx_model.specs.Recovery.{IsRecovered};
ghost use Rattle.ltx_log.specs.Images.{IsStill, EachSince, StaysTold};
ghost use Rattle.ltx_log.specs.Running.{IsLogTo, EachNow};
ghost use Rattle.ltx_core.specs.Stands as core_stands;
ghost use Rattle.ltx_engine.specs.Stands.{StandsFor};
ghost use Rattle.ltx_engine.specs.Images.{RecoversAlike};
ghost use Rattle.ltx_engine.specs.Causes.{IsOpenCause, IsContentCause, LeavesContent, UnlessDiskFault};
ghost use Rattle.ltx_engine.specs.Openings.{base_found, IsOpenedOn};

use crate::engine::Engine;
use crate::fault::EngineOpenFault;
use ltx_core::Core;
use ltx_log::{Course, Log};
use ltx_model::base::Recovered;
use ltx_model::memory::NoMemory;
use ltx_outside::Disk;
use ltx_recover::recover;
use std::alloc::Global;
use std::marker::Model;

/// What an opening found: the core over the recovered rows, and where the log stands.
#[derive(Drop)]
pub struct Opening {
    core: Core,
    course: Course,
}

impl Model for Opening {
    ghost use Rattle.ltx_log.specs.Readings.{placed_in};
    ghost use Rattle.ltx_engine.specs.Openings.{Found, IsFound};

    ghost Value = { Found };

    ghost view = { λ o. record { core = o.core; frames = placed_in o.course.frames.items; gate = o.course.gate; epoch = o.course.epoch } };

    ghost invariant = { λ o. IsFound (record { core = o.core; frames = placed_in o.course.frames.items; gate = o.course.gate; epoch = o.course.epoch }) };
}

/// The core over what was recovered.
fn core_over(alloc: Global, base: Recovered) -> Result<Core, NoMemory>
    ensures stands { IfOk result (λ core. (gate : ℕ) → core_stands.StandsFor core (base_of base gate) []) }
    ensures kept { IsRestored base }
{
    let _ = base.last();
    Core::new(alloc, base)
}

/// Syncs the disk, reads the log on it or makes one where it is blank, and recovers what it holds. A fault of the disk that comes first
/// goes before the others. Where nothing was pending, each image since the call began, also after a refusal, recovers what the disk's
/// content recovered at entry. A refusal other than `DiskFault` leaves nothing pending and the content as it was, but that a log may
/// have been made of a blank disk before memory was wanting.
pub fn start<D: Disk>(alloc: Global, disk: &mut D) -> Result<Opening, EngineOpenFault>
    ensures recovered { IfOk result (λ o. IfSome (D.content disk.old) (λ bytes. IsRecovered bytes (base_found o))) }
    ensures log { IfOk result (λ o. IfSome (D.content disk.new) (λ bytes. IsLogTo bytes o.frames o.gate o.epoch)) }
    ensures since { IsStill (D.content disk.old) (D.crashes disk.old) → EachSince RecoversAlike (D.content disk.old) (D.crashes disk.old) (D.crashes disk.new) }
    ensures settled { OnOk result (IsStill (D.content disk.new) (D.crashes disk.new)) }
    ensures left { IfErr result (LeavesContent (D.content disk.old) (D.content disk.new)) }
    ensures left_still { IfErr result (UnlessDiskFault (IsStill (D.content disk.new) (D.crashes disk.new))) }
    ensures told { StaysTold (D.content disk.old) (D.content disk.new) }
    ensures untold { IfNone (D.content disk.old) (D.content disk.new ≡ None) }
    ensures secret { IfNone (D.crashes disk.old) (D.crashes disk.new ≡ None) }
    ensures cause { IfErr result (IsOpenCause (D.content disk.old) (D.faults disk.old) (D.faults disk.new)) }
    ensures counted { D.faults disk.old ≤ D.faults disk.new }
    ensures calm { OnOk result (D.faults disk.new ≡ D.faults disk.old) }
{
    let course = match ltx_log::start(alloc, disk) {
        Ok(course) => course,
        Err(fault) => return Err(EngineOpenFault::from(fault)),
    };
    let base = match recover(alloc, &course.frames) {
        Ok(base) => base,
        Err(fault) => return Err(EngineOpenFault::from(fault)),
    };
    let core = match core_over(alloc, base) {
        Ok(core) => core,
        Err(fault) => return Err(EngineOpenFault::from(fault)),
    };
    Ok(Opening { core, course })
}

impl<'d, D: Disk> Engine<'d, D> {
    /// The engine over the disk of an opening. It calls no device.
    pub fn over(alloc: Global, disk: &'d mut D, opening: Opening) -> Engine<'d, D>
        requires log { IfSome (D.content disk.old) (λ bytes. IsLogTo bytes opening.frames opening.gate opening.epoch) }
        requires still { IsStill (D.content disk.old) (D.crashes disk.old) }
        ensures sound { IsSound (base_found opening) }
        ensures stands { StandsFor result (base_found opening) [] }
        ensures loan { result.log.loan ≡ disk.entry.ghost_name }
        ensures content { result.log.content ≡ D.content disk.old }
        ensures crashes { result.log.crashes ≡ D.crashes disk.old }
        ensures faults { result.log.faults ≡ D.faults disk.old }
        ensures running { result.log.closed ≡ false }
        ensures images { EachNow (λ bytes image. IsRecovered image (base_found opening)) result.log.content result.log.crashes }
    {
        let Opening { core, course } = opening;
        Engine {
            alloc,
            core,
            log: Log::over(disk, &course),
        }
    }

    /// Opens the log on a disk, or makes one where it is blank, and recovers what it holds. What a refusal leaves of the disk is told by
    /// `start`, of which this is made.
    pub fn open(alloc: Global, disk: &'d mut D) -> Result<Engine<'d, D>, EngineOpenFault>
        ensures opened { IfOk result (IsOpenedOn (D.content disk.old)) }
        ensures cause { IfErr result (IsContentCause (D.content disk.old)) }
        ensures loan { IfOk result (λ engine. engine.log.loan ≡ disk.entry.ghost_name) }
        ensures running { IfOk result (λ engine. engine.log.closed ≡ false) }
        ensures settled { IfOk result (λ engine. IsStill engine.log.content engine.log.crashes) }
        ensures since { IsStill (D.content disk.old) (D.crashes disk.old) → IfOk result (λ engine. EachSince RecoversAlike (D.content disk.old) (D.crashes disk.old) engine.log.crashes) }
        ensures told { IfOk result (λ engine. StaysTold (D.content disk.old) engine.log.content) }
        ensures untold { IfNone (D.content disk.old) (IfOk result (λ engine. engine.log.content ≡ None)) }
        ensures secret { IfNone (D.crashes disk.old) (IfOk result (λ engine. engine.log.crashes ≡ None)) }
        ensures calm { IfOk result (λ engine. engine.log.faults ≡ D.faults disk.old) }
    {
        let opening = start(alloc, disk)?;
        Ok(Engine::over(alloc, disk, opening))
    }
}

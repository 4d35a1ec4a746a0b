//! The count of faults of a device of the system.

ghost use Rattle.std.specs.Prelude.{◌≡◌, Ok, IfOk};
ghost use Rattle.ltx_files.specs.Counts.{CountsFault};

use ltx_outside::Failed;
use std::io;

/// What a call of the system answered, with a fault counted where it failed.
pub(crate) fn counted<T>(faults: &mut u64, answer: io::Result<T>) -> Result<T, Failed>
    ensures same { IfOk result (λ value. answer ≡ Ok value) }
    ensures counts { CountsFault faults.old faults.new result }
{
    match answer {
        Ok(value) => Ok(value),
        Err(_) => {
            *faults = faults.saturating_add(1);
            Err(Failed)
        }
    }
}

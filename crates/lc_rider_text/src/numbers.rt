//! Places as numbers of 32 bits.
ghost use Rattle.std.specs.Prelude.{◌≡◌, IfOk};

use lc_base::OutOfMemory;

/// A place as a number. `OutOfMemory` is returned if it has more than 32 bits, as in no file.
pub fn number_at(place: usize) -> Result<u32, OutOfMemory>
    ensures { IfOk result (λ number. number ≡ place) }
{
    if place > u32::MAX as usize {
        return Err(OutOfMemory);
    }
    Ok(place as u32)
}

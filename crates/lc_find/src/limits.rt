//! Where the text of a certificate passes its limits.
ghost use Rattle.std.specs.Prelude.{◌<◌};

use lc_base::{DEPTH_LIMIT, FILE_LIMIT};

/// The bytes after the last proof: a bracket and the end of the line.
const LAST_BYTES: u64 = 2;

/// The least number of a proof with which a certificate's text, whose proofs are numbered from 0, is too large or too deep;
/// of the last one if none is.
pub(crate) fn number_beyond(text: &[u8], count: u64) -> u64
    requires { 0 < count }
    ensures { result < count }
{
    let mut depth: u64 = 0;
    let mut begun: u64 = 0;
    for (place, byte) in text.iter().enumerate() {
        match byte {
            b'(' => {
                depth = depth.saturating_add(1);
                if depth == 2 {
                    begun = begun.saturating_add(1);
                }
            }
            b')' => depth = depth.saturating_sub(1),
            _ => {}
        }
        if depth > DEPTH_LIMIT as u64 || place as u64 >= FILE_LIMIT - LAST_BYTES {
            break;
        }
    }
    begun.saturating_sub(1).min(count - 1)
}

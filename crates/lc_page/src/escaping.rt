//! Data without markup.
ghost use Rattle.std.specs.Prelude.{◌≡◌, ◌++◌, OnOk};
ghost use Rattle.lc_page.specs.Unmarked.{unmarked};

use lc_base::OutOfMemory;

/// Appends bytes of JSON text, with an escape of JSON for each byte of markup.
pub(crate) fn push_unmarked(text: &mut Vec<u8>, bytes: &[u8]) -> Result<(), OutOfMemory>
    ensures { OnOk result (text.new.items ≡ text.old.items ++ unmarked bytes.now) }
{
    for byte in bytes {
        match *byte {
            b'&' => text.extend_from_slice(b"\\u0026")?,
            b'<' => text.extend_from_slice(b"\\u003c")?,
            b'>' => text.extend_from_slice(b"\\u003e")?,
            plain => text.push(plain)?,
        }
    }
    Ok(())
}

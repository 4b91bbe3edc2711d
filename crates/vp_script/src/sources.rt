// What the program reads before it runs.
ghost use Rattle.std.specs.Prelude.{◌≡◌, ◌≤◌, ◌<◌, length, IfErr, IfOk, IsUtf8, OnOk};
ghost use Rattle.vp_script.specs.declared.error.ServeFault.TheVariants.{TooLong};

use crate::error::ServeFault;
use std::alloc::Global;
use std::io::{ErrorKind, Read};
use vp_design::TEXT_LIMIT;

/// The greatest length of a bundle, in bytes.
pub const BUNDLE_LIMIT: usize = 16_777_216;

/// The bytes of a reader, at most one more than the limit.
pub fn read_at_most<R: Read + Drop>(
    alloc: Global,
    reader: R,
    limit: usize,
) -> Result<Vec<u8>, ServeFault> {
    let mut bytes = Vec::new(alloc);
    match reader
        .take((limit as u64).saturating_add(1))
        .read_to_end(&mut bytes)
    {
        Ok(_) => Ok(bytes),
        Err(error) if error.kind() == ErrorKind::OutOfMemory => Err(ServeFault::NoMemory),
        Err(_) => Err(ServeFault::ReadFailed),
    }
}

/// The text of a design's bytes; or `TooLong` (1603), or a fault where they are no UTF-8.
pub fn text_of(bytes: &[u8], no_text: ServeFault) -> Result<&str, ServeFault>
    ensures ok { IfOk result (λ text. text.now ≡ bytes.now) }
    ensures accepted { OnOk result ((length bytes.now ≤ TEXT_LIMIT) × IsUtf8 bytes.now) }
    ensures too_long { IfErr result (λ e. TEXT_LIMIT < length bytes.now → e ≡ TooLong) }
    ensures no_text { IfErr result (λ e. length bytes.now ≤ TEXT_LIMIT
        → (e ≡ no_text) × (IsUtf8 bytes.now → ⊥)) }
{
    if bytes.len() > TEXT_LIMIT {
        return Err(ServeFault::TooLong);
    }
    match str::from_utf8(bytes) {
        Ok(text) => Ok(text),
        Err(_) => Err(no_text),
    }
}

ghost use Rattle.std.specs.Prelude.{◌≡◌, IfErr, IfOk, codes, option_map};
ghost use Rattle.std.specs.Str.{bytes_eq};
ghost use Rattle.vp_script.specs.Bundles.{cut_of};
ghost use Rattle.vp_script.specs.Scripts.{EndsBundleBy, IsBundle};

use crate::error::ServeFault;
use crate::script::{Ran, SEED_COUNT, run_script};
use crate::sources::{BUNDLE_LIMIT, text_of};
use std::alloc::Global;
use std::io::Write;
use vp_text::first_piece;
use vp_wire::Counted;

/// A line is `%%`.
fn is_mark(line: &[u8]) -> bool
    ensures { result ≡ bytes_eq line.now (codes "%%") }
{
    matches!(line, [b'%', b'%'])
}

/// What stands before the first line `%%`, and what stands after it.
pub(crate) fn cut(bytes: &[u8]) -> Option<(&[u8], &[u8])>
    ensures { option_map (λ c. (c.0.now, c.1.now)) result ≡ cut_of bytes.now }
{
    let mut left = Some(bytes);
    while let Some(rest) = left {
        let (line, following) = first_piece(rest, b'\n');
        if is_mark(line) {
            let start = bytes.len() - rest.len();
            return Some((&bytes[..start], following.unwrap_or(&[])));
        }
        left = following;
    }
    None
}

/// Runs a bundle: a design, a line `%%`, a policy, a line `%%`, and a script; or the first fault: `TooLong` (1603) of the bundle,
/// `BadBundle` (1601) where it has no two such lines, `TooLong` of its design, `BadBundle` where that is no UTF-8, before all of which
/// nothing is written; then those of `run_script`.
pub fn run_bundle<W: Write>(
    alloc: Global,
    bundle: &[u8],
    writer: &mut Counted<W>,
) -> Result<Ran, ServeFault>
    ensures script { IfOk result (λ ran. IsBundle ran.out_of_memory bundle.now
        (W.contents writer.old.inner) (W.contents writer.new.inner) ran.lines) }
    ensures fault { IfErr result (λ fault. EndsBundleBy bundle.now
        (W.contents writer.old.inner) (W.contents writer.new.inner) fault) }
{
    if bundle.len() > BUNDLE_LIMIT {
        return Err(ServeFault::TooLong);
    }
    let (design, rest) = cut(bundle).ok_or(ServeFault::BadBundle)?;
    let (policy, script) = cut(rest).ok_or(ServeFault::BadBundle)?;
    let text = text_of(design, ServeFault::BadBundle)?;
    let mut reader = Counted::new(script);
    run_script(alloc, SEED_COUNT, text, policy, &mut reader, writer)
}

// Which objects of a view may be watched.
ghost use Rattle.std.specs.Prelude.{◌≡◌, ℕ, IfOk, is_some, slice_get, false};
ghost use Rattle.std.specs.Option.{option_map_or};
ghost use Rattle.vp_replay.specs.Seen.{denied_seen};
ghost use Rattle.vp_replay.specs.Objects.{is_unwatchable};

use crate::path::first_missing_step;
use std::alloc::{AllocError, Global};
use vp_policy::View;
use vp_pragma::{Right, Rights};

/// The watch right on the object of a number, if its user has it at every step to the object.
fn watch_right(view: &View, number: u32) -> Rights
    ensures { is_unwatchable result ≡ is_some (denied_seen view.now Right.Watch number) }
{
    match first_missing_step(view, Right::Watch, number) {
        Some(_) => Rights::none(),
        None => Rights::every(),
    }
}

/// Rights, by the numbers of the objects of a view, that lack the right to watch where it is denied. Takes memory.
pub fn watch_rights(alloc: Global, view: &View) -> Result<Vec<Rights>, AllocError>
    ensures { IfOk result (λ rights. (o : ℕ)
        → option_map_or is_unwatchable (slice_get rights.items o) false
        ≡ is_some (denied_seen view.now Right.Watch o)) }
{
    let mut rights = Vec::new(alloc);
    for number in 0..view.count() {
        rights.push(watch_right(view, number))?;
    }
    Ok(rights)
}

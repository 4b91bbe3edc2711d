ghost use Rattle.std.specs.Prelude.{◌≡◌, IfOk, IsOkUnless};
ghost use Rattle.vp_sim.specs.declared.error.SimError.TheVariants.{NoMemory};
ghost use Rattle.vp_sim.specs.States.{start};

use crate::error::SimError;
use crate::remaining::{all_whole, none_waits};
use std::alloc::Global;
use vp_cow_list::{SharedList, TrackedList};
use vp_expr::{Checked, Values, ValuesCheckpoint};
use vp_waking::Waiting;

/// What a simulation lists by objects and by processes.
#[derive(Drop)]
pub struct Lists {
    pub values: Values,
    /// Of each process the statement with which it goes on, if one remains of it.
    pub remaining: TrackedList<Option<u32>>,
    /// Of each process what it waits for.
    pub waiting: TrackedList<Waiting>,
}

/// The same as it was when a copy was kept.
#[derive(Drop)]
pub struct KeptLists {
    pub values: ValuesCheckpoint,
    pub remaining: SharedList<Option<u32>>,
    pub waiting: SharedList<Waiting>,
}

/// The lists at the start of a simulation of a design; or out of memory (806).
pub fn first_lists(alloc: Global, checked: &Checked) -> Result<Lists, SimError>
    ensures values { IfOk result (λ l. l.values ≡ (start checked.now).values) }
    ensures remaining { IfOk result (λ l. l.remaining ≡ (start checked.now).remaining) }
    ensures waiting { IfOk result (λ l. l.waiting ≡ (start checked.now).waiting) }
    ensures err { IsOkUnless result NoMemory }
{
    let Ok(values) = Values::new(alloc, checked) else {
        return Err(SimError::NoMemory);
    };
    let processes = checked.tables().processes.as_slice();
    let remaining = all_whole(alloc, processes)?;
    let waiting = none_waits(alloc, processes.len())?;
    Ok(Lists {
        values,
        remaining,
        waiting,
    })
}

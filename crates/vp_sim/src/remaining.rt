ghost use Rattle.std.specs.Prelude.{◌≡◌, map, replicate, slice_index_or, IfOk, None};
ghost use Rattle.vp_sim.specs.States.{whole_of};
ghost use Rattle.vp_waking.specs.declared.waiting.Waiting.TheVariants as wait;

use std::alloc::{AllocError, Global};
use vp_cow_list::TrackedList;
use vp_expr::Process;
use vp_waking::Waiting;

/// What a process does: the statement of a procedure, and no statement of another.
fn whole_of(process: Process) -> Option<u32>
    ensures { result ≡ whole_of process }
{
    match process {
        Process::Procedure { body, .. } => Some(body),
        Process::Assignment { .. } | Process::Connection { .. } => None,
    }
}

/// What remains of each process at the start: its whole statement.
pub fn all_whole(
    alloc: Global,
    processes: &[Process],
) -> Result<TrackedList<Option<u32>>, AllocError>
    ensures { IfOk result (λ r. r ≡ map whole_of processes.now) }
{
    let mut remaining = Vec::new(alloc);
    for process in processes {
        remaining.push(whole_of(*process))?;
    }
    TrackedList::from_vec(alloc, remaining)
}

/// What each of so many processes waits for at the start: nothing.
pub fn none_waits(alloc: Global, count: usize) -> Result<TrackedList<Waiting>, AllocError>
    ensures { IfOk result (λ w. w ≡ replicate count wait.Nothing) }
{
    let waiting = vec![in alloc; Waiting::Nothing; count]?;
    TrackedList::from_vec(alloc, waiting)
}

/// The statement with which a process goes on; none where nothing remains of it, and for one that is not there.
pub fn remaining_of(remaining: &[Option<u32>], process: usize) -> Option<u32>
    ensures { result ≡ slice_index_or remaining.now process None }
{
    match remaining.get(process) {
        Some(place) => *place,
        None => None,
    }
}

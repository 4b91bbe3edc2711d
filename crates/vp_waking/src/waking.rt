ghost use Rattle.std.specs.Prelude.{◌≡◌, ◌≤◌, ◌+◌, length, map, true};
ghost use Rattle.std.specs.List.{list_any};
ghost use Rattle.vp_expr.specs.Tables.{awaited_of, tables_of};
ghost use Rattle.vp_waking.specs.Listening.{AreHeard, listeners_of, may_listen};
ghost use Rattle.vp_waking.specs.Waking.{counts, first_bit, is_continuous, is_negedge, is_of, is_posedge, located, woken_state, woken_one, statement_terms, terms_of, wakes, wakes_at, with_evaluations, woken_alone, woken_by};

use crate::listeners::Listeners;
use crate::processes::process_at;
use crate::waiting::{Waiting, wait_of};
use vp_bits::{Bit, Bits};
use vp_cow_list::TrackedList;
use vp_elab::ObjectId;
use vp_expr::{Awaited, Change, Checked, Process};
use vp_source::Edge;
use vp_strata::Strata;

/// The least significant bit.
fn first_bit(bits: Bits) -> Bit
    ensures { result ≡ first_bit bits }
{
    bits.bit(0)
}

/// A change of a bit is a posedge (9.7.2).
fn is_posedge(old: Bit, new: Bit) -> bool
    ensures { result ≡ is_posedge old new }
{
    match (old, new) {
        (Bit::Zero, Bit::One | Bit::Unknown | Bit::HighImpedance) => true,
        (Bit::Unknown | Bit::HighImpedance, Bit::One) => true,
        _ => false,
    }
}

/// A change of a bit is a negedge (9.7.2).
fn is_negedge(old: Bit, new: Bit) -> bool
    ensures { result ≡ is_negedge old new }
{
    match (old, new) {
        (Bit::One, Bit::Zero | Bit::Unknown | Bit::HighImpedance) => true,
        (Bit::Unknown | Bit::HighImpedance, Bit::Zero) => true,
        _ => false,
    }
}

/// A change from one value to another counts for an edge.
fn counts(edge: Edge, old: Bits, new: Bits) -> bool
    ensures { result ≡ counts edge old new }
{
    match edge {
        Edge::Any => true,
        Edge::Posedge => is_posedge(first_bit(old), first_bit(new)),
        Edge::Negedge => is_negedge(first_bit(old), first_bit(new)),
    }
}

/// A change is one that is awaited in an instance.
fn is_of(instance: ObjectId, old: Bits, change: &Change, awaited: Awaited) -> bool
    ensures { result ≡ is_of old change.now (located instance awaited) }
{
    instance.0 as usize + awaited.slot.0 as usize == change.object.0 as usize
        && counts(awaited.edge, old, change.value)
}

/// A change is one of those that are awaited in an instance.
fn is_awaited(instance: ObjectId, old: Bits, change: &Change, terms: &[Awaited]) -> bool
    ensures { result ≡ list_any (is_of old change.now) (map (located instance) terms.now) }
{
    for awaited in terms {
        if is_of(instance, old, change, *awaited) {
            return true;
        }
    }
    false
}

/// A change wakes a process of this kind that waits at the statement at a place.
fn statement_wakes(checked: &Checked, old: Bits, change: &Change, kind: Process, place: u32) -> bool
    ensures { result ≡ list_any (is_of old change.now)
        (statement_terms (tables_of checked.now) place kind) }
{
    match kind {
        Process::Procedure { instance, .. } => {
            is_awaited(instance, old, change, checked.awaited(place))
        }
        Process::Assignment { .. } | Process::Connection { .. } => false,
    }
}

/// A process is a continuous one.
fn is_continuous(kind: Process) -> bool
    ensures { result ≡ is_continuous kind }
{
    match kind {
        Process::Procedure { .. } => false,
        Process::Assignment { .. } | Process::Connection { .. } => true,
    }
}

/// A change of an object wakes one of its listeners, if that waits so: a continuous process listens to what it reads.
fn wakes(checked: &Checked, old: Bits, change: &Change, waiting: Waiting, process: usize) -> bool
    requires { may_listen (tables_of checked.now) change.now.object.0 process ≡ true }
    ensures { result ≡ wakes (tables_of checked.now) old change.now waiting process }
{
    let Some(kind) = process_at(checked, process) else {
        return false;
    };
    match waiting {
        Waiting::Nothing => false,
        Waiting::Statement(place) => statement_wakes(checked, old, change, kind, place),
        Waiting::Operands => is_continuous(kind),
    }
}

/// Wakes a listener of the object of a change, if it waits for the change: it waits no more, and is evaluated.
fn wake_one(
    checked: &Checked,
    queue: &mut Strata,
    waiting: &mut TrackedList<Waiting>,
    old: Bits,
    change: &Change,
    process: usize,
)
    requires listens { may_listen (tables_of checked.now) change.now.object.0 process ≡ true }
    requires room { 1 ≤ queue.old.spare }
    ensures waiting { waiting.new
        ≡ woken_state waiting.old (woken_alone (tables_of checked.now) old change.now
        waiting.old process) }
    ensures queue { queue.new.queue
        ≡ with_evaluations queue.old.queue
        (woken_alone (tables_of checked.now) old change.now waiting.old process) }
    ensures spare { queue.old.spare ≤ queue.new.spare + 1 }
    ensures processes { queue.new.processes ≡ queue.old.processes }
{
    if wakes(
        checked,
        old,
        change,
        wait_of(waiting.as_slice(), process),
        process,
    ) {
        waiting.set(process, Waiting::Nothing);
        let _ = queue.push_active(process);
    }
}

/// Wakes the processes that wait for a change, by rising number: of the listeners of its object those that wait for it.
pub fn wake(
    listeners: &Listeners,
    queue: &mut Strata,
    waiting: &mut TrackedList<Waiting>,
    old: Bits,
    change: &Change,
)
    requires room { length (listeners_of listeners.now.lists change.now.object.0)
        ≤ queue.old.spare }
    requires heard { AreHeard (tables_of listeners.now.design) listeners.now.lists
        waiting.old }
    requires whole { length waiting.old ≡ length (tables_of listeners.now.design).processes }
    ensures waiting { waiting.new
        ≡ woken_state waiting.old (woken_by (tables_of listeners.now.design) old change.now
        waiting.old) }
    ensures queue { queue.new.queue
        ≡ with_evaluations queue.old.queue
        (woken_by (tables_of listeners.now.design) old change.now waiting.old) }
    ensures processes { queue.new.processes ≡ queue.old.processes }
{
    for process in listeners.processes_on(change.object.0 as usize) {
        wake_one(listeners.checked(), queue, waiting, old, change, *process);
    }
}

ghost use Rattle.std.specs.Prelude.{◌≡◌, ◌==◌, true};
ghost use Rattle.std.specs.Option.{option_to_list};
ghost use Rattle.vp_active_events.specs.Slots.{events_at, freed, is_empty, is_ready, is_update_of, is_waiting};

use crate::event::Event;
use vp_bits::Bits;

/// A place among the active events that are no updates of nonblocking assignments.
#[derive(Clone, Copy)]
pub enum Slot {
    /// Its event is over.
    Empty,
    /// The evaluation of a process.
    Evaluation {
        process: usize,
    },
    /// The update of the net that a continuous process drives. It waits while an older update of that net is active.
    NetUpdate {
        process: usize,
        value: Bits,
        waiting: bool,
    },
}

impl Slot {
    /// The event, if there is one.
    #[inline(always)]
    pub fn event(&self) -> Option<Event>
        ensures { option_to_list result ≡ events_at self.now }
    {
        match self {
            Slot::Empty => None,
            Slot::Evaluation { process } => Some(Event::Evaluation { process: *process }),
            Slot::NetUpdate { process, value, .. } => Some(Event::NetUpdate {
                process: *process,
                value: *value,
            }),
        }
    }

    /// There is no event.
    #[inline(always)]
    pub fn is_empty(&self) -> bool
        ensures { result ≡ is_empty self.now }
    {
        match self {
            Slot::Empty => true,
            Slot::Evaluation { .. } | Slot::NetUpdate { .. } => false,
        }
    }

    /// There is an event, which waits.
    #[inline(always)]
    pub fn is_waiting(&self) -> bool
        ensures { result ≡ is_waiting self.now }
    {
        match self {
            Slot::Empty | Slot::Evaluation { .. } => false,
            Slot::NetUpdate { waiting, .. } => *waiting,
        }
    }

    /// There is an event, which waits for none.
    #[inline(always)]
    pub fn is_ready(&self) -> bool
        ensures { result ≡ is_ready self.now }
    {
        match self {
            Slot::Empty => false,
            Slot::Evaluation { .. } => true,
            Slot::NetUpdate { waiting, .. } => !*waiting,
        }
    }

    /// There is an update of the net that a process drives.
    #[inline(always)]
    pub fn is_update_of(&self, process: usize) -> bool
        ensures { result ≡ is_update_of process self.now }
    {
        match self {
            Slot::Empty | Slot::Evaluation { .. } => false,
            Slot::NetUpdate { process: other, .. } => *other == process,
        }
    }

    /// The same event, which waits for none.
    pub fn freed(self) -> Slot
        ensures { result ≡ freed self }
    {
        match self {
            Slot::NetUpdate { process, value, .. } => Slot::NetUpdate {
                process,
                value,
                waiting: false,
            },
            Slot::Empty | Slot::Evaluation { .. } => self,
        }
    }
}

// A session whose objects have other numbers now: of each number before, in order, the number now.
ghost use Rattle.std.specs.Prelude.{◌≡◌, length, true};
ghost use Rattle.vp_notify.specs.Renumbered.{number_now, rises};
ghost use Rattle.vp_vpi.specs.Renumbered.{is_session_state_within, moved_session_state};

use super::Session;

impl Session {
    /// The objects of its handles, of its callbacks and of the notices that wait are among so many.
    pub fn is_within(&self, count: usize) -> bool
        ensures { result ≡ is_session_state_within count self.now }
    {
        self.handles.are_within(count) && self.registry.is_within(count)
    }

    /// Gives the objects of its handles, of its callbacks and of the notices that wait their numbers now. Takes no memory.
    pub fn renumber(&mut self, numbers: &[u32])
        requires rises { rises numbers.now ≡ true }
        requires within { is_session_state_within (length numbers.now) self.old ≡ true }
        ensures { self.new ≡ moved_session_state (number_now numbers.now) self.old }
    {
        self.handles.renumber(numbers);
        self.registry.renumber(numbers);
    }
}

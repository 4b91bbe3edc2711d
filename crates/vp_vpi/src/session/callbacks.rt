// A session's callbacks on changes of values (IEEE Std 1364-2005, 27.33 and 27.34).
ghost use Rattle.std.specs.Prelude.{◌≡◌, ◌+◌, false, true, option_copied, option_map, IfErr, IfOk, IsOk, IsOkAnd, IsOkUnless, OnErr, OnOk, ◌↔◌};
ghost use Rattle.vp_policy.specs.Users.{member_at};
ghost use Rattle.vp_notify.specs.Registry as registry;
ghost use Rattle.vp_vpi.specs.Calls.{Explains, Refuses, is_watchable, watchable_of, watched_of};
ghost use Rattle.vp_vpi.specs.Observers.{is_watch_denied};
ghost use Rattle.vp_vpi.specs.SessionStates.{drained, object_of, polled, retired, with_callback, with_due, without_callback};

use super::Session;
use crate::error::VpiError;
use crate::observer::Observe;
use vp_elab::{Kind, ObjectId};
use vp_notify::{Callback, Change, Notices};
use vp_policy::Policy;
use vp_pragma::{Right, Rights};
use vp_text::Shared;

/// An object is there whose changes can be watched: a net or a reg.
fn is_watchable(kind: Option<Kind>) -> bool
    ensures { result ≡ is_watchable kind }
{
    match kind {
        Some(Kind::Net | Kind::Reg) => true,
        _ => false,
    }
}

impl Session {
    /// The object of a handle, whose changes the user may watch. Refused where the number is no handle (1101), the user lacks the right
    /// to watch (1109), or the object is no net or reg (1102), or out of memory (1107).
    fn watchable<E: Observe>(&self, observation: &E, handle: u32) -> Result<ObjectId, VpiError>
        requires { E.is_sound observation.now }
        ensures ok { IfOk result (λ o. watchable_of (E.observer observation.now)
            (object_of self.now.handles handle) ≡ Ok o.0) }
        ensures refused { IfErr result (λ e. Refuses (watchable_of (E.observer observation.now)
            (object_of self.now.handles handle)) e) }
    {
        let object = self.allowed(observation, handle, Right::Watch)?;
        if is_watchable(observation.kind(object)) {
            Ok(object)
        } else {
            Err(VpiError::WrongKind)
        }
    }

    /// A callback on the changes of a handle's object, and its number (27.33). Refused where the number is no handle (1101), the user
    /// lacks the right to watch (1109), the object is no net or reg (1102), with too many callbacks (1001), or out of memory (1107).
    /// A refusal leaves the session as it was.
    pub fn register_cb<E: Observe>(&mut self, observation: &E, handle: u32) -> Result<u32, VpiError>
        requires { E.is_sound observation.now }
        ensures number { IfOk result (λ n. n ≡ self.old.registry.given + 1) }
        ensures registered { OnOk result
            (IsOkAnd (watched_of (E.observer observation.now) self.old.registry
            (object_of self.old.handles handle)) (λ o. self.new ≡ with_callback o self.old)) }
        ensures refused { IfErr result (λ e. Explains (watched_of (E.observer observation.now)
            self.old.registry (object_of self.old.handles handle)) e) }
        ensures unchanged { OnErr result (self.new ≡ self.old) }
    {
        let object = self.watchable(observation, handle)?;
        Ok(self.registry.register(object)?)
    }

    /// Removes the callback of a number (27.34); its notices that wait stay. Refused where no callback has the number (1002),
    /// which leaves the session as it was.
    pub fn remove_cb(&mut self, callback: u32) -> Result<(), VpiError>
        ensures found { IsOk result
            ↔ (registry.has_number self.old.registry callback ≡ true) }
        ensures removed { OnOk result (self.new ≡ without_callback callback self.old) }
        ensures refused { IsOkUnless result VpiError.NoSuchCallback }
        ensures unchanged { OnErr result (self.new ≡ self.old) }
    {
        Ok(self.registry.remove(callback)?)
    }

    /// Its callbacks, by object, each object's in order of registration.
    pub fn callbacks(&self) -> &[Callback]
        ensures { result.now ≡ self.now.registry.callbacks }
    {
        self.registry.callbacks()
    }

    /// Takes out its callbacks on objects that its user may not watch by a policy, and the notices of these objects that wait (docs/POLICY.md,
    /// "Grants that change"). Takes no memory.
    pub fn retire(&mut self, policy: &Policy)
        ensures { self.new ≡ retired (is_watch_denied policy.now.tree
            (member_at policy.now.members self.old.user)) self.old }
    {
        self.retire_unwatchable(policy.row(self.user));
    }

    /// Takes out its callbacks on objects that these rights, by object, do not let be watched, and the notices of these objects that wait.
    /// Takes no memory.
    pub fn retire_unwatchable(&mut self, rights: &[Rights])
        ensures { self.new ≡ retired (registry.is_unwatchable rights.now) self.old }
    {
        self.registry.retire(rights);
    }

    /// Some callback of it is on an object.
    pub fn watches(&self, object: ObjectId) -> bool
        ensures { result ≡ registry.watches self.now.registry object.0 }
    {
        self.registry.watches(object)
    }

    /// A change at a time is due to the callbacks on its object (27.33). Takes no memory.
    pub fn on_changes(&mut self, change: Option<&Change>, time: u64)
        ensures { self.new ≡ with_due (option_copied change.entry) time self.old }
    {
        self.registry.on_changes(change, time);
    }

    /// The notices that wait, and how many were lost since the last `drain`; or out of memory (1107). `drain` takes them out.
    pub fn poll(&self) -> Result<Shared<Notices>, VpiError>
        ensures told { IfOk result (λ n. n ≡ polled self.now) }
        ensures refused { IsOkUnless result VpiError.NoMemory }
    {
        let notices = self.registry.notices()?;
        Ok(Shared::new(self.alloc, notices)?)
    }

    /// No notice waits any more, and none counts as lost. Takes no memory.
    pub fn drain(&mut self)
        ensures { self.new ≡ drained self.old }
    {
        self.registry.clear();
    }
}

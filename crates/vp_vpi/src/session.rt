ghost use Rattle.std.specs.Prelude.{◌≡◌, ℕ, length, map, None, Option, option_map, Ok, IfErr, IfOk, IsOkAnd, IsOkUnless, IsSome, IsTrue, OnErr, OnOk};
ghost use Rattle.vp_vpi.specs.Lookups.{found_shown};
ghost use Rattle.vp_vpi.specs.Calls.{Explains, Refuses, allowed, handle_of, iterated, iteration, iteration_in_room, listed_of, number_of, object_found, put_of, same_of, scope_of, text_at, text_of, value_of};
ghost use Rattle.vp_vpi.specs.SessionStates.{has_room, new_session_state, next_handle, object_of, with_handle, with_handles, without_handle};

mod callbacks;
mod handle_table;
mod races;
mod renumbering;

use self::handle_table::HandleTable;
use crate::error::VpiError;
use crate::iteration::{Iteration, of_kind};
use crate::observer::{Found, Observe};
use crate::property::{NumberProperty, PutValue, TextProperty};
use crate::put::put_bits;
use std::alloc::{AllocError, Global};
use std::marker::Model;
use vp_bits::Bits;
use vp_elab::{Kind, ObjectId};
use vp_notify::Registry;
use vp_policy::UserId;
use vp_pragma::Right;
use vp_text::{Sequence, SharedText, Text};

/// How many handles a session has at most at once.
pub const HANDLE_LIMIT: usize = 65_536;

/// A user's session: his handles, each with its object, and his callbacks. Handles are numbered 1, 2, .., and no number is used again.
/// A contract sees its user, his handles and his callbacks.
#[derive(Drop)]
pub struct Session {
    alloc: Global,
    user: UserId,
    handles: HandleTable,
    registry: Registry,
}

impl Model for Session {
    ghost use Rattle.vp_vpi.specs.SessionStates.{SessionState};

    ghost Value = { SessionState };

    ghost view = { λ s. record {
      user = s.user.0;
      handles = s.handles;
      registry = s.registry;
    } };
}

impl Session {
    /// A session without handles and callbacks; or out of memory (1107).
    pub fn new(alloc: Global, user: UserId) -> Result<Session, VpiError>
        ensures session { IfOk result (λ s. s ≡ new_session_state user.0) }
        ensures refused { IsOkUnless result VpiError.NoMemory }
    {
        let registry = Registry::new(alloc)?;
        Ok(Session {
            alloc,
            user,
            handles: HandleTable::new(alloc),
            registry,
        })
    }

    /// Its user.
    pub fn user(&self) -> UserId
        ensures { result.0 ≡ self.now.user }
    {
        self.user
    }

    /// The object of a handle; none where the number is no handle, or it was freed.
    pub fn object(&self, handle: u32) -> Option<ObjectId>
        ensures { option_map (λ o. o.0) result ≡ object_of self.now.handles handle }
    {
        let index = (handle as usize).checked_sub(1)?;
        self.handles.object(index)
    }

    /// There is room for so many handles more.
    fn has_room(&self, more: usize) -> bool
        ensures { result ≡ has_room more self.now.handles }
    {
        more <= HANDLE_LIMIT
            && self.handles.open_count() <= HANDLE_LIMIT - more
            && self.handles.len() <= u32::MAX as usize - more
    }

    /// The object of a handle, on which the user has a right. Refused where the number is no handle (1101), or the user lacks the
    /// right (1109), or out of memory (1107).
    fn allowed<E: Observe>(
        &self,
        observation: &E,
        handle: u32,
        right: Right,
    ) -> Result<ObjectId, VpiError>
        requires { E.is_sound observation.now }
        ensures ok { IfOk result (λ o. allowed (E.observer observation.now) right
            (object_of self.now.handles handle) ≡ Ok o.0) }
        ensures refused { IfErr result (λ e. Refuses (allowed (E.observer observation.now) right
            (object_of self.now.handles handle)) e) }
    {
        let Some(object) = self.object(handle) else {
            return Err(VpiError::BadHandle);
        };
        match observation.denied(self.alloc, right, object) {
            Ok(None) => Ok(object),
            Ok(Some(words)) => Err(VpiError::Denied(words)),
            Err(_) => Err(VpiError::NoMemory),
        }
    }

    /// The scope of a handle, which is a module; without a handle that of the top modules. Refused where the number is no handle
    /// (1101), the user may not list it (1109), or it is no module (1102), or out of memory (1107).
    fn scope<E: Observe>(
        &self,
        observation: &E,
        handle: Option<u32>,
    ) -> Result<Option<ObjectId>, VpiError>
        requires { E.is_sound observation.now }
        ensures ok { let observation = E.observer observation.now in
            IfOk result (λ scope. scope_of observation self.now.handles handle
            ≡ Ok (option_map (λ o. o.0) scope)) }
        ensures refused { IfErr result
            (λ e. Refuses (scope_of (E.observer observation.now) self.now.handles handle) e) }
    {
        let Some(handle) = handle else {
            return Ok(None);
        };
        let object = self.allowed(observation, handle, Right::List)?;
        match observation.kind(object) {
            Some(Kind::Module) => Ok(Some(object)),
            _ => Err(VpiError::WrongKind),
        }
    }

    /// The object of a look-up, for which there is room for a handle.
    fn room_for(&self, found: Found) -> Result<ObjectId, VpiError>
        ensures ok { IfOk result
            (λ o. object_found self.now.handles (found_shown found) ≡ Ok o.0) }
        ensures refused { IfErr result
            (λ e. Refuses (object_found self.now.handles (found_shown found)) e) }
    {
        match found {
            Found::Denied(words) => Err(VpiError::Denied(words)),
            _ if !self.has_room(1) => Err(VpiError::TooManyHandles),
            Found::Object(object) => Ok(object),
            Found::Absent => Err(VpiError::NoSuchName),
        }
    }

    /// The object of a dotted name in a scope, for which there is room for a handle; the refusals are those of its handle.
    fn named<E: Observe>(
        &self,
        observation: &E,
        scope: Option<u32>,
        name: &str,
    ) -> Result<ObjectId, VpiError>
        requires { E.is_sound observation.now }
        ensures ok { IfOk result
            (λ o. handle_of (E.observer observation.now) self.now.handles scope name.now ≡ Ok o.0) }
        ensures refused { IfErr result
            (λ e. let observation = E.observer observation.now in
            Refuses (handle_of observation self.now.handles scope name.now) e) }
    {
        let above = self.scope(observation, scope)?;
        match observation.find(self.alloc, above, name) {
            Ok(found) => self.room_for(found),
            Err(_) => Err(VpiError::NoMemory),
        }
    }

    /// A new handle of the object of a dotted name, in the scope of a handle or among the top modules. Refused where the scope is
    /// no handle (1101), may not be listed (1109) or is no module (1102), the user may not list the object or the scope hides something
    /// (1109), with too many handles (1105), where nothing is there (1106), or out of memory (1107). A refusal leaves the session
    /// as it was.
    pub fn handle_by_name<E: Observe>(
        &mut self,
        observation: &E,
        scope: Option<u32>,
        name: &str,
    ) -> Result<u32, VpiError>
        requires { E.is_sound observation.now }
        ensures handle { IfOk result (λ handle. handle ≡ next_handle self.old.handles) }
        ensures made { OnOk result
            (IsOkAnd (handle_of (E.observer observation.now) self.old.handles scope name.now)
            (λ o. self.new ≡ with_handle o self.old)) }
        ensures refused { IfErr result
            (λ e. let observation = E.observer observation.now in
            Explains (handle_of observation self.old.handles scope name.now) e) }
        ensures unchanged { OnErr result (self.new ≡ self.old) }
    {
        let object = self.named(observation, scope, name)?;
        self.handles.push(object)?;
        Ok(self.handles.len() as u32)
    }

    /// The objects of a kind that are listed to the user in a scope.
    fn listed<E: Observe>(
        &self,
        observation: &E,
        kind: Kind,
        scope: Option<ObjectId>,
    ) -> Result<Sequence<ObjectId>, AllocError>
        requires { E.is_sound observation.now }
        ensures { IfOk result (λ ids. map (λ o. o.0) ids
            ≡ listed_of (E.observer observation.now) kind (option_map (λ o. o.0) scope)) }
    {
        let objects = observation.listed(self.alloc, scope)?;
        of_kind(self.alloc, observation, kind, objects.as_slice())
    }

    /// An iteration over these objects of a scope, for whose handles there is room.
    fn iteration<E: Observe>(
        &self,
        observation: &E,
        scope: Option<ObjectId>,
        objects: &[ObjectId],
    ) -> Result<Iteration, AllocError>
        requires sound { E.is_sound observation.now }
        requires room { IsTrue (has_room (length objects.now) self.now.handles) }
        ensures iteration { let observation = E.observer observation.now in
            IfOk result (λ i. i ≡ iteration observation self.now.handles
            (option_map (λ o. o.0) scope) (map (λ o. o.0) objects.now)) }
        ensures count { IfOk result (λ i. length i.handles ≡ length objects.now) }
    {
        let closed = observation.closed(self.alloc, scope)?;
        let last = self.handles.len() as u32;
        Iteration::new(self.alloc, observation, closed, last, objects)
    }

    /// Why there is no iteration over the objects of a kind in a scope, where memory was missing for their list: too many handles
    /// (1105), or else out of memory (1107).
    fn refusal_without_list<E: Observe>(
        &self,
        observation: &E,
        kind: Kind,
        scope: Option<ObjectId>,
    ) -> VpiError
        requires { E.is_sound observation.now }
        ensures { let observation = E.observer observation.now in
            let scope : Option ℕ = option_map (λ o. o.0) scope in
            let objects = listed_of observation kind scope in
            Explains (iteration_in_room observation self.now.handles scope objects) result }
    {
        if self.has_room(observation.count_listed(kind, scope)) {
            VpiError::NoMemory
        } else {
            VpiError::TooManyHandles
        }
    }

    /// An iteration over the objects of a kind in the scope of a handle, or over the top modules: of a list that is made at once,
    /// with a new handle of each object. `scan` makes the handles. Refused where the scope is no handle (1101), may not be listed (1109)
    /// or is no module (1102), with too many handles (1105), or out of memory (1107).
    pub fn iterate<E: Observe>(
        &self,
        observation: &E,
        kind: Kind,
        scope: Option<u32>,
    ) -> Result<Iteration, VpiError>
        requires { E.is_sound observation.now }
        ensures ok { IfOk result
            (λ i. iterated (E.observer observation.now) self.now.handles kind scope ≡ Ok i) }
        ensures room { IfOk result (λ i. IsTrue (has_room (length i.handles) self.now.handles)) }
        ensures refused { IfErr result
            (λ e. Explains (iterated (E.observer observation.now) self.now.handles kind scope) e) }
    {
        let above = self.scope(observation, scope)?;
        let Ok(objects) = self.listed(observation, kind, above) else {
            return Err(self.refusal_without_list(observation, kind, above));
        };
        if !self.has_room(objects.len()) {
            return Err(VpiError::TooManyHandles);
        }
        Ok(self.iteration(observation, above, objects.as_slice())?)
    }

    /// Makes the handles of an iteration, all of them; or none, when out of memory.
    pub fn scan(&mut self, iteration: &Iteration) -> Result<(), AllocError>
        requires { IsTrue (has_room (length iteration.now.handles) self.now.handles) }
        ensures made { OnOk result (self.new ≡ with_handles iteration.now.handles self.old) }
        ensures unchanged { OnErr result (self.new ≡ self.old) }
    {
        self.handles.extend(iteration.handles())
    }

    /// A number of a handle's object. Refused where the number is no handle (1101), the user may not list the object (1109), or it has no
    /// such number (1102); out of memory (1107) stands in the place of a denial alone, whose words take memory.
    pub fn get<E: Observe>(
        &self,
        observation: &E,
        handle: u32,
        property: NumberProperty,
    ) -> Result<u32, VpiError>
        requires { E.is_sound observation.now }
        ensures ok { IfOk result (λ n. number_of (E.observer observation.now) property
            (object_of self.now.handles handle) ≡ Ok n) }
        ensures refused { let observation = E.observer observation.now in IfErr result
            (λ e. Refuses (number_of observation property (object_of self.now.handles handle)) e) }
    {
        let object = self.allowed(observation, handle, Right::List)?;
        match (property, observation.kind(object)) {
            (NumberProperty::Line, _) => Ok(observation.line(object)),
            (NumberProperty::Size, Some(kind)) if kind.has_value() => Ok(observation.width(object)),
            (NumberProperty::Size, _) => Err(VpiError::WrongKind),
        }
    }

    /// A text of an object.
    fn text<E: Observe>(
        &self,
        observation: &E,
        object: ObjectId,
        property: TextProperty,
    ) -> Result<Text, VpiError>
        requires { E.is_sound observation.now }
        ensures ok { IfOk result
            (λ t. text_at (E.observer observation.now) property object.0 ≡ Ok t) }
        ensures refused { IfErr result
            (λ e. Explains (text_at (E.observer observation.now) property object.0) e) }
    {
        match property {
            TextProperty::Type => match observation.kind(object) {
                Some(kind) => Ok(Text::copy(self.alloc, kind.type_name())?),
                None => Err(VpiError::WrongKind),
            },
            TextProperty::Name => Ok(Text::copy(self.alloc, observation.name(object))?),
            TextProperty::FullName => Ok(observation.full_name(self.alloc, object)?),
            TextProperty::DefinitionName => match observation.definition(object) {
                Some(name) => Ok(Text::copy(self.alloc, name)?),
                None => Err(VpiError::WrongKind),
            },
        }
    }

    /// A text of a handle's object, which several may hold. Refused where the number is no handle (1101), the user may not list the object
    /// (1109), or it has no such text (1102), or out of memory (1107).
    pub fn get_str<E: Observe>(
        &self,
        observation: &E,
        handle: u32,
        property: TextProperty,
    ) -> Result<SharedText, VpiError>
        requires { E.is_sound observation.now }
        ensures ok { IfOk result (λ t. text_of (E.observer observation.now) property
            (object_of self.now.handles handle) ≡ Ok t) }
        ensures refused { IfErr result (λ e. Explains (text_of (E.observer observation.now) property
            (object_of self.now.handles handle)) e) }
    {
        let object = self.allowed(observation, handle, Right::List)?;
        let text = self.text(observation, object, property)?;
        Ok(SharedText::new(self.alloc, text)?)
    }

    /// The value of a handle's object. Refused where the number is no handle (1101), the user lacks the right to read (1109), or the
    /// object is no net, reg or parameter (1102); out of memory (1107) stands in the place of a denial alone.
    pub fn get_value<E: Observe>(&self, observation: &E, handle: u32) -> Result<Bits, VpiError>
        requires { E.is_sound observation.now }
        ensures ok { IfOk result (λ value. value_of (E.observer observation.now)
            (object_of self.now.handles handle) ≡ Ok value) }
        ensures refused { IfErr result (λ e. Refuses (value_of (E.observer observation.now)
            (object_of self.now.handles handle)) e) }
    {
        let object = self.allowed(observation, handle, Right::Read)?;
        match observation.value(object) {
            Some(bits) => Ok(bits),
            None => Err(VpiError::WrongKind),
        }
    }

    /// What a put of a value on a handle's object sets: the object, and the bits that it is given. Refused where the number is no handle (1101), the
    /// user lacks the right to put (1109), the object is no reg (1102), the value does not have its width (1103), or `$finish` was
    /// executed (1104), or out of memory (1107).
    pub fn put_value<E: Observe>(
        &self,
        observation: &E,
        handle: u32,
        value: &PutValue,
    ) -> Result<(ObjectId, Bits), VpiError>
        requires { E.is_sound observation.now }
        ensures ok { IfOk result (λ p. put_of (E.observer observation.now) value.now
            (object_of self.now.handles handle) ≡ Ok (p.0.0, p.1)) }
        ensures refused { IfErr result (λ e. Refuses (put_of (E.observer observation.now) value.now
            (object_of self.now.handles handle)) e) }
    {
        let object = self.allowed(observation, handle, Right::Put)?;
        let Some(Kind::Reg) = observation.kind(object) else {
            return Err(VpiError::WrongKind);
        };
        let Some(bits) = put_bits(observation.width(object), value) else {
            return Err(VpiError::BadValue);
        };
        if observation.finished() {
            return Err(VpiError::Finished);
        }
        Ok((object, bits))
    }

    /// Two handles are of one object. Refused where one of the numbers is no handle (1101).
    pub fn compare_objects(&self, first: u32, second: u32) -> Result<bool, VpiError>
        ensures ok { IfOk result
            (λ same. same_of (object_of self.now.handles first)
            (object_of self.now.handles second) ≡ Ok same) }
        ensures refused { IfErr result
            (λ e. Refuses (same_of (object_of self.now.handles first)
            (object_of self.now.handles second)) e) }
    {
        let first = self.object(first).ok_or(VpiError::BadHandle)?;
        let second = self.object(second).ok_or(VpiError::BadHandle)?;
        Ok(first.0 == second.0)
    }

    /// Frees a handle. Refused where the number is no handle (1101), which leaves the session as it was.
    pub fn free_object(&mut self, handle: u32) -> Result<(), VpiError>
        ensures freed { OnOk result (self.new ≡ without_handle handle self.old) }
        ensures there { OnOk result (IsSome (object_of self.old.handles handle)) }
        ensures refused { IfErr result (λ e. e ≡ VpiError.BadHandle) }
        ensures absent { OnErr result (object_of self.old.handles handle ≡ None) }
        ensures unchanged { OnErr result (self.new ≡ self.old) }
    {
        let Some(index) = (handle as usize).checked_sub(1) else {
            return Err(VpiError::BadHandle);
        };
        if self.handles.take(index) {
            Ok(())
        } else {
            Err(VpiError::BadHandle)
        }
    }
}

// What a session looks up: where its names lead, what is denied, and what it may know of the objects.
ghost use Rattle.std.specs.Prelude.{◌≡◌, ℕ, None, Option, length, map, option_map, IfOk, IsSome, IsTrue, OnErr};
ghost use Rattle.vp_vpi.specs.Calls.{lines_of, listed_of, race_details, shown_at};
ghost use Rattle.vp_vpi.specs.Lookups.{found_shown, is_denial};
ghost use Rattle.vp_vpi.specs.Observers.{Observer};

use crate::races::{RaceDetails, RaceLine};
use std::alloc::{AllocError, Global};
use vp_bits::Bits;
use vp_elab::{Kind, ObjectId};
use vp_policy::DenialText;
use vp_pragma::Right;
use vp_text::{Sequence, Text};

/// What is found under a name.
#[derive(Drop)]
pub enum Found {
    /// An object.
    Object(ObjectId),
    /// It is denied, in these words.
    Denied(DenialText),
    /// Nothing, and nothing is hidden there.
    Absent,
}

/// What a session can look up. A scope is an object, or None for the top modules.
pub trait Observe {
    /// What a contract sees of it.
    ghost observer: { Self → Observer };

    /// It holds together, so that it can be asked.
    ghost is_sound: { Self → Type 0 };

    /// What is found under a dotted name in a scope. Takes memory for a denial alone.
    fn find(&self, alloc: Global, scope: Option<ObjectId>, name: &str) -> Result<Found, AllocError>
        requires { is_sound self.now }
        ensures found { let scope : Option ℕ = option_map (λ o. o.0) scope in IfOk result
            (λ found. found_shown found ≡ (observer self.now).named scope name.now) }
        ensures denial { let scope : Option ℕ = option_map (λ o. o.0) scope in
            OnErr result (IsTrue (is_denial ((observer self.now).named scope name.now))) };

    /// The objects that are listed in a scope, rising. Takes memory.
    fn listed(
        &self,
        alloc: Global,
        scope: Option<ObjectId>,
    ) -> Result<Sequence<ObjectId>, AllocError>
        requires { is_sound self.now }
        ensures { let scope : Option ℕ = option_map (λ o. o.0) scope in IfOk result
            (λ ids. map (λ o. o.0) ids ≡ (observer self.now).listed scope) };

    /// How many objects of a kind are listed in a scope.
    fn count_listed(&self, kind: Kind, scope: Option<ObjectId>) -> usize
        requires { is_sound self.now }
        ensures { let scope : Option ℕ = option_map (λ o. o.0) scope in
            result ≡ length (listed_of (observer self.now) kind scope) };

    /// The numbers of the envelopes that are closed in a scope, rising. Takes memory.
    fn closed(&self, alloc: Global, scope: Option<ObjectId>) -> Result<Sequence<u8>, AllocError>
        requires { is_sound self.now }
        ensures { let scope : Option ℕ = option_map (λ o. o.0) scope in IfOk result
            (λ numbers. numbers ≡ (observer self.now).closed scope) };

    /// Why a right on an object is denied, if it is. Takes memory for a denial alone.
    fn denied(
        &self,
        alloc: Global,
        right: Right,
        object: ObjectId,
    ) -> Result<Option<DenialText>, AllocError>
        requires { is_sound self.now }
        ensures words { IfOk result
            (λ words. words ≡ (observer self.now).denied right object.0) }
        ensures denial { OnErr result (IsSome ((observer self.now).denied right object.0)) };

    /// What an object is; none where no object is.
    fn kind(&self, object: ObjectId) -> Option<Kind>
        requires { is_sound self.now }
        ensures { result ≡ (observer self.now).kind object.0 };

    /// How many bits an object has.
    fn width(&self, object: ObjectId) -> u32
        requires { is_sound self.now }
        ensures { result ≡ (observer self.now).width object.0 };

    /// The line of an object's declaration.
    fn line(&self, object: ObjectId) -> u32
        requires { is_sound self.now }
        ensures { result ≡ (observer self.now).line object.0 };

    /// The name of an object.
    fn name(&self, object: ObjectId) -> &str
        requires { is_sound self.now }
        ensures { result.now ≡ (observer self.now).name object.0 };

    /// The full name of an object. Takes memory.
    fn full_name(&self, alloc: Global, object: ObjectId) -> Result<Text, AllocError>
        requires { is_sound self.now }
        ensures { IfOk result (λ name. name ≡ (observer self.now).full_name object.0) };

    /// The name of the definition of a module; none of any other object.
    fn definition(&self, object: ObjectId) -> Option<&str>
        requires { is_sound self.now }
        ensures { option_map (λ d. d.now) result ≡ (observer self.now).definition object.0 };

    /// The value of an object on which the right to read is not denied; none where it has none.
    fn value(&self, object: ObjectId) -> Option<Bits>
        requires sound { is_sound self.now }
        requires readable { (observer self.now).denied Right.Read object.0 ≡ None }
        ensures { result ≡ (observer self.now).value object.0 };

    /// The design may be run.
    fn may_run(&self) -> bool
        requires { is_sound self.now }
        ensures { result ≡ (observer self.now).may_run };

    /// The current time, in time units.
    fn time(&self) -> u64
        requires { is_sound self.now }
        ensures { result ≡ (observer self.now).time };

    /// `$finish` was executed.
    fn finished(&self) -> bool
        requires { is_sound self.now }
        ensures { result ≡ (observer self.now).finished };

    /// The races that are shown, from a number on, at most 100; they are numbered from 1, and from 0 on is from 1 on. Takes memory.
    fn race_lines(&self, alloc: Global, from: u64) -> Result<Sequence<RaceLine>, AllocError>
        requires { is_sound self.now }
        ensures { IfOk result (λ lines. lines ≡ lines_of (observer self.now) from) };

    /// The race of a number among those that are shown, with its steps, if there is one. Takes memory for a race alone.
    fn race(&self, alloc: Global, number: u64) -> Result<Option<RaceDetails>, AllocError>
        requires { is_sound self.now }
        ensures race { IfOk result (λ race. race
            ≡ option_map (race_details number) (shown_at (observer self.now).races number)) }
        ensures there { OnErr result (IsSome (shown_at (observer self.now).races number)) };
}

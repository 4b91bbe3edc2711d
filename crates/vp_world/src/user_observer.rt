// What a user looks up of a simulation and a book of races, by a policy.
ghost use Rattle.std.specs.Prelude.{◌≡◌, ◌&&◌, ℕ, Option, filter, option_copied, option_map, IfOk};
ghost use Rattle.vp_elab.specs.Tree.{is_declared_in};
ghost use Rattle.vp_policy.specs.Filter.{is_listed_at};
ghost use Rattle.vp_policy.specs.PolicyState.{Fits};
ghost use Rattle.vp_policy.specs.Users.{member_at};
ghost use Rattle.vp_vpi.specs.Calls.{is_of, line_of, shown_at};
ghost use Rattle.vp_vpi.specs.Observers.{kind_at};
ghost use Rattle.vp_world.specs.Races.{is_shown, observer_with, race_seen};

use crate::shown_races::{is_race_shown, seen_race};
use std::alloc::{AllocError, Global};
use vp_bits::Bits;
use vp_elab::{Kind, ObjectId};
use vp_policy::{DenialText, Look, Policy, UserId};
use vp_pragma::Right;
use vp_race::{Book, BookedFinding, Sim};
use vp_text::{Sequence, Text};
use vp_vpi::{Found, Observe, RaceDetails, RaceLine, is_of};

/// At most so many races are reported in one list.
const RACE_LIMIT: usize = 100;

/// A simulation and a book of races, as a user of a policy looks into them.
#[derive(Drop)]
pub struct UserObserver<'a> {
    policy: &'a Policy,
    user: UserId,
    sim: &'a Sim,
    book: &'a Book,
}

impl<'a> UserObserver<'a> {
    /// What a user of a policy looks up of a simulation and a book. It is sound where the policy fits the design.
    pub fn new(policy: &'a Policy, user: UserId, sim: &'a Sim, book: &'a Book) -> UserObserver<'a>
        ensures observer { let member = member_at policy.now.members user.0 in
            ⟦<UserObserver<'a> as Observe>⟧.observer result
            ≡ observer_with sim.now member book.now.races }
        ensures sound { Fits policy.now sim.now.design.tree
            → ⟦<UserObserver<'a> as Observe>⟧.is_sound result }
    {
        UserObserver {
            policy,
            user,
            sim,
            book,
        }
    }
}

impl UserObserver<'_> {
    /// The user is shown a race.
    fn is_shown(&self, finding: &BookedFinding) -> bool
        ensures { let member = member_at self.now.policy.now.members self.now.user.0 in
            result ≡ is_shown self.now.policy.now.tree member finding.now }
    {
        is_race_shown(self.policy, self.user, finding)
    }

    /// An object of a kind is declared in a scope, and listed to the user.
    fn is_listed_in(&self, kind: Kind, scope: Option<ObjectId>, object: ObjectId) -> bool
        ensures { let tree = self.now.sim.now.design.tree in
            let member = member_at self.now.policy.now.members self.now.user.0 in
            let scope : Option ℕ = option_map (λ o. o.0) scope in
            result ≡ (is_declared_in tree.nodes scope object.0
            && (is_listed_at self.now.policy.now.tree member object.0
            && is_of kind (kind_at tree object.0))) }
    {
        let design = self.sim.design();
        design.is_declared_in(scope, object)
            && self.policy.is_listed(self.user, object)
            && is_of(kind, design.kind(object))
    }

    /// A race in the user's list, by its number there; or out of memory.
    fn race_line(
        &self,
        alloc: Global,
        finding: &BookedFinding,
        number: u64,
    ) -> Result<RaceLine, AllocError>
        ensures { let member = member_at self.now.policy.now.members self.now.user.0 in
            IfOk result (λ line. line
            ≡ line_of number (race_seen self.now.sim.now.design.tree member finding.now)) }
    {
        let name = self.sim.design().full_name(alloc, finding.object())?;
        Ok(RaceLine {
            name,
            number,
            time: finding.time(),
            values: finding.values(),
        })
    }

    /// The finding of the race of a number among those that the user is shown, if there is one.
    fn finding_at(&self, number: u64) -> Option<&BookedFinding>
        ensures { let member = member_at self.now.policy.now.members self.now.user.0 in
            let shown = filter (is_shown self.now.policy.now.tree member) self.now.book.now.races in
            option_copied result ≡ shown_at shown number }
    {
        let mut before = number.checked_sub(1)?;
        for finding in self.book.races() {
            let finding = finding.value();
            if self.is_shown(finding) {
                if before == 0 {
                    return Some(finding);
                }
                before -= 1;
            }
        }
        None
    }
}

impl Observe for UserObserver<'_> {
    ghost observer = { λ u. observer_with u.sim.now
        (member_at u.policy.now.members u.user.0) u.book.now.races };

    ghost is_sound = { λ u. Fits u.policy.now u.sim.now.design.tree };

    fn find(
        &self,
        alloc: Global,
        scope: Option<ObjectId>,
        name: &str,
    ) -> Result<Found, AllocError> {
        let design = self.sim.design();
        Ok(match self.policy.look(design, self.user, scope, name) {
            Look::Found(object) => Found::Object(object),
            Look::Denied(denial) => Found::Denied(denial.words(alloc, design)?),
            Look::Absent => Found::Absent,
        })
    }

    fn listed(
        &self,
        alloc: Global,
        scope: Option<ObjectId>,
    ) -> Result<Sequence<ObjectId>, AllocError> {
        match self
            .policy
            .listed(alloc, self.sim.design(), self.user, scope)
        {
            Ok(objects) => Ok(objects),
            Err(_) => Err(AllocError),
        }
    }

    fn count_listed(&self, kind: Kind, scope: Option<ObjectId>) -> usize {
        let mut count = 0;
        for number in 0..self.sim.design().count() {
            if self.is_listed_in(kind, scope, ObjectId(number)) {
                count += 1;
            }
        }
        count
    }

    fn closed(&self, alloc: Global, scope: Option<ObjectId>) -> Result<Sequence<u8>, AllocError> {
        match self.policy.closed(alloc, self.user, scope) {
            Ok(numbers) => Ok(numbers),
            Err(_) => Err(AllocError),
        }
    }

    fn denied(
        &self,
        alloc: Global,
        right: Right,
        object: ObjectId,
    ) -> Result<Option<DenialText>, AllocError> {
        let design = self.sim.design();
        match self.policy.missing_right(design, self.user, object, right) {
            Some(denial) => Ok(Some(denial.words(alloc, design)?)),
            None => Ok(None),
        }
    }

    fn kind(&self, object: ObjectId) -> Option<Kind> {
        self.sim.design().kind(object)
    }

    fn width(&self, object: ObjectId) -> u32 {
        self.sim.design().width(object)
    }

    fn line(&self, object: ObjectId) -> u32 {
        self.sim.design().line(object)
    }

    fn name(&self, object: ObjectId) -> &str {
        self.sim.design().name(object)
    }

    fn full_name(&self, alloc: Global, object: ObjectId) -> Result<Text, AllocError> {
        self.sim.design().full_name(alloc, object)
    }

    fn definition(&self, object: ObjectId) -> Option<&str> {
        self.sim.design().def_name(object)
    }

    fn value(&self, object: ObjectId) -> Option<Bits> {
        match self.sim.design().kind(object) {
            Some(kind) if kind.has_value() => Some(self.sim.value(object)),
            _ => None,
        }
    }

    fn may_run(&self) -> bool {
        self.policy.may_run(self.user)
    }

    fn time(&self) -> u64 {
        self.sim.time()
    }

    fn finished(&self) -> bool {
        self.sim.finished()
    }

    fn race_lines(&self, alloc: Global, from: u64) -> Result<Sequence<RaceLine>, AllocError> {
        let mut lines = Vec::new(alloc);
        let mut number = 0;
        for finding in self.book.races() {
            let finding = finding.value();
            if lines.len() >= RACE_LIMIT {
                break;
            }
            if self.is_shown(finding) {
                number += 1;
                if number >= from {
                    lines.push(self.race_line(alloc, finding, number)?)?;
                }
            }
        }
        Ok(Sequence::from_vec(lines))
    }

    fn race(&self, alloc: Global, number: u64) -> Result<Option<RaceDetails>, AllocError> {
        let Some(finding) = self.finding_at(number) else {
            return Ok(None);
        };
        let design = self.sim.design();
        let race = seen_race(alloc, design, self.policy, self.user, finding)?;
        Ok(Some(race.numbered(number)))
    }
}

// What is opened to a user, step by step of an object's path (docs/FORMATS.md, "Rights").
ghost use Rattle.std.specs.Prelude.{◌≡◌, ℕ, Option, Some, IsSome, IfOk, IsOkUnless, is_some, map, option_map};
ghost use Rattle.vp_text.specs.Texts.{parts};
ghost use Rattle.vp_pragma.specs.Rights.{either, set_of};
ghost use Rattle.vp_elab.specs.Tree.{find_in};
ghost use Rattle.vp_policy.specs.Filter.{IsAnsweredAlike, by_first, by_grant, closed_in, denial_at, is_listed_at, listed, listed_in, look_in, unlisted};
ghost use Rattle.vp_policy.specs.PolicyState.{Fits};
ghost use Rattle.vp_policy.specs.Users.{granted, has_entry, member_at};

use crate::denial::{Denial, DeniedBy, Look};
use crate::error::PolicyError;
use crate::policy::{Policy, UserId};
use crate::rights_tables::entry_of;
use std::alloc::Global;
use vp_elab::{Design, ObjectId, StepRights};
use vp_pragma::{Right, Rights};
use vp_text::{Sequence, first_part};

impl Policy {
    /// What keeps a user out of an envelope: his grant, if it is the open text or he has an entry for it, else the
    /// envelope.
    fn by_grant(&self, user: UserId, envelope: u8) -> DeniedBy
        ensures { result ≡ by_grant (member_at self.now.members user.0) envelope }
    {
        if envelope == 0 || self.has_entry(user, envelope) {
            DeniedBy::Grant
        } else {
            DeniedBy::Envelope
        }
    }

    /// What is opened to a user at the step to an object: what is granted to him in its envelope, and what viewports
    /// open.
    fn opened(&self, user: UserId, envelope: u8, step_rights: StepRights) -> Rights
        ensures { set_of result ≡ either (granted (member_at self.now.members user.0) envelope)
            (set_of step_rights.rights) }
    {
        self.granted(user, envelope).either(step_rights.rights)
    }

    /// A denial of a right at the step to an object: by the first viewport that matches it, else by the user's grant
    /// or by the envelope.
    fn denial(&self, user: UserId, envelope: u8, step_rights: StepRights, right: Right) -> Denial
        ensures { result ≡ record {
          by = by_first (member_at self.now.members user.0) envelope step_rights.viewport;
          envelope = envelope;
          right = right;
        } }
    {
        let by = match step_rights.viewport {
            Some(viewport) => DeniedBy::Viewport(viewport),
            None => self.by_grant(user, envelope),
        };
        Denial {
            by,
            envelope,
            right,
        }
    }

    /// A right on an object is denied: an object is there, and the right is not his. Takes one look-up.
    pub fn is_denied(&self, user: UserId, object: ObjectId, right: Right) -> bool
        ensures { result ≡ is_some (denial_at self.now.tree (member_at self.now.members user.0)
            right object.0) }
    {
        match entry_of(self.row(user), object) {
            Some(rights) => !rights.has(right),
            None => false,
        }
    }

    /// Why a right on an object is denied, found step by step from the object up. None if it is his, and where no object is.
    fn first_missing_step(
        &self,
        design: &Design,
        user: UserId,
        object: ObjectId,
        right: Right,
    ) -> Option<Denial>
        ensures { result
            ≡ denial_at design.now.tree (member_at self.now.members user.0) right object.0 }
    {
        let mut found = None;
        let mut step = Some(object);
        while let Some(id) = step {
            let Some(here) = design.object(id) else {
                break;
            };
            let step_rights = design.step_rights(id);
            if !self.opened(user, here.envelope, step_rights).has(right) {
                found = Some(self.denial(user, here.envelope, step_rights, right));
            }
            step = here.parent;
        }
        found
    }

    /// Why a right on an object is denied: by the first step of its path at which the right is not opened. None if
    /// it is his, and where no object is.
    pub fn missing_right(
        &self,
        design: &Design,
        user: UserId,
        object: ObjectId,
        right: Right,
    ) -> Option<Denial>
        requires { Fits self.now design.now.tree }
        ensures { result
            ≡ denial_at design.now.tree (member_at self.now.members user.0) right object.0 }
    {
        // Only a denial asks for the step.
        if self.is_denied(user, object, right) {
            self.first_missing_step(design, user, object, right)
        } else {
            None
        }
    }

    /// Why a right on an object is denied, which he lacks: by the first step of its path at which it is not opened.
    pub fn deny(&self, design: &Design, user: UserId, object: ObjectId, right: Right) -> Denial
        requires fits { Fits self.now design.now.tree }
        requires denied { IsSome (denial_at design.now.tree (member_at self.now.members user.0)
            right object.0) }
        ensures { denial_at design.now.tree (member_at self.now.members user.0) right object.0
            ≡ Some result }
    {
        match self.missing_right(design, user, object, right) {
            Some(denial) => denial,
            None => unreachable!(),
        }
    }

    /// The numbers of the envelopes of the places declared in a module, or of the top modules, that are closed
    /// to a user: rising, each once. None for an object that is no module. Takes memory (905).
    pub fn closed(
        &self,
        alloc: Global,
        user: UserId,
        scope: Option<ObjectId>,
    ) -> Result<Sequence<u8>, PolicyError>
        ensures numbers { IfOk result
            (λ numbers. let scope : Option ℕ = option_map (λ o. o.0) scope in
            numbers ≡ closed_in self.now.tree (member_at self.now.members user.0) scope) }
        ensures err { IsOkUnless result PolicyError.NoMemory }
    {
        let numbers = Vec::from_slice(alloc, self.closed_list(user, scope))?;
        Ok(Sequence::from_vec(numbers))
    }

    /// What is answered to a name that is not listed in a scope: it is denied by the scope's first closed
    /// envelope, the same for a hidden name as for an absent one.
    fn unlisted(&self, user: UserId, scope: Option<ObjectId>) -> Look
        ensures { let scope : Option ℕ = option_map (λ o. o.0) scope in
            result ≡ unlisted (member_at self.now.members user.0)
            (closed_in self.now.tree (member_at self.now.members user.0) scope) }
    {
        match self.closed_list(user, scope) {
            [envelope, ..] => Look::Denied(Denial {
                by: self.by_grant(user, *envelope),
                envelope: *envelope,
                right: Right::List,
            }),
            [] => Look::Absent,
        }
    }

    /// An object is listed to a user.
    pub fn is_listed(&self, user: UserId, object: ObjectId) -> bool
        ensures { result
            ≡ is_listed_at self.now.tree (member_at self.now.members user.0) object.0 }
    {
        self.rights(user, object).has(Right::List)
    }

    /// The objects that are declared in a module, or the top modules, and listed to a user: rising. None for an object
    /// that is no module. Takes memory (905).
    pub fn listed(
        &self,
        alloc: Global,
        design: &Design,
        user: UserId,
        scope: Option<ObjectId>,
    ) -> Result<Sequence<ObjectId>, PolicyError>
        requires { Fits self.now design.now.tree }
        ensures objects { IfOk result
            (λ ids. let scope : Option ℕ = option_map (λ o. o.0) scope in
            map (λ o. o.0) ids ≡ listed design.now.tree (member_at self.now.members user.0) scope) }
        ensures err { IsOkUnless result PolicyError.NoMemory }
    {
        let declared = match scope {
            Some(module) => design.children(alloc, module)?,
            None => design.roots(alloc)?,
        };
        let mut ids = Vec::new(alloc);
        for object in declared.as_slice() {
            if self.is_listed(user, *object) {
                ids.push(*object)?;
            }
        }
        Ok(Sequence::from_vec(ids))
    }

    /// The object of a name in a scope, if it is listed to a user.
    fn find_listed(
        &self,
        design: &Design,
        user: UserId,
        scope: Option<ObjectId>,
        name: &str,
    ) -> Option<ObjectId>
        requires { Fits self.now design.now.tree }
        ensures { option_map (λ o. o.0) result
            ≡ listed_in design.now.tree (member_at self.now.members user.0)
            (find_in design.now.tree.nodes (option_map (λ o. o.0) scope) name.now) }
    {
        match design.find(scope, name) {
            Some(object) if self.is_listed(user, object) => Some(object),
            _ => None,
        }
    }

    /// What a user finds under a dotted name in a scope: an object, or None for the top modules. Absent where the
    /// object is no module, or is not there. A hidden name is answered as an absent one.
    pub fn look(&self, design: &Design, user: UserId, scope: Option<ObjectId>, name: &str) -> Look
        requires { Fits self.now design.now.tree }
        ensures found { let scope : Option ℕ = option_map (λ o. o.0) scope in
            result ≡ look_in design.now.tree (member_at self.now.members user.0) scope
            (parts 46 name.now) }
        ensures alike { let scope : Option ℕ = option_map (λ o. o.0) scope in
            IsAnsweredAlike design.now.tree (member_at self.now.members user.0) scope
            (parts 46 name.now) result }
    {
        let mut scope = scope;
        let mut rest = name;
        loop {
            let (part, following) = first_part(rest, '.');
            let Some(object) = self.find_listed(design, user, scope, part) else {
                return self.unlisted(user, scope);
            };
            match following {
                Some(further) => rest = further,
                None => return Look::Found(object),
            }
            scope = Some(object);
        }
    }
}

// Grants that change during a run (docs/POLICY.md, "Grants that change").
ghost use Rattle.std.specs.Prelude.{◌≡◌, ◌<◌, IfOk, String, length, map, slice_set};
ghost use Rattle.std.specs.declared.alloc.Global.{Global};
ghost use Rattle.indexmap.specs.IndexMap.{set_value_at};
ghost use Rattle.vp_pragma.specs.Rights.{set_of};
ghost use Rattle.vp_policy.specs.Members.{grant_shown, member_of};
ghost use Rattle.vp_policy.specs.Regrants.{regranted_user, with_grant};

use crate::copying::copied_user;
use crate::grant::Grant;
use crate::policy::User;
use crate::rights_tables::UserTables;
use indexmap::IndexMap;
use std::alloc::{AllocError, Global};
use vp_pragma::Rights;
use vp_text::Sequence;

/// These grants, but for an envelope exactly this one.
fn with_grant(
    alloc: Global,
    grants: &[Grant],
    envelope: u8,
    access: Rights,
) -> Result<Sequence<Grant>, AllocError>
    ensures { IfOk result (λ changed. map grant_shown changed
        ≡ with_grant (map grant_shown grants.now) envelope (set_of access)) }
{
    let mut changed = Vec::new(alloc);
    for grant in grants {
        if grant.envelope != envelope {
            changed.push(*grant)?;
        }
    }
    changed.push(Grant {
        envelope,
        access,
        names_author: false,
    })?;
    Ok(Sequence::from_vec(changed))
}

/// A user with exactly this grant for an envelope; for the open text that is his open set.
pub fn regranted(
    alloc: Global,
    user: &User,
    envelope: u8,
    access: Rights,
) -> Result<User, AllocError>
    ensures { (name : String Global) → IfOk result (λ changed. member_of (name, changed)
        ≡ regranted_user envelope (set_of access) (member_of (name, user.now))) }
{
    let mut changed = copied_user(alloc, user)?;
    if envelope == 0 {
        changed.open = access;
    } else {
        changed.grants = with_grant(alloc, user.grants.as_slice(), envelope, access)?;
    }
    Ok(changed)
}

/// Puts a user in the place of the one of a number, under that one's name.
pub fn set_user(users: &mut IndexMap<String, User>, number: usize, user: User)
    requires { number < length users.old.entries }
    ensures { users.new.entries ≡ set_value_at users.old.entries number user }
{
    users[number] = user;
}

/// Puts tables in the place of those of a number.
pub fn set_tables(tables: &mut Vec<UserTables>, number: usize, his: UserTables)
    requires { number < length tables.old.items }
    ensures { tables.new.items ≡ slice_set tables.old.items number his }
{
    tables[number] = his;
}

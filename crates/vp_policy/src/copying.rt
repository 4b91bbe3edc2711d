// Copies of texts and users.
ghost use Rattle.std.specs.Prelude.{◌≡◌, IfOk, map, option_map};
ghost use Rattle.vp_policy.specs.Members.{member_of};

use crate::policy::User;
use indexmap::IndexMap;
use std::alloc::{AllocError, Global};
use vp_text::{Sequence, Text};

/// A copy of a text, if there is one.
pub fn copied(alloc: Global, text: Option<&str>) -> Result<Option<Text>, AllocError>
    ensures { IfOk result (λ copy. copy ≡ option_map (λ t. t.now) text.entry) }
{
    match text {
        Some(text) => Ok(Some(Text::copy(alloc, text)?)),
        None => Ok(None),
    }
}

/// A copy of a user.
pub fn copied_user(alloc: Global, user: &User) -> Result<User, AllocError>
    ensures { IfOk result (λ copy. copy ≡ user.now) }
{
    Ok(User {
        token: Text::copy(alloc, user.token.as_str())?,
        open: user.open,
        run: user.run,
        sessions: user.sessions,
        grants: Sequence::from_vec(Vec::from_slice(alloc, user.grants.as_slice())?),
    })
}

/// A copy of users by their names, in their order.
pub fn copied_users(
    alloc: Global,
    users: &IndexMap<String, User>,
) -> Result<IndexMap<String, User>, AllocError>
    ensures { IfOk result (λ copies.
        map member_of copies.entries ≡ map member_of users.now.entries) }
{
    let mut copies = IndexMap::new(alloc);
    for (name, user) in users {
        let copy = copied_user(alloc, user)?;
        copies.insert(String::from_str(alloc, name.as_str())?, copy)?;
    }
    Ok(copies)
}

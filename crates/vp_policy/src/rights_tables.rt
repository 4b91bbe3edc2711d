// What a policy's users may do and what is closed to them, in tables: so a look-up walks no path and reads no grants.
ghost use Rattle.std.specs.Prelude.{◌≡◌, IfOk, String, filter, map, slice_get, take};
ghost use Rattle.std.specs.declared.alloc.Global.{Global};
ghost use Rattle.std.specs.Option.{option_map_or};
ghost use Rattle.vp_pragma.specs.Rights.{nothing, set_of};
ghost use Rattle.vp_policy.specs.Filter.{is_closed, rights_at};
ghost use Rattle.vp_policy.specs.Members.{member_of};
ghost use Rattle.vp_policy.specs.RightsTables.{AreGranted, AreTables, AreTablesOf, closed_among, rights_on};
ghost use Rattle.vp_policy.specs.Users.{Member, granted, member_at};

use crate::grant::granted_by;
use crate::policy::User;
use crate::scope_lists::{ScopeLists, scope_lists_of};
use indexmap::IndexMap;
use std::alloc::{AllocError, Global};
use vp_elab::{Design, ObjectId};
use vp_pragma::{Right, Rights};
use vp_text::Sequence;

/// The tables of a user.
#[derive(Drop)]
pub struct UserTables {
    /// What is granted to him, by the numbers of the envelopes; number 0 is the open text.
    pub granted: [Rights; 256],
    /// His rights on each object.
    pub rights: Sequence<Rights>,
    /// What is closed to him of each list of the scopes.
    pub closed: Sequence<Sequence<u8>>,
}

/// The tables of a policy for a design.
#[derive(Drop)]
pub struct RightsTables {
    /// Those of each user, and after the users those of one who is not there.
    pub users: Vec<UserTables>,
    /// What is declared in the scopes of the design.
    pub scopes: ScopeLists,
}

/// What is granted to a user in an envelope: in the open text his open set, elsewhere his grants, joined.
fn granted_in(user: &User, envelope: u8) -> Rights
    ensures { (name : String Global)
        → set_of result ≡ granted (member_of (name, user.now)) envelope }
{
    if envelope == 0 {
        user.open
    } else {
        granted_by(user.grants.as_slice(), envelope)
    }
}

/// What is granted to a user, by the numbers of the envelopes.
pub fn granted_row(user: &User) -> [Rights; 256]
    ensures { (name : String Global) → AreGranted (member_of (name, user.now)) result }
{
    let mut row = [Rights::none(); 256];
    for envelope in 0..256 {
        row[envelope] = granted_in(user, envelope as u8);
    }
    row
}

/// What is granted to the user of a number, by the numbers of the envelopes; nothing for a number that is not there.
fn granted_to(users: &IndexMap<String, User>, number: usize) -> [Rights; 256]
    ensures { AreGranted (member_at (map member_of users.now.entries) number) result }
{
    match users.get_index(number) {
        Some((_, user)) => granted_row(user),
        None => [Rights::none(); 256],
    }
}

/// The entry of an object among those of the first objects, if it is one of them.
pub fn entry_of(rights: &[Rights], object: ObjectId) -> Option<Rights>
    ensures { result ≡ slice_get rights.now object.0 }
{
    rights.get(object.0 as usize).copied()
}

/// The rights on an object, where these are the rights on the first objects; none past their end.
pub fn rights_among(rights: &[Rights], object: ObjectId) -> Rights
    ensures { set_of result ≡ option_map_or set_of (slice_get rights.now object.0) nothing }
{
    match entry_of(rights, object) {
        Some(rights) => rights,
        None => Rights::none(),
    }
}

/// The rights on an object of a user to whom this is granted, where these are his rights on the objects before it: those on the
/// module in which it is declared that are opened at its own step as well. None where no object is.
fn next_rights(
    design: &Design,
    granted: &[Rights; 256],
    before: &[Rights],
    object: ObjectId,
) -> Rights
    ensures { (u : Member) → AreGranted u granted.now
        → map set_of before.now ≡ rights_on design.now.tree u (take object.0 design.now.tree.nodes)
        → set_of result ≡ rights_at design.now.tree u object.0 }
{
    let Some(here) = design.object(object) else {
        return Rights::none();
    };
    let opened = granted[here.envelope as usize].either(design.step_rights(object).rights);
    match here.parent {
        Some(module) => opened.both(rights_among(before, module)),
        None => opened,
    }
}

/// The rights on each object of a user to whom this is granted: one pass over the objects, each after that in which it is
/// declared.
fn rights_of(
    alloc: Global,
    design: &Design,
    granted: &[Rights; 256],
) -> Result<Vec<Rights>, AllocError>
    ensures { (u : Member) → AreGranted u granted.now → IfOk result (λ rights.
        map set_of rights.items ≡ rights_on design.now.tree u design.now.tree.nodes) }
{
    let mut rights = Vec::with_capacity(alloc, design.count() as usize)?;
    for number in 0..design.count() {
        let next = next_rights(design, granted, rights.as_slice(), ObjectId(number));
        rights.push(next)?;
    }
    Ok(rights)
}

/// Of a list of envelopes those that are closed to a user to whom this is granted.
fn closed_of(
    alloc: Global,
    granted: &[Rights; 256],
    list: &[u8],
) -> Result<Sequence<u8>, AllocError>
    ensures { (u : Member) → AreGranted u granted.now
        → IfOk result (λ numbers. numbers ≡ filter (is_closed u) list.now) }
{
    let mut numbers = Vec::new(alloc);
    for envelope in list {
        if !granted[*envelope as usize].has(Right::List) {
            numbers.push(*envelope)?;
        }
    }
    Ok(Sequence::from_vec(numbers))
}

/// Of each of these lists what is closed to a user to whom this is granted.
fn closed_lists(
    alloc: Global,
    granted: &[Rights; 256],
    lists: &[Sequence<u8>],
) -> Result<Vec<Sequence<u8>>, AllocError>
    ensures { (u : Member) → AreGranted u granted.now
        → IfOk result (λ closed. closed.items ≡ closed_among u lists.now) }
{
    let mut closed = Vec::with_capacity(alloc, lists.len())?;
    for list in lists {
        closed.push(closed_of(alloc, granted, list.as_slice())?)?;
    }
    Ok(closed)
}

/// The tables of a user to whom this is granted, over the lists of the scopes.
pub fn user_tables(
    alloc: Global,
    design: &Design,
    lists: &[Sequence<u8>],
    granted: [Rights; 256],
) -> Result<UserTables, AllocError>
    ensures { (u : Member) → AreGranted u granted
        → IfOk result (AreTablesOf design.now.tree lists.now u) }
{
    let rights = rights_of(alloc, design, &granted)?;
    let closed = closed_lists(alloc, &granted, lists)?;
    Ok(UserTables {
        granted,
        rights: Sequence::from_vec(rights),
        closed: Sequence::from_vec(closed),
    })
}

/// The tables of users for a design.
pub fn tables_of(
    alloc: Global,
    design: &Design,
    users: &IndexMap<String, User>,
) -> Result<RightsTables, AllocError>
    ensures { IfOk result (AreTables design.now.tree (map member_of users.now.entries)) }
{
    let count = users.len() + 1;
    let scopes = scope_lists_of(alloc, design)?;
    let mut tables = Vec::with_capacity(alloc, count)?;
    for number in 0..count {
        let granted = granted_to(users, number);
        tables.push(user_tables(alloc, design, scopes.lists.as_slice(), granted)?)?;
    }
    Ok(RightsTables {
        users: tables,
        scopes,
    })
}

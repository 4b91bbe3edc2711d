//! Copies of queries and of changes of grants, which have their contents.
use std::alloc::Global;
use vp_answer::{GrantChange, Query};
use vp_policy::Access;
use vp_text::{Same, Text};
use vp_vpi::PutValue;

/// A query to put digits on the object of a handle.
fn put(alloc: Global, digits: &str) -> Option<Query> {
    let value = PutValue::Digits(Text::copy(alloc, digits).ok()?);
    Some(Query::Put { handle: 1, value })
}

/// A query of a handle.
fn handle(alloc: Global, name: &str) -> Option<Query> {
    let name = Text::copy(alloc, name).ok()?;
    Some(Query::Handle {
        name,
        scope: Some(1),
    })
}

/// A change of a grant.
fn grant(alloc: Global) -> Option<GrantChange> {
    Some(GrantChange {
        token: Text::copy(alloc, "op").ok()?,
        user: Text::copy(alloc, "ann").ok()?,
        envelope: 1,
        access: Access::of_text("list+read")?,
    })
}

/// Whether the copy of a change of a grant has its contents.
fn is_grant_copied(alloc: Global) -> Option<bool> {
    let grant = grant(alloc)?;
    let copy = grant.try_clone(alloc).ok()?;
    Some(copy.is_same(&grant))
}

/// Whether two queries, if they are there, have the same contents.
fn are_same(first: Option<&Query>, second: Option<&Query>) -> Option<bool> {
    Some(first?.is_same(second?))
}

/// The same of two queries that are not used again.
fn are_alike(first: Option<Query>, second: Option<Query>) -> Option<bool> {
    let are_same = are_same(first.as_ref(), second.as_ref());
    drop((first, second));
    are_same
}

/// The copy of a query, if it is there.
fn copy_of(alloc: Global, query: Option<&Query>) -> Option<Query> {
    query?.try_clone(alloc).ok()
}

/// Whether the copy of a query has its contents.
fn is_copied(alloc: Global, query: Option<Query>) -> Option<bool> {
    let copy = copy_of(alloc, query.as_ref());
    are_alike(copy, query)
}

#[test]
fn requests_are_copied(rt: HostRuntime) {
    let alloc = rt.alloc();
    assert_eq!(rt; is_copied(alloc, handle(alloc, "top.a")), Some(true));
    assert_eq!(rt; is_copied(alloc, put(alloc, "1")), Some(true));
    assert_eq!(rt; is_grant_copied(alloc), Some(true));
    assert_eq!(rt; are_alike(put(alloc, "0"), put(alloc, "1")), Some(false));
}

// Policies that are tried: parts of a policy file, read for its design.
use serde_json::{Map, Value};
use std::alloc::{AllocError, Global};
use vp_elab::Design;
use vp_policy::{PolicyError, read_policy};

/// A policy file of some users is refused.
pub fn are_refused(alloc: Global, users: &[Value], design: &Design) -> Result<bool, AllocError> {
    let mut list = Vec::new(alloc);
    for user in users {
        list.push(user.clone()?)?;
    }
    is_refused(alloc, list, design)
}

/// A policy file of some users, and of one more, is refused.
pub fn is_refused_after(
    alloc: Global,
    users: &[Value],
    user: Value,
    design: &Design,
) -> Result<bool, AllocError> {
    let mut list = Vec::new(alloc);
    for other in users {
        list.push(other.clone()?)?;
    }
    list.push(user)?;
    is_refused(alloc, list, design)
}

/// A policy file of a list of users is refused.
fn is_refused(alloc: Global, users: Vec<Value>, design: &Design) -> Result<bool, AllocError> {
    let mut file = Map::new(alloc);
    let _ = file.insert(String::from_str(alloc, "users")?, Value::Array(users))?;
    let text = Value::Object(file).to_string(alloc)?;
    match read_policy(alloc, text.as_bytes(), design) {
        Ok(_) => Ok(false),
        Err(PolicyError::NoMemory) => Err(AllocError),
        Err(_) => Ok(true),
    }
}

/// Sets a key of a user to a text.
fn set_text(
    alloc: Global,
    user: &mut Map<String, Value>,
    key: &str,
    text: &str,
) -> Result<(), AllocError> {
    let text = Value::String(String::from_str(alloc, text)?);
    let _ = user.insert(String::from_str(alloc, key)?, text)?;
    Ok(())
}

/// A user with a name and a token that are right.
fn right_user(alloc: Global) -> Result<Map<String, Value>, AllocError> {
    let mut user = Map::new(alloc);
    set_text(
        alloc,
        &mut user,
        "name",
        "________________________________________________",
    )?;
    set_text(alloc, &mut user, "token", "x")?;
    Ok(user)
}

/// A user with so many of these keys, and a right name and token where they are not among them.
pub fn user_with(
    alloc: Global,
    keys: &Map<String, Value>,
    count: usize,
) -> Result<Value, AllocError> {
    let mut user = right_user(alloc)?;
    for (key, value) in keys.iter().take(count) {
        let _ = user.insert(key.clone()?, value.clone()?)?;
    }
    Ok(Value::Object(user))
}

/// A user with these grants, and a right name and token.
pub fn user_granted(alloc: Global, grants: &[Value]) -> Result<Value, AllocError> {
    let mut list = Vec::new(alloc);
    for grant in grants {
        list.push(grant.clone()?)?;
    }
    let mut user = right_user(alloc)?;
    let _ = user.insert(String::from_str(alloc, "grants")?, Value::Array(list))?;
    Ok(Value::Object(user))
}

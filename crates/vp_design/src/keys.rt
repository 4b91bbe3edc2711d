// The key of a policy file at fault, found by trial.
ghost use Rattle.std.specs.Prelude.{◌<◌, ◌≤◌, length, IfOk, IfSome};

use crate::trials::{are_refused, is_refused_after, user_granted, user_with};
use serde_json::{Map, Value};
use std::alloc::{AllocError, Global};
use vp_elab::Design;
use vp_policy::PolicyError;

/// How many users the shortest front of these has that is refused; none where they are all accepted.
fn refused_front(
    alloc: Global,
    users: &[Value],
    design: &Design,
) -> Result<Option<usize>, AllocError>
    ensures { IfOk result (λ front. IfSome front (λ count. count ≤ length users.now)) }
{
    if !are_refused(alloc, users, design)? {
        return Ok(None);
    }
    let mut accepted = 0;
    let mut refused = users.len();
    while refused - accepted > 1 {
        let middle = accepted + (refused - accepted) / 2;
        if are_refused(alloc, &users[..middle], design)? {
            refused = middle;
        } else {
            accepted = middle;
        }
    }
    Ok(Some(refused))
}

/// The first key of a user after others with which he is refused.
fn refused_key<'a>(
    alloc: Global,
    others: &[Value],
    keys: &'a Map<String, Value>,
    design: &Design,
) -> Result<Option<&'a str>, AllocError> {
    for (place, (key, _)) in keys.iter().enumerate() {
        let user = user_with(alloc, keys, place.saturating_add(1))?;
        if is_refused_after(alloc, others, user, design)? {
            return Ok(Some(key.as_str()));
        }
    }
    Ok(None)
}

/// The number, from 0, of the first of a user's grants after other users with which he is refused.
fn refused_grant(
    alloc: Global,
    others: &[Value],
    grants: &[Value],
    design: &Design,
) -> Result<Option<usize>, AllocError> {
    for number in 0..grants.len() {
        let user = user_granted(alloc, &grants[..number + 1])?;
        if is_refused_after(alloc, others, user, design)? {
            return Ok(Some(number));
        }
    }
    Ok(None)
}

/// A text as a string of JSON; none for one that is long.
fn short_quoted(alloc: Global, word: &str) -> Result<Option<String>, AllocError> {
    let quoted = Value::String(String::from_str(alloc, word)?).to_string(alloc)?;
    if quoted.len() > 60 {
        Ok(None)
    } else {
        Ok(Some(quoted))
    }
}

/// Adds the name of an author.
fn push_author(alloc: Global, text: &mut String, author: &str) -> Result<(), AllocError> {
    match short_quoted(alloc, author)? {
        Some(quoted) => text.push_str(quoted.as_str()),
        None => text.push_str("a long name"),
    }
}

/// Adds why a grant names no envelope: there is none of its number, or none of its author; or that of its number is by another.
fn push_unnamed(
    alloc: Global,
    text: &mut String,
    grant: &Value,
    design: &Design,
) -> Result<(), AllocError> {
    let Some(author) = vp_json::text(grant, "author") else {
        return text.push_str(".envelope");
    };
    let number = grant.get("envelope").and_then(Value::as_u64);
    match number {
        Some(number) if number < 1 || number > u64::from(design.envelope_count()) => {
            text.push_str(".envelope")
        }
        Some(number) => {
            write!(text, ".author: envelope {number} is by ")?;
            push_author(alloc, text, design.author(number as u8))?;
            text.push_str(", not by ")?;
            push_author(alloc, text, author)
        }
        None => {
            text.push_str(".author: no envelope is by ")?;
            push_author(alloc, text, author)
        }
    }
}

/// Adds the number of the grant at fault, and of one that names no envelope why.
fn push_grant(
    alloc: Global,
    text: &mut String,
    others: &[Value],
    grants: &Value,
    design: &Design,
    fault: &PolicyError,
) -> Result<(), AllocError> {
    let Some(grants) = grants.as_array() else {
        return Ok(());
    };
    let Some(number) = refused_grant(alloc, others, grants.as_slice(), design)? else {
        return Ok(());
    };
    write!(text, "[{number}]")?;
    match (fault, grants.as_slice().get(number)) {
        (PolicyError::NoSuchEnvelope, Some(grant)) => push_unnamed(alloc, text, grant, design),
        _ => Ok(()),
    }
}

/// A key of a user.
fn is_key(key: &str) -> bool {
    matches!(
        key,
        "name" | "token" | "open" | "run" | "sessions" | "grants"
    )
}

/// Adds a key that is not read, as a string of JSON.
fn push_unknown(alloc: Global, text: &mut String, key: &str) -> Result<(), AllocError> {
    match short_quoted(alloc, key)? {
        Some(quoted) => write!(text, ": unknown key {quoted}"),
        None => text.push_str(": an unknown key"),
    }
}

/// Adds the key at which a user after others is at fault.
fn push_key(
    alloc: Global,
    text: &mut String,
    others: &[Value],
    keys: &Map<String, Value>,
    design: &Design,
    fault: &PolicyError,
) -> Result<(), AllocError> {
    let Some(key) = refused_key(alloc, others, keys, design)? else {
        let missing = if keys.contains_key("name") {
            "token"
        } else {
            "name"
        };
        return write!(text, ": no key \"{missing}\"");
    };
    if !is_key(key) {
        return push_unknown(alloc, text, key);
    }
    write!(text, ".{key}")?;
    match keys.get(key) {
        Some(grants) if key == "grants" => push_grant(alloc, text, others, grants, design, fault),
        _ => Ok(()),
    }
}

/// Adds the user at fault, and his key.
fn push_user(
    alloc: Global,
    text: &mut String,
    users: &[Value],
    count: usize,
    design: &Design,
    fault: &PolicyError,
) -> Result<(), AllocError>
    requires some { 0 < count }
    requires within { count ≤ length users.now }
{
    let number = count - 1;
    write!(text, "at users[{number}]")?;
    match (fault, users[number].as_object()) {
        (PolicyError::TooManyUsers, _) => Ok(()),
        (_, Some(keys)) => push_key(alloc, text, &users[..number], keys, design, fault),
        (_, None) => text.push_str(": no object"),
    }
}

/// Adds the first key of a policy file that is not read.
fn push_unread(
    alloc: Global,
    text: &mut String,
    file: &Map<String, Value>,
) -> Result<(), AllocError> {
    for (key, _) in file {
        if key.as_str() != "users" && key.as_str() != "operator" {
            text.push_str("in the file")?;
            return push_unknown(alloc, text, key.as_str());
        }
    }
    text.push_str("at operator")
}

/// Adds where a policy file that is an object is at fault: at a user, else at another key.
fn push_place(
    alloc: Global,
    text: &mut String,
    file: &Map<String, Value>,
    design: &Design,
    fault: &PolicyError,
) -> Result<(), AllocError> {
    let Some(users) = file.get("users") else {
        return text.push_str("in the file: no key \"users\"");
    };
    let Some(users) = users.as_array() else {
        return text.push_str("at users: no array");
    };
    match refused_front(alloc, users.as_slice(), design)? {
        Some(count) if count > 0 => {
            push_user(alloc, text, users.as_slice(), count, design, fault)
        }
        _ => push_unread(alloc, text, file),
    }
}

/// Where the value of a policy file is at fault, in words.
pub fn place_text(
    alloc: Global,
    file: &Value,
    design: &Design,
    fault: &PolicyError,
) -> Result<String, AllocError> {
    let mut text = String::new(alloc);
    match file.as_object() {
        Some(file) => push_place(alloc, &mut text, file, design, fault)?,
        None => text.push_str("in the file: no object")?,
    }
    text.push('\n')?;
    Ok(text)
}

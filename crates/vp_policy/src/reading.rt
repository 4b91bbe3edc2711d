// The policy file (docs/FORMATS.md, "Policy").
ghost use Rattle.std.specs.Prelude.{◌≡◌, ◌⊎◌, ◌++◌, None, Ok, codes, map, not, option_and_then, option_map, IfErr, IfOk, IsErrOf, OnOk};
ghost use Rattle.std.specs.List.{list_all};
ghost use Rattle.std.specs.Result.{result_err};
ghost use Rattle.vp_policy.specs.declared.error.PolicyError.TheVariants.{NoMemory};
ghost use Rattle.vp_text.specs.Refusals.{MayExplain};
ghost use Rattle.serde_json.specs.Find.{as_str};
ghost use Rattle.serde_json.specs.View.{items_view, view};
ghost use Rattle.vp_pragma.specs.Rights.{set_of};
ghost use Rattle.vp_policy.specs.File.{access_in, each_of, entries_for, envelope_of, file_in, file_of, grant_of, grants_of, is_named, is_word, is_word_byte, names_none, open_set_of, opened_by, operator_of, optional, policy_of, run_of, sessions_of, user_from, users_of, word_at, word_of};
ghost use Rattle.vp_policy.specs.Members.{grant_shown};
ghost use Rattle.vp_policy.specs.Listing.{AreGrants, IsListed, IsUser, file_grant};
ghost use Rattle.vp_policy.specs.PolicyState.{Fits};

use crate::copying::copied;
use crate::error::PolicyError;
use crate::grant::Grant;
use crate::policy::{Policy, User};
use indexmap::IndexMap;
use serde_json::Value;
use std::alloc::{AllocError, Global};
use vp_elab::Design;
use vp_json::{ReadError, has_keys, read, text};
use vp_pragma::{Rights, access};
use vp_text::{Sequence, Text};

/// The greatest number of users of a policy file.
pub const USER_LIMIT: usize = 256;

/// So many sessions a user has open at once at most.
const SESSION_LIMIT: u64 = 64;

/// The greatest length of a user's name and of a token, in bytes.
const WORD_LIMIT: usize = 64;

/// A byte of a user's name or of a token.
fn is_word_byte(byte: u8) -> bool
    ensures { result ≡ is_word_byte byte }
{
    byte.is_ascii_alphanumeric() || byte == b'_' || byte == b'-'
}

/// Each byte is one of a user's name or of a token.
fn has_word_bytes(word: &str) -> bool
    ensures { result ≡ list_all is_word_byte word.now }
{
    for byte in word.as_bytes() {
        if !is_word_byte(*byte) {
            return false;
        }
    }
    true
}

/// A user's name or a token: 1 to 64 letters, digits, `_` or `-`.
fn is_word(word: &str) -> bool
    ensures { result ≡ is_word word.now }
{
    0 < word.len() && word.len() <= WORD_LIMIT && has_word_bytes(word)
}

/// A text, if it is a user's name or a token.
fn word_of(text: &str) -> Option<&str>
    ensures { option_map (λ t. t.now) result ≡ word_of text.now }
{
    if is_word(text) { Some(text) } else { None }
}

/// The user's name or the token under a key.
fn word<'a>(user: &'a Value, key: &str) -> Option<&'a str>
    ensures { option_map (λ t. t.now) result ≡ word_at key.now (view user.now) }
{
    word_of(text(user, key)?)
}

/// The rights that a text opens: none if it is empty, else those of an access string.
pub fn opened_by(names: &str) -> Option<Rights>
    ensures { option_map set_of result ≡ opened_by names.now }
{
    if names.is_empty() {
        Some(Rights::none())
    } else {
        access(names)
    }
}

/// A user's rights in the open text, by default none.
fn open_set(user: &Value) -> Option<Rights>
    ensures { option_map set_of result ≡ open_set_of (view user.now) }
{
    match user.get("open") {
        Some(open) => opened_by(open.as_str()?),
        None => Some(Rights::none()),
    }
}

/// The run flag, by default false.
fn run_flag(user: &Value) -> Option<bool>
    ensures { result ≡ run_of (view user.now) }
{
    match user.get("run") {
        Some(run) => run.as_bool(),
        None => Some(false),
    }
}

/// How many sessions a user may have open at once, by default 64.
fn session_share(user: &Value) -> Option<u64>
    ensures { result ≡ sessions_of (view user.now) }
{
    let Some(sessions) = user.get("sessions") else {
        return Some(SESSION_LIMIT);
    };
    match sessions.as_u64() {
        Some(count) if count <= SESSION_LIMIT => Some(count),
        _ => None,
    }
}

/// What a grant gives.
fn access_in(grant: &Value) -> Option<Rights>
    ensures { option_map set_of result ≡ access_in (view grant.now) }
{
    opened_by(text(grant, "access")?)
}

/// The number of an envelope, if one stands in a grant; or that what stands there is none.
fn envelope_at(grant: &Value) -> Option<Option<u64>>
    ensures { result ≡ optional envelope_of (codes "envelope") (view grant.now) }
{
    match grant.get("envelope") {
        Some(number) => Some(Some(number.as_u64()?)),
        None => Some(None),
    }
}

/// The author, if one stands in a grant; or that what stands there is no text.
fn author_at(grant: &Value) -> Option<Option<&str>>
    ensures { option_map (option_map (λ a. a.now)) result
        ≡ optional as_str (codes "author") (view grant.now) }
{
    match grant.get("author") {
        Some(author) => Some(Some(author.as_str()?)),
        None => Some(None),
    }
}

/// A grant as a file has it: the number of an envelope, an author, or both.
#[derive(Clone, Copy)]
struct NamedGrant<'a> {
    envelope: Option<u64>,
    author: Option<&'a str>,
    access: Rights,
}

/// A grant of a user.
fn grant_of(grant: &Value) -> Option<NamedGrant<'_>>
    ensures { option_map file_grant result ≡ grant_of (view grant.now) }
{
    if !has_keys(
        grant,
        ["access"].as_slice(),
        ["envelope", "author"].as_slice(),
    ) {
        return None;
    }
    let envelope = envelope_at(grant)?;
    let author = author_at(grant)?;
    let access = access_in(grant)?;
    if envelope.is_none() && author.is_none() {
        return None;
    }
    Some(NamedGrant {
        envelope,
        author,
        access,
    })
}

/// An envelope of this number and author is one that a grant names. The empty author is nobody.
fn is_named(grant: &NamedGrant<'_>, envelope: u8, author: &str) -> bool
    ensures { result ≡ is_named (file_grant grant.now) (envelope, author.now) }
{
    let has_number = match grant.envelope {
        Some(number) => number == u64::from(envelope),
        None => true,
    };
    let has_author = match grant.author {
        Some(name) => !name.is_empty() && name == author,
        None => true,
    };
    has_number && has_author
}

/// Adds the entries that a grant is in a design, one for each envelope that it names. True where it names one.
fn push_entries(
    entries: &mut Vec<Grant>,
    grant: &NamedGrant<'_>,
    design: &Design,
) -> Result<bool, AllocError>
    ensures entries { OnOk result (map grant_shown entries.new.items ≡ map grant_shown
        entries.old.items ++ entries_for design.now.tree.authors (file_grant grant.now)) }
    ensures named { IfOk result (λ named.
        not named ≡ names_none design.now.tree.authors (file_grant grant.now)) }
{
    let mut named = false;
    for before in 0..design.envelope_count() {
        let envelope = before + 1;
        if is_named(grant, envelope, design.author(envelope)) {
            entries.push(Grant {
                envelope,
                access: grant.access,
                names_author: grant.author.is_some(),
            })?;
            named = true;
        }
    }
    Ok(named)
}

/// A user's grants, as they are read.
#[derive(Drop)]
struct ReadGrants {
    /// What they are in the design.
    entries: Sequence<Grant>,
    /// One of them names no envelope of the design.
    missing: bool,
}

/// The grants of an array.
fn grants_in(alloc: Global, items: &[Value], design: &Design) -> Result<ReadGrants, PolicyError>
    ensures ok { IfOk result (AreGrants design.now.tree.authors
        (each_of grant_of (items_view items.now))) }
    ensures bad { IsErrOf result PolicyError.BadPolicy
        → each_of grant_of (items_view items.now) ≡ None }
    ensures err { IfErr result (λ e. (e ≡ PolicyError.BadPolicy) ⊎ (e ≡ PolicyError.NoMemory)) }
{
    let mut entries = Vec::new(alloc);
    let mut missing = false;
    for item in items {
        let grant = grant_of(item).ok_or(PolicyError::BadPolicy)?;
        if !push_entries(&mut entries, &grant, design)? {
            missing = true;
        }
    }
    Ok(ReadGrants {
        entries: Sequence::from_vec(entries),
        missing,
    })
}

/// A user's grants, by default none.
fn grants_of(alloc: Global, user: &Value, design: &Design) -> Result<ReadGrants, PolicyError>
    ensures ok { IfOk result (AreGrants design.now.tree.authors (grants_of (view user.now))) }
    ensures bad { IsErrOf result PolicyError.BadPolicy → grants_of (view user.now) ≡ None }
    ensures err { IfErr result (λ e. (e ≡ PolicyError.BadPolicy) ⊎ (e ≡ PolicyError.NoMemory)) }
{
    let Some(grants) = user.get("grants") else {
        return Ok(ReadGrants {
            entries: Sequence::from_vec(Vec::new(alloc)),
            missing: false,
        });
    };
    let grants = grants.as_array().ok_or(PolicyError::BadPolicy)?;
    grants_in(alloc, grants.as_slice(), design)
}

/// A user, as he is read.
#[derive(Drop)]
struct ReadUser {
    name: String,
    user: User,
    /// One of his grants names no envelope of the design.
    missing: bool,
}

/// A user of a file, for a design.
fn user_from(alloc: Global, user: &Value, design: &Design) -> Result<ReadUser, PolicyError>
    ensures ok { IfOk result (IsUser design.now.tree.authors (user_from (view user.now))) }
    ensures bad { IsErrOf result PolicyError.BadPolicy → user_from (view user.now) ≡ None }
    ensures err { IfErr result (λ e. (e ≡ PolicyError.BadPolicy) ⊎ (e ≡ PolicyError.NoMemory)) }
{
    let required = ["name", "token"];
    let optional = ["open", "run", "sessions", "grants"];
    if !has_keys(user, required.as_slice(), optional.as_slice()) {
        return Err(PolicyError::BadPolicy);
    }
    let name = word(user, "name").ok_or(PolicyError::BadPolicy)?;
    let token = word(user, "token").ok_or(PolicyError::BadPolicy)?;
    let open = open_set(user).ok_or(PolicyError::BadPolicy)?;
    let run = run_flag(user).ok_or(PolicyError::BadPolicy)?;
    let sessions = session_share(user).ok_or(PolicyError::BadPolicy)?;
    let grants = grants_of(alloc, user, design)?;
    let name = String::from_str(alloc, name)?;
    let token = Text::copy(alloc, token)?;
    let user = User {
        token,
        open,
        run,
        sessions,
        grants: grants.entries,
    };
    Ok(ReadUser {
        name,
        user,
        missing: grants.missing,
    })
}

/// The users of a file, as they are read.
#[derive(Drop)]
struct Listed {
    /// By name, in the order of the file.
    users: IndexMap<String, User>,
    /// Each name stands once in the file; else of those of one name the last is here.
    once: bool,
    /// A grant names no envelope of the design.
    missing: bool,
}

/// The users of an array, for a design.
fn users_in(alloc: Global, items: &[Value], design: &Design) -> Result<Listed, PolicyError>
    ensures ok { IfOk result (IsListed design.now.tree.authors
        (each_of user_from (items_view items.now))) }
    ensures bad { IsErrOf result PolicyError.BadPolicy
        → each_of user_from (items_view items.now) ≡ None }
    ensures err { IfErr result (λ e. (e ≡ PolicyError.BadPolicy) ⊎ (e ≡ PolicyError.NoMemory)) }
{
    let mut users = IndexMap::new(alloc);
    let mut once = true;
    let mut missing = false;
    for item in items {
        let read = user_from(alloc, item, design)?;
        missing = missing | read.missing;
        if users.insert(read.name, read.user)?.is_some() {
            once = false;
        }
    }
    Ok(Listed {
        users,
        once,
        missing,
    })
}

/// The array of the users of a file.
fn users_array(file: &Value) -> Option<&[Value]>
    ensures { option_and_then (λ users. each_of user_from (items_view users.now)) result
        ≡ users_of (view file.now) }
{
    if !has_keys(file, ["users"].as_slice(), ["operator"].as_slice()) {
        return None;
    }
    Some(file.get("users")?.as_array()?.as_slice())
}

/// The operator's token of a file, by default none; or that what stands there is no token.
fn operator_of(file: &Value) -> Option<Option<&str>>
    ensures { option_map (option_map (λ t. t.now)) result ≡ operator_of (view file.now) }
{
    match file.get("operator") {
        Some(operator) => Some(Some(word_of(operator.as_str()?)?)),
        None => Some(None),
    }
}

/// The policy of a file's value, for a design.
fn policy_of(alloc: Global, file: &Value, design: &Design) -> Result<Policy, PolicyError>
    ensures ok { IfOk result (λ policy.
        policy_of design.now.tree.authors (view file.now) ≡ Ok (file_in policy)) }
    ensures fits { IfOk result (λ policy. Fits policy design.now.tree) }
    ensures refused { IfErr result
        (MayExplain NoMemory (result_err (policy_of design.now.tree.authors (view file.now)))) }
{
    let users = users_array(file).ok_or(PolicyError::BadPolicy)?;
    let listed = users_in(alloc, users, design)?;
    let operator = operator_of(file).ok_or(PolicyError::BadPolicy)?;
    if !listed.once {
        return Err(PolicyError::DuplicateUser);
    }
    if listed.users.len() > USER_LIMIT {
        return Err(PolicyError::TooManyUsers);
    }
    if listed.missing {
        return Err(PolicyError::NoSuchEnvelope);
    }
    let operator = copied(alloc, operator)?;
    Ok(Policy::of_users(alloc, listed.users, operator, design)?)
}

/// The policy of a file, for a design, with the tables of its users' rights; or why it is refused, each reason tested over the
/// whole file before the next: the bytes are no policy file (901), two users have one name (902), there are more than 256 (904),
/// a grant names no envelope of the design (903). Out of memory (905) may be met at any time.
pub fn read_policy(alloc: Global, bytes: &[u8], design: &Design) -> Result<Policy, PolicyError>
    ensures ok { IfOk result
        (λ policy. file_of design.now.tree.authors bytes.now ≡ Ok (file_in policy)) }
    ensures fits { IfOk result (λ policy. Fits policy design.now.tree) }
    ensures refused { IfErr result
        (MayExplain NoMemory (result_err (file_of design.now.tree.authors bytes.now))) }
{
    match read(alloc, bytes) {
        Ok(file) => policy_of(alloc, &file, design),
        Err(ReadError::NotJson) => Err(PolicyError::BadPolicy),
        Err(ReadError::NoMemory) => Err(PolicyError::NoMemory),
    }
}

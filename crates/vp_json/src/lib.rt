//! JSON objects whose keys are fixed, as policy files and lines are.
#![tactic(auto)]

ghost use Rattle.std.specs.Prelude.{◌≡◌, ◌||◌, IfOk, Some, None, IsUtf8, map, option_map, option_and_then, string_bytes};
ghost use Rattle.std.specs.List.{list_all};
ghost use Rattle.serde_json.specs.Find.{as_number, as_str, as_u64, get};
ghost use Rattle.serde_json.specs.Read.{read as read_text};
ghost use Rattle.serde_json.specs.View.{view};
ghost use Rattle.vp_json.specs.Keys.{has_each, has_keys, has_only, is_one_of};

use serde_json::{Map, Value};
use std::alloc::Global;

/// Why bytes give no JSON value.
#[derive(Clone, Copy, Debug, PartialEq, Eq)]
pub enum ReadError {
    /// They are no JSON text in UTF-8, or it nests more than 127 deep.
    NotJson,
    NoMemory,
}

/// The JSON value of bytes.
pub fn read(alloc: Global, bytes: &[u8]) -> Result<Value, ReadError>
    ensures utf8 { IfOk result (λ v. IsUtf8 bytes.now) }
    ensures value { IfOk result (λ v. read_text bytes.now ≡ Some (view v)) }
    ensures not_json { result ≡ Err ReadError.NotJson → IsUtf8 bytes.now → read_text bytes.now
        ≡ None }
{
    match Value::from_slice(alloc, bytes) {
        Ok(value) => Ok(value),
        Err(error) if error.is_memory() => Err(ReadError::NoMemory),
        Err(_) => Err(ReadError::NotJson),
    }
}

/// A value is an object with each of the required keys, and with no key that is neither required nor optional.
pub fn has_keys(value: &Value, required: &[&str], optional: &[&str]) -> bool
    ensures { result ≡ has_keys (map (λ k. k.now) required.now) (map (λ k. k.now) optional.now)
        (view value.now) }
{
    has_each(value, required) && has_only(value, required, optional)
}

/// A value has something under each of these keys.
fn has_each(value: &Value, keys: &[&str]) -> bool
    ensures { result ≡ has_each (map (λ k. k.now) keys.now) (view value.now) }
{
    for key in keys {
        if value.get(*key).is_none() {
            return false;
        }
    }
    true
}

/// A value is an object, and each of its keys is one of these.
fn has_only(value: &Value, keys: &[&str], others: &[&str]) -> bool
    ensures { result ≡ has_only (map (λ k. k.now) keys.now) (map (λ k. k.now) others.now)
        (view value.now) }
{
    match value.as_object() {
        Some(object) => are_among(object, keys, others),
        None => false,
    }
}

/// Each key of an object is one of these.
fn are_among(object: &Map<String, Value>, keys: &[&str], others: &[&str]) -> bool
    ensures { result ≡ list_all (λ e. is_one_of (map (λ k. k.now) keys.now) (string_bytes e.0) ||
        is_one_of (map (λ k. k.now) others.now) (string_bytes e.0)) object.now.entries }
{
    for (key, _) in object {
        if !is_among(key.as_str(), keys) && !is_among(key.as_str(), others) {
            return false;
        }
    }
    true
}

/// A key is one of these.
fn is_among(key: &str, keys: &[&str]) -> bool
    ensures { result ≡ is_one_of (map (λ k. k.now) keys.now) key.now }
{
    for known in keys {
        if key == *known {
            return true;
        }
    }
    false
}

/// The text under a key of an object.
pub fn text<'a>(value: &'a Value, key: &str) -> Option<&'a str>
    ensures { option_map (λ t. t.now) result
        ≡ option_and_then as_str (get key.now (view value.now)) }
{
    value.get(key).and_then(Value::as_str)
}

/// The number under a key of an object, where it is a whole number from 0 to 18,446,744,073,709,551,615.
pub fn number(value: &Value, key: &str) -> Option<u64>
    ensures { result ≡ option_and_then as_u64
        (option_and_then as_number (get key.now (view value.now))) }
{
    value.get(key).and_then(Value::as_u64)
}

// Requests (docs/FORMATS.md, "Lines").
ghost use Rattle.std.specs.Prelude.{◌≡◌, ◌⊎◌, [], ◌∷◌, None, Some, codes, map, IfErr, IfOk, IsErrOf};
ghost use Rattle.serde_json.specs.View.{items_view, view};
ghost use Rattle.vp_json.specs.Keys.{has_keys};
ghost use Rattle.vp_policy.specs.File.{each_of};
ghost use Rattle.vp_wire.specs.Lines.{access_at, query_of_op, close_request, compare_query, digits_query, end_request, format_at, format_of, free_query, from_at, get_query, get_str_query, grant_of_words, grant_request, halt_request, handle_query, iterate_query, meaning_of, number_at, number_if, number_in, number_property, open_request, order_of_op, poll_query, put_query, query_request, race_query, races_query, request_of, request_of_op, run_query, shutdown_request, status_request, stop_query, stop_request, text_property, time_at, time_query, token_alone, unwatch_query, value_query, vector_query, watch_query, word_in, words_at, Asks, NotJson, NotRequest};

use crate::error::WireError;
use serde_json::Value;
use std::alloc::{AllocError, Global};
use vp_answer::{Call, EndOrder, GrantChange, HaltOrder, Query, Request, ValueFormat};
use vp_elab::Kind;
use vp_json::{ReadError, has_keys, number, read, text};
use vp_policy::Access;
use vp_text::{Sequence, Text};
use vp_vpi::{NumberProperty, PutValue, TextProperty, VectorWord};

/// Every time is below this one, in time units.
const TIME_END: u64 = 1 << 62;

/// The handle, callback or envelope under a key of a request: a number of 32 bits.
fn handle_under(value: &Value, key: &str) -> Option<u32>
    ensures { result ≡ number_at key.now (view value.now) }
{
    match number(value, key) {
        Some(number) => u32::try_from(number).ok(),
        None => None,
    }
}

/// The time under a key of a request: a number below 2^62.
fn time_under(value: &Value, key: &str) -> Option<u64>
    ensures { result ≡ time_at key.now (view value.now) }
{
    match number(value, key) {
        Some(time) if time < TIME_END => Some(time),
        _ => None,
    }
}

/// A request has exactly these keys beside `op`.
fn has_request_keys(value: &Value, keys: &[&str]) -> bool
    ensures { result ≡ has_keys (map (λ k. k.now) keys.now) (codes "op" ∷ []) (view value.now) }
{
    has_keys(value, keys, ["op"].as_slice())
}

/// The request to open a session.
fn open_request(alloc: Global, value: &Value) -> Result<Option<Request>, AllocError>
    ensures { IfOk result (λ r. r ≡ open_request (view value.now)) }
{
    if !has_request_keys(value, ["user", "token"].as_slice()) {
        return Ok(None);
    }
    match (text(value, "user"), text(value, "token")) {
        (Some(user), Some(token)) => Ok(Some(Request::Open {
            user: Text::copy(alloc, user)?,
            token: Text::copy(alloc, token)?,
        })),
        _ => Ok(None),
    }
}

/// The request to close a session.
fn close_request(value: &Value) -> Option<Request>
    ensures { result ≡ close_request (view value.now) }
{
    if has_request_keys(value, [].as_slice()) {
        Some(Request::Call(Call::Close))
    } else {
        None
    }
}

/// The change of a grant of these words.
fn grant_change(
    alloc: Global,
    token: &str,
    user: &str,
    envelope: u32,
    access: Access,
) -> Result<Option<Request>, AllocError>
    ensures { IfOk result (λ r. r ≡ Some (grant_of_words token.now user.now envelope access)) }
{
    Ok(Some(Request::Grant(GrantChange {
        token: Text::copy(alloc, token)?,
        user: Text::copy(alloc, user)?,
        envelope,
        access,
    })))
}

/// The rights under a key of a request: none for the empty text, else those of an access string.
fn access_under(value: &Value, key: &str) -> Option<Access>
    ensures { result ≡ access_at key.now (view value.now) }
{
    Access::of_text(text(value, key)?)
}

/// The request to change a grant.
fn grant_request(alloc: Global, value: &Value) -> Result<Option<Request>, AllocError>
    ensures { IfOk result (λ r. r ≡ grant_request (view value.now)) }
{
    if !has_request_keys(value, ["token", "user", "envelope", "access"].as_slice()) {
        return Ok(None);
    }
    let (Some(token), Some(user)) = (text(value, "token"), text(value, "user")) else {
        return Ok(None);
    };
    match (
        handle_under(value, "envelope"),
        access_under(value, "access"),
    ) {
        (Some(envelope), Some(access)) => grant_change(alloc, token, user, envelope, access),
        _ => Ok(None),
    }
}

/// The request to end a user's sessions.
fn end_request(alloc: Global, value: &Value) -> Result<Option<Request>, AllocError>
    ensures { IfOk result (λ r. r ≡ end_request (view value.now)) }
{
    if !has_request_keys(value, ["token", "user"].as_slice()) {
        return Ok(None);
    }
    match (text(value, "token"), text(value, "user")) {
        (Some(token), Some(user)) => Ok(Some(Request::End(EndOrder {
            token: Text::copy(alloc, token)?,
            user: Text::copy(alloc, user)?,
        }))),
        _ => Ok(None),
    }
}

/// The token of an operator who gives nothing else.
fn token_alone(alloc: Global, value: &Value) -> Result<Option<Text>, AllocError>
    ensures { IfOk result (λ t. t ≡ token_alone (view value.now)) }
{
    if !has_request_keys(value, ["token"].as_slice()) {
        return Ok(None);
    }
    match text(value, "token") {
        Some(token) => Ok(Some(Text::copy(alloc, token)?)),
        None => Ok(None),
    }
}

/// An operator's request to let the design stand still.
fn halt_request(alloc: Global, value: &Value) -> Result<Option<Request>, AllocError>
    ensures { IfOk result (λ r. r ≡ halt_request (view value.now)) }
{
    match token_alone(alloc, value)? {
        Some(token) => Ok(Some(Request::Halt(HaltOrder { token }))),
        None => Ok(None),
    }
}

/// An operator's request of how the server stands.
fn status_request(alloc: Global, value: &Value) -> Result<Option<Request>, AllocError>
    ensures { IfOk result (λ r. r ≡ status_request (view value.now)) }
{
    match token_alone(alloc, value)? {
        Some(token) => Ok(Some(Request::Status { token })),
        None => Ok(None),
    }
}

/// An operator's request to end the server.
fn shutdown_request(alloc: Global, value: &Value) -> Result<Option<Request>, AllocError>
    ensures { IfOk result (λ r. r ≡ shutdown_request (view value.now)) }
{
    match token_alone(alloc, value)? {
        Some(token) => Ok(Some(Request::Shutdown { token })),
        None => Ok(None),
    }
}

/// The handle under a key that may be left out.
fn handle_if(value: &Value, key: &str) -> Option<Option<u32>>
    ensures { result ≡ number_if key.now (view value.now) }
{
    if value.get(key).is_none() {
        return Some(None);
    }
    match handle_under(value, key) {
        Some(handle) => Some(Some(handle)),
        None => None,
    }
}

/// The query of a handle.
fn handle_query(alloc: Global, value: &Value) -> Result<Option<Query>, AllocError>
    ensures { IfOk result (λ q. q ≡ handle_query (view value.now)) }
{
    if !has_keys(value, ["name"].as_slice(), ["op", "scope"].as_slice()) {
        return Ok(None);
    }
    match (text(value, "name"), handle_if(value, "scope")) {
        (Some(name), Some(scope)) => Ok(Some(Query::Handle {
            name: Text::copy(alloc, name)?,
            scope,
        })),
        _ => Ok(None),
    }
}

/// The query of an iteration.
fn iterate_query(value: &Value) -> Option<Query>
    ensures { result ≡ iterate_query (view value.now) }
{
    if !has_keys(value, ["kind"].as_slice(), ["op", "h"].as_slice()) {
        return None;
    }
    let kind = Kind::of_name(text(value, "kind")?)?;
    let scope = handle_if(value, "h")?;
    Some(Query::Iterate { kind, scope })
}

/// The number of an object that a word names.
fn number_property(word: &str) -> Option<NumberProperty>
    ensures { result ≡ number_property word.now }
{
    match word {
        "size" => Some(NumberProperty::Size),
        "line" => Some(NumberProperty::Line),
        _ => None,
    }
}

/// The query of a number of an object.
fn get_query(value: &Value) -> Option<Query>
    ensures { result ≡ get_query (view value.now) }
{
    if !has_request_keys(value, ["h", "prop"].as_slice()) {
        return None;
    }
    let handle = handle_under(value, "h")?;
    let property = number_property(text(value, "prop")?)?;
    Some(Query::Get { handle, property })
}

/// The text of an object that a word names.
fn text_property(word: &str) -> Option<TextProperty>
    ensures { result ≡ text_property word.now }
{
    match word {
        "type" => Some(TextProperty::Type),
        "name" => Some(TextProperty::Name),
        "full_name" => Some(TextProperty::FullName),
        "def_name" => Some(TextProperty::DefinitionName),
        _ => None,
    }
}

/// The query of a text of an object.
fn get_str_query(value: &Value) -> Option<Query>
    ensures { result ≡ get_str_query (view value.now) }
{
    if !has_request_keys(value, ["h", "prop"].as_slice()) {
        return None;
    }
    let handle = handle_under(value, "h")?;
    let property = text_property(text(value, "prop")?)?;
    Some(Query::GetStr { handle, property })
}

/// The format of values that a word names.
fn format_of(word: &str) -> Option<ValueFormat>
    ensures { result ≡ format_of word.now }
{
    match word {
        "bin" => Some(ValueFormat::Binary),
        "vec" => Some(ValueFormat::Vector),
        _ => None,
    }
}

/// The format that a value is asked in, by default binary digits.
fn format_under(value: &Value) -> Option<ValueFormat>
    ensures { result ≡ format_at (view value.now) }
{
    if value.get("format").is_none() {
        return Some(ValueFormat::Binary);
    }
    format_of(text(value, "format")?)
}

/// The query of a value.
fn value_query(value: &Value) -> Option<Query>
    ensures { result ≡ value_query (view value.now) }
{
    if !has_keys(value, ["h"].as_slice(), ["op", "format"].as_slice()) {
        return None;
    }
    let handle = handle_under(value, "h")?;
    let format = format_under(value)?;
    Some(Query::Value { handle, format })
}

/// The number of 32 bits at an index of an array.
fn number_in(array: &Value, index: usize) -> Option<u32>
    ensures { result ≡ number_in index (view array.now) }
{
    match array.get(index).and_then(Value::as_u64) {
        Some(number) => u32::try_from(number).ok(),
        None => None,
    }
}

/// A word of a vector: an array of two numbers of 32 bits.
fn word_in(pair: &Value) -> Option<VectorWord>
    ensures { result ≡ word_in (view pair.now) }
{
    if pair.get(2usize).is_some() {
        return None;
    }
    let aval = number_in(pair, 0)?;
    let bval = number_in(pair, 1)?;
    Some(VectorWord { aval, bval })
}

/// The words of a vector; none where one of the items is no word.
fn words_of(alloc: Global, items: &[Value]) -> Result<Option<Sequence<VectorWord>>, AllocError>
    ensures { IfOk result (λ words. words ≡ each_of word_in (items_view items.now)) }
{
    let mut words = Vec::new(alloc);
    for item in items {
        let Some(word) = word_in(item) else {
            return Ok(None);
        };
        words.push(word)?;
    }
    Ok(Some(Sequence::from_vec(words)))
}

/// The words of a vector under a key.
fn words_under(
    alloc: Global,
    value: &Value,
    key: &str,
) -> Result<Option<Sequence<VectorWord>>, AllocError>
    ensures { IfOk result (λ words. words ≡ words_at key.now (view value.now)) }
{
    match value.get(key).and_then(Value::as_array) {
        Some(items) => words_of(alloc, items.as_slice()),
        None => Ok(None),
    }
}

/// The query of a put by digits.
fn digits_query(alloc: Global, value: &Value) -> Result<Option<Query>, AllocError>
    ensures { IfOk result (λ q. q ≡ digits_query (view value.now)) }
{
    if !has_request_keys(value, ["h", "value"].as_slice()) {
        return Ok(None);
    }
    match (handle_under(value, "h"), text(value, "value")) {
        (Some(handle), Some(digits)) => Ok(Some(Query::Put {
            handle,
            value: PutValue::Digits(Text::copy(alloc, digits)?),
        })),
        _ => Ok(None),
    }
}

/// The query of a put by words.
fn vector_query(alloc: Global, value: &Value) -> Result<Option<Query>, AllocError>
    ensures { IfOk result (λ q. q ≡ vector_query (view value.now)) }
{
    if !has_request_keys(value, ["h", "vector"].as_slice()) {
        return Ok(None);
    }
    match (
        handle_under(value, "h"),
        words_under(alloc, value, "vector")?,
    ) {
        (Some(handle), Some(words)) => Ok(Some(Query::Put {
            handle,
            value: PutValue::Words(words),
        })),
        _ => Ok(None),
    }
}

/// The query of a put: by digits, or else by words.
fn put_query(alloc: Global, value: &Value) -> Result<Option<Query>, AllocError>
    ensures { IfOk result (λ q. q ≡ put_query (view value.now)) }
{
    if value.get("value").is_some() {
        digits_query(alloc, value)
    } else {
        vector_query(alloc, value)
    }
}

/// The query to compare two handles.
fn compare_query(value: &Value) -> Option<Query>
    ensures { result ≡ compare_query (view value.now) }
{
    if !has_request_keys(value, ["a", "b"].as_slice()) {
        return None;
    }
    let first = handle_under(value, "a")?;
    let second = handle_under(value, "b")?;
    Some(Query::Compare { first, second })
}

/// The query to free a handle.
fn free_query(value: &Value) -> Option<Query>
    ensures { result ≡ free_query (view value.now) }
{
    if has_request_keys(value, ["h"].as_slice()) {
        Some(Query::Free {
            handle: handle_under(value, "h")?,
        })
    } else {
        None
    }
}

/// The query to be notified of an object's changes.
fn watch_query(value: &Value) -> Option<Query>
    ensures { result ≡ watch_query (view value.now) }
{
    if has_request_keys(value, ["h"].as_slice()) {
        Some(Query::Watch {
            handle: handle_under(value, "h")?,
        })
    } else {
        None
    }
}

/// The query not to be notified by a callback any more.
fn unwatch_query(value: &Value) -> Option<Query>
    ensures { result ≡ unwatch_query (view value.now) }
{
    if has_request_keys(value, ["cb"].as_slice()) {
        Some(Query::Unwatch {
            callback: handle_under(value, "cb")?,
        })
    } else {
        None
    }
}

/// The query of what was to be reported.
fn poll_query(value: &Value) -> Option<Query>
    ensures { result ≡ poll_query (view value.now) }
{
    if has_request_keys(value, [].as_slice()) {
        Some(Query::Poll)
    } else {
        None
    }
}

/// The number of 64 bits under a key; 1 where there is none.
fn from_under(value: &Value, key: &str) -> Option<u64>
    ensures { result ≡ from_at key.now (view value.now) }
{
    if value.get(key).is_some() {
        number(value, key)
    } else {
        Some(1)
    }
}

/// The query of the races that are shown.
fn races_query(value: &Value) -> Option<Query>
    ensures { result ≡ races_query (view value.now) }
{
    if has_keys(value, [].as_slice(), ["op", "from"].as_slice()) {
        Some(Query::Races {
            from: from_under(value, "from")?,
        })
    } else {
        None
    }
}

/// The query of a race that is shown.
fn race_query(value: &Value) -> Option<Query>
    ensures { result ≡ race_query (view value.now) }
{
    if has_request_keys(value, ["no"].as_slice()) {
        Some(Query::Race {
            number: number(value, "no")?,
        })
    } else {
        None
    }
}

/// The query to let the design run.
fn run_query(value: &Value) -> Option<Query>
    ensures { result ≡ run_query (view value.now) }
{
    if has_request_keys(value, ["until"].as_slice()) {
        Some(Query::Run {
            until: time_under(value, "until")?,
        })
    } else {
        None
    }
}

/// The query to let the design stand still.
fn stop_query(value: &Value) -> Option<Query>
    ensures { result ≡ stop_query (view value.now) }
{
    if has_request_keys(value, [].as_slice()) {
        Some(Query::Stop)
    } else {
        None
    }
}

/// The query of the time.
fn time_query(value: &Value) -> Option<Query>
    ensures { result ≡ time_query (view value.now) }
{
    if has_request_keys(value, [].as_slice()) {
        Some(Query::Time)
    } else {
        None
    }
}

/// The query of an op that an open session asks.
fn query_of_op(alloc: Global, op: &str, value: &Value) -> Result<Option<Query>, AllocError>
    ensures { IfOk result (λ q. q ≡ query_of_op op.now (view value.now)) }
{
    match op {
        "handle" => handle_query(alloc, value),
        "iterate" => Ok(iterate_query(value)),
        "get" => Ok(get_query(value)),
        "get_str" => Ok(get_str_query(value)),
        "value" => Ok(value_query(value)),
        "put" => put_query(alloc, value),
        "compare" => Ok(compare_query(value)),
        "free" => Ok(free_query(value)),
        "watch" => Ok(watch_query(value)),
        "unwatch" => Ok(unwatch_query(value)),
        "poll" => Ok(poll_query(value)),
        "races" => Ok(races_query(value)),
        "race" => Ok(race_query(value)),
        "run" => Ok(run_query(value)),
        "time" => Ok(time_query(value)),
        _ => Ok(None),
    }
}

/// A query as a request, if it is one.
fn query_request(query: Option<Query>) -> Option<Request>
    ensures { result ≡ query_request query }
{
    match query {
        Some(query) => Some(Request::Call(Call::Query(query))),
        None => None,
    }
}

/// The request to let the design stand still: an operator's where a token is given, else a session's.
fn stop_request(alloc: Global, value: &Value) -> Result<Option<Request>, AllocError>
    ensures { IfOk result (λ r. r ≡ stop_request (view value.now)) }
{
    if value.get("token").is_some() {
        halt_request(alloc, value)
    } else {
        Ok(query_request(stop_query(value)))
    }
}

/// The request of an op that an operator asks, or a session that is open.
fn order_of_op(alloc: Global, op: &str, value: &Value) -> Result<Option<Request>, AllocError>
    ensures { IfOk result (λ r. r ≡ order_of_op op.now (view value.now)) }
{
    match op {
        "grant" => grant_request(alloc, value),
        "end" => end_request(alloc, value),
        "stop" => stop_request(alloc, value),
        "status" => status_request(alloc, value),
        "shutdown" => shutdown_request(alloc, value),
        _ => Ok(query_request(query_of_op(alloc, op, value)?)),
    }
}

/// The request of an op (docs/FORMATS.md, "Lines").
fn request_of_op(alloc: Global, op: &str, value: &Value) -> Result<Option<Request>, AllocError>
    ensures { IfOk result (λ r. r ≡ request_of_op op.now (view value.now)) }
{
    match op {
        "open" => open_request(alloc, value),
        "close" => Ok(close_request(value)),
        _ => order_of_op(alloc, op, value),
    }
}

/// The request of a JSON value.
fn request_of(alloc: Global, value: &Value) -> Result<Request, WireError>
    ensures ok { IfOk result (λ r. request_of (view value.now) ≡ Some r) }
    ensures bad { IsErrOf result WireError.BadRequest → request_of (view value.now) ≡ None }
    ensures err { IfErr result (λ e. (e ≡ WireError.BadRequest) ⊎ (e ≡ WireError.NoMemory)) }
{
    let Some(op) = text(value, "op") else {
        return Err(WireError::BadRequest);
    };
    match request_of_op(alloc, op, value) {
        Ok(Some(request)) => Ok(request),
        Ok(None) => Err(WireError::BadRequest),
        Err(_) => Err(WireError::NoMemory),
    }
}

/// The request of a line without its newline; or `BadJson` (1501), `BadRequest` (1502), or out of memory (1507).
#[tactic(auto, using(crate::proofs::Meanings::meaning_of_other))]
pub fn request(alloc: Global, line: &[u8]) -> Result<Request, WireError>
    ensures ok { IfOk result (λ r. meaning_of line.now ≡ Asks r) }
    ensures bad_json { IsErrOf result WireError.BadJson → meaning_of line.now ≡ NotJson }
    ensures bad_request { IsErrOf result WireError.BadRequest → meaning_of line.now ≡ NotRequest }
    ensures err { IfErr result
        (λ e. (e ≡ WireError.BadJson) ⊎ ((e ≡ WireError.BadRequest) ⊎ (e ≡ WireError.NoMemory))) }
{
    match read(alloc, line) {
        Ok(value) => request_of(alloc, &value),
        Err(ReadError::NotJson) => Err(WireError::BadJson),
        Err(ReadError::NoMemory) => Err(WireError::NoMemory),
    }
}

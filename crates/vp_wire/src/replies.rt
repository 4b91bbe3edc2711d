// Replies (docs/FORMATS.md, "Lines").
ghost use Rattle.std.specs.Prelude.{◌≡◌, ◌++◌, ◌∷◌, [], None, map, string_bytes, IfOk, IsOkUnless, OnOk};
ghost use Rattle.serde_json.specs.Data.{array, put as with_member, string};
ghost use Rattle.serde_json.specs.View.{items_of, members_view, view};
ghost use Rattle.vp_wire.specs.Lines.{both_steps_data, by_text, callback_data, data_of, denial_data, denial_members, digits_data, done_data, error_data, handle_data, job_data, line_of, listed_data, listing_data, notice_data, number_data, numbers_data, only, pair_data, polled_data, race_data, race_line_data, races_data, run_denial_data, same_data, status_data, steps_data, text_data, time_data, user_sessions_data, values_data, vector_data, words_data, words_of, world_status_data};

use crate::error::WireError;
use serde_json::{Map, Value, put};
use std::alloc::{AllocError, Global};
use vp_answer::{Refusal, Reply, ServerStatus, UserSessions, WorldStatus};
use vp_bits::Bits;
use vp_notify::{Notices, PolledNotice};
use vp_policy::{DenialText, ShownBarrier};
use vp_text::Text;
use vp_vpi::{ListedObject, Listing, RaceDetails, RaceLine};

/// An object of one member.
fn only(alloc: Global, key: &str, value: Value) -> Result<Value, AllocError>
    ensures { IfOk result (λ v. view v ≡ only key.now (view value)) }
{
    let mut members = Map::new(alloc);
    put(&mut members, alloc, key, value)?;
    Ok(Value::Object(members))
}

/// It was done.
fn done_value(alloc: Global) -> Result<Value, AllocError>
    ensures { IfOk result (λ v. view v ≡ done_data) }
{
    only(alloc, "ok", Value::Bool(true))
}

/// A handle.
fn handle_value(alloc: Global, handle: u32) -> Result<Value, AllocError>
    ensures { IfOk result (λ v. view v ≡ handle_data handle) }
{
    only(alloc, "h", Value::from(handle))
}

/// Numbers.
fn numbers_value(alloc: Global, numbers: &[u8]) -> Result<Value, AllocError>
    ensures { IfOk result (λ v. view v ≡ numbers_data numbers.now) }
{
    let mut items = Vec::new(alloc);
    for number in numbers {
        items.push(Value::from(*number))?;
    }
    Ok(Value::Array(items))
}

/// An object of an iteration.
fn listed_value(alloc: Global, object: &ListedObject) -> Result<Value, AllocError>
    ensures { IfOk result (λ v. view v ≡ listed_data object.now) }
{
    let mut members = Map::new(alloc);
    put(&mut members, alloc, "h", Value::from(object.handle))?;
    put_text(alloc, &mut members, "name", object.name.as_str())?;
    Ok(Value::Object(members))
}

/// The objects of an iteration.
fn items_value(alloc: Global, objects: &[ListedObject]) -> Result<Value, AllocError>
    ensures { IfOk result (λ v. view v ≡ array (items_of (map listed_data objects.now))) }
{
    let mut items = Vec::new(alloc);
    for object in objects {
        items.push(listed_value(alloc, object)?)?;
    }
    Ok(Value::Array(items))
}

/// What is reported of an iteration.
fn listing_value(alloc: Global, listing: &Listing) -> Result<Value, AllocError>
    ensures { IfOk result (λ v. view v ≡ listing_data listing.now) }
{
    let mut members = Map::new(alloc);
    let closed = numbers_value(alloc, listing.closed.as_slice())?;
    put(&mut members, alloc, "closed", closed)?;
    let items = items_value(alloc, listing.items.as_slice())?;
    put(&mut members, alloc, "items", items)?;
    Ok(Value::Object(members))
}

/// The bits of a vector, in binary digits.
fn digits_value(alloc: Global, bits: Bits) -> Result<Value, AllocError>
    ensures { IfOk result (λ v. view v ≡ digits_data bits) }
{
    match bits.to_bin(alloc) {
        Ok(digits) => Ok(Value::String(digits)),
        Err(_) => Err(AllocError),
    }
}

/// The value of a vector, in binary digits.
fn vector_value(alloc: Global, bits: Bits) -> Result<Value, AllocError>
    ensures { IfOk result (λ v. view v ≡ vector_data bits) }
{
    only(alloc, "value", digits_value(alloc, bits)?)
}

/// A number of an object.
fn number_value(alloc: Global, number: u32) -> Result<Value, AllocError>
    ensures { IfOk result (λ v. view v ≡ number_data number) }
{
    only(alloc, "n", Value::from(number))
}

/// A text of an object.
fn text_value(alloc: Global, text: &str) -> Result<Value, AllocError>
    ensures { IfOk result (λ v. view v ≡ text_data text.now) }
{
    only(alloc, "s", Value::try_from_str(alloc, text)?)
}

/// Two numbers.
fn pair_value(alloc: Global, first: u64, second: u64) -> Result<Value, AllocError>
    ensures { IfOk result (λ v. view v ≡ pair_data first second) }
{
    let mut pair = Vec::new(alloc);
    pair.push(Value::from(first))?;
    pair.push(Value::from(second))?;
    Ok(Value::Array(pair))
}

/// The words of 32 bits of a vector of a width with the words aval and bval, least significant first.
fn words_value(alloc: Global, width: u8, aval: u64, bval: u64) -> Result<Value, AllocError>
    ensures { IfOk result (λ v. view v ≡ array (words_of width aval bval)) }
{
    let mut words = Vec::new(alloc);
    if width <= 32 {
        words.push(pair_value(alloc, aval, bval)?)?;
    } else {
        words.push(pair_value(alloc, aval % 4_294_967_296, bval % 4_294_967_296)?)?;
        words.push(pair_value(alloc, aval / 4_294_967_296, bval / 4_294_967_296)?)?;
    }
    Ok(Value::Array(words))
}

/// The value of a vector, in words of 32 bits.
fn vector_words(alloc: Global, bits: Bits) -> Result<Value, AllocError>
    ensures { IfOk result (λ v. view v ≡ words_data bits) }
{
    let (aval, bval) = bits.words();
    only(
        alloc,
        "vector",
        words_value(alloc, bits.width(), aval, bval)?,
    )
}

/// Whether two handles are of one object.
fn same_value(alloc: Global, same: bool) -> Result<Value, AllocError>
    ensures { IfOk result (λ v. view v ≡ same_data same) }
{
    only(alloc, "same", Value::Bool(same))
}

/// A callback.
fn callback_value(alloc: Global, callback: u32) -> Result<Value, AllocError>
    ensures { IfOk result (λ v. view v ≡ callback_data callback) }
{
    only(alloc, "cb", Value::from(callback))
}

/// A notice.
fn notice_value(alloc: Global, notice: &PolledNotice) -> Result<Value, AllocError>
    ensures { IfOk result (λ v. view v ≡ notice_data notice.now) }
{
    let mut members = Map::new(alloc);
    put(&mut members, alloc, "cb", Value::from(notice.callback))?;
    put(&mut members, alloc, "time", Value::from(notice.time))?;
    put(
        &mut members,
        alloc,
        "value",
        digits_value(alloc, notice.value)?,
    )?;
    Ok(Value::Object(members))
}

/// Notices.
fn notices_value(alloc: Global, notices: &[PolledNotice]) -> Result<Value, AllocError>
    ensures { IfOk result (λ v. view v ≡ array (items_of (map notice_data notices.now))) }
{
    let mut items = Vec::new(alloc);
    for notice in notices {
        items.push(notice_value(alloc, notice)?)?;
    }
    Ok(Value::Array(items))
}

/// What a poll reports.
fn polled_value(alloc: Global, polled: &Notices) -> Result<Value, AllocError>
    ensures { IfOk result (λ v. view v ≡ polled_data polled.now) }
{
    let mut members = Map::new(alloc);
    put(&mut members, alloc, "lost", Value::from(polled.lost))?;
    let notices = notices_value(alloc, polled.notices.as_slice())?;
    put(&mut members, alloc, "notices", notices)?;
    Ok(Value::Object(members))
}

/// Two values, in binary digits.
fn values_value(alloc: Global, values: (Bits, Bits)) -> Result<Value, AllocError>
    ensures { IfOk result (λ v. view v ≡ values_data values) }
{
    let mut items = Vec::new(alloc);
    items.push(digits_value(alloc, values.0)?)?;
    items.push(digits_value(alloc, values.1)?)?;
    Ok(Value::Array(items))
}

/// A race in a list.
fn race_line_value(alloc: Global, line: &RaceLine) -> Result<Value, AllocError>
    ensures { IfOk result (λ v. view v ≡ race_line_data line.now) }
{
    let mut members = Map::new(alloc);
    put_text(alloc, &mut members, "name", line.name.as_str())?;
    put(&mut members, alloc, "no", Value::from(line.number))?;
    put(&mut members, alloc, "time", Value::from(line.time))?;
    let values = values_value(alloc, line.values)?;
    put(&mut members, alloc, "values", values)?;
    Ok(Value::Object(members))
}

/// Races in a list.
fn race_lines_value(alloc: Global, lines: &[RaceLine]) -> Result<Value, AllocError>
    ensures { IfOk result (λ v. view v ≡ array (items_of (map race_line_data lines.now))) }
{
    let mut items = Vec::new(alloc);
    for line in lines {
        items.push(race_line_value(alloc, line)?)?;
    }
    Ok(Value::Array(items))
}

/// Races.
fn races_value(alloc: Global, lines: &[RaceLine]) -> Result<Value, AllocError>
    ensures { IfOk result (λ v. view v ≡ races_data lines.now) }
{
    only(alloc, "races", race_lines_value(alloc, lines)?)
}

/// The steps of an order, by the names of their processes.
fn steps_value(alloc: Global, steps: &[Text]) -> Result<Value, AllocError>
    ensures { IfOk result (λ v. view v ≡ steps_data steps.now) }
{
    let mut items = Vec::new(alloc);
    for step in steps {
        items.push(Value::try_from_str(alloc, step.as_str())?)?;
    }
    Ok(Value::Array(items))
}

/// The steps of both orders of a race.
fn both_steps(alloc: Global, race: &RaceDetails) -> Result<Value, AllocError>
    ensures { IfOk result (λ v. view v ≡ both_steps_data race.now) }
{
    let mut items = Vec::new(alloc);
    items.push(steps_value(alloc, race.first_steps.as_slice())?)?;
    items.push(steps_value(alloc, race.second_steps.as_slice())?)?;
    Ok(Value::Array(items))
}

/// A race with its steps.
fn race_value(alloc: Global, race: &RaceDetails) -> Result<Value, AllocError>
    ensures { IfOk result (λ v. view v ≡ race_data race.now) }
{
    let mut members = Map::new(alloc);
    put_text(alloc, &mut members, "name", race.line.name.as_str())?;
    put(&mut members, alloc, "no", Value::from(race.line.number))?;
    let steps = both_steps(alloc, race)?;
    put(&mut members, alloc, "steps", steps)?;
    put(&mut members, alloc, "time", Value::from(race.line.time))?;
    let values = values_value(alloc, race.line.values)?;
    put(&mut members, alloc, "values", values)?;
    Ok(Value::Object(members))
}

/// The number of a segment that is handed out.
fn job_value(alloc: Global, job: u64) -> Result<Value, AllocError>
    ensures { IfOk result (λ v. view v ≡ job_data job) }
{
    only(alloc, "job", Value::from(job))
}

/// What keeps a user out, in a line.
fn by_text(by: ShownBarrier) -> &'static str
    ensures { result.now ≡ by_text by }
{
    match by {
        ShownBarrier::Viewport => "viewport",
        ShownBarrier::Envelope => "envelope",
        ShownBarrier::Grant => "grant",
    }
}

/// Puts a text under a key of an object.
fn put_text(
    alloc: Global,
    members: &mut Map<String, Value>,
    key: &str,
    text: &str,
) -> Result<(), AllocError>
    ensures { OnOk result (members_view members.new.entries
        ≡ with_member key.now (string text.now) (members_view members.old.entries)) }
{
    put(members, alloc, key, Value::try_from_str(alloc, text)?)
}

/// The members of a denial, but for the object of a viewport.
fn denial_members(
    alloc: Global,
    author: &str,
    by: &str,
    number: u8,
    right: &str,
) -> Result<Map<String, Value>, AllocError>
    ensures { IfOk result (λ m. members_view m.entries
        ≡ denial_members author.now by.now number None right.now) }
{
    let mut members = Map::new(alloc);
    put_text(alloc, &mut members, "author", author)?;
    put_text(alloc, &mut members, "by", by)?;
    put(&mut members, alloc, "no", Value::from(number))?;
    put_text(alloc, &mut members, "right", right)?;
    Ok(members)
}

/// A denial, in its words.
fn denied(alloc: Global, words: &DenialText) -> Result<Value, AllocError>
    ensures { IfOk result (λ v. view v ≡ denial_data words.now) }
{
    let by = by_text(words.by());
    let right = words.right().name();
    let mut members = denial_members(alloc, words.author(), by, words.envelope(), right)?;
    let Some(object) = words.object() else {
        return only(alloc, "denied", Value::Object(members));
    };
    put_text(alloc, &mut members, "object", object)?;
    only(alloc, "denied", Value::Object(members))
}

/// The denial of a run: by the grant for the open text, which has no author.
fn run_denied(alloc: Global) -> Result<Value, AllocError>
    ensures { IfOk result (λ v. view v ≡ run_denial_data) }
{
    let members = denial_members(alloc, "", "grant", 0, "run")?;
    only(alloc, "denied", Value::Object(members))
}

/// The current time, in time units, and whether `$finish` was executed.
fn time_value(alloc: Global, time: u64, finished: bool) -> Result<Value, AllocError>
    ensures { IfOk result (λ v. view v ≡ time_data time finished) }
{
    let mut members = Map::new(alloc);
    put(&mut members, alloc, "finished", Value::Bool(finished))?;
    put(&mut members, alloc, "time", Value::from(time))?;
    Ok(Value::Object(members))
}

/// How many sessions a user has open.
fn user_sessions_value(alloc: Global, sessions: &UserSessions) -> Result<Value, AllocError>
    ensures { IfOk result (λ v. view v ≡ user_sessions_data sessions.now) }
{
    let mut members = Map::new(alloc);
    put(
        &mut members,
        alloc,
        "sessions",
        Value::from(sessions.sessions),
    )?;
    put_text(alloc, &mut members, "user", sessions.user.as_str())?;
    Ok(Value::Object(members))
}

/// How many sessions each user has open.
fn users_value(alloc: Global, users: &[UserSessions]) -> Result<Value, AllocError>
    ensures { IfOk result (λ v. view v ≡ array (items_of (map user_sessions_data users.now))) }
{
    let mut items = Vec::new(alloc);
    for user in users {
        items.push(user_sessions_value(alloc, user)?)?;
    }
    Ok(Value::Array(items))
}

/// How a world stands.
fn world_status_value(alloc: Global, world: &WorldStatus) -> Result<Value, AllocError>
    ensures { IfOk result (λ v. view v ≡ world_status_data world.now) }
{
    let mut members = Map::new(alloc);
    put(&mut members, alloc, "bytes", Value::from(world.bytes))?;
    put(&mut members, alloc, "entries", Value::from(world.entries))?;
    put(&mut members, alloc, "held", Value::from(world.held))?;
    put(&mut members, alloc, "jobs", Value::from(world.jobs))?;
    put(&mut members, alloc, "races", Value::from(world.races))?;
    put(&mut members, alloc, "running", Value::Bool(world.running))?;
    let users = users_value(alloc, world.sessions.as_slice())?;
    put(&mut members, alloc, "sessions", users)?;
    put(&mut members, alloc, "time", Value::from(world.time))?;
    Ok(Value::Object(members))
}

/// How a server stands.
fn status_value(alloc: Global, status: &ServerStatus) -> Result<Value, AllocError>
    ensures { IfOk result (λ v. view v ≡ status_data status.now) }
{
    let mut members = Map::new(alloc);
    put(
        &mut members,
        alloc,
        "connections",
        Value::from(status.connections),
    )?;
    put(&mut members, alloc, "denials", Value::from(status.denials))?;
    put_text(alloc, &mut members, "version", status.version.as_str())?;
    let world = world_status_value(alloc, &status.world)?;
    put(&mut members, alloc, "world", world)?;
    put(
        &mut members,
        alloc,
        "wrong_tokens",
        Value::from(status.wrong_tokens),
    )?;
    Ok(Value::Object(members))
}

/// Another refusal.
fn error_value(alloc: Global, refusal: Refusal) -> Result<Value, AllocError>
    ensures { IfOk result (λ v. view v ≡ error_data refusal) }
{
    only(alloc, "error", Value::try_from_str(alloc, refusal.text())?)
}

/// A reply as a JSON value.
fn value_of(alloc: Global, reply: &Reply) -> Result<Value, AllocError>
    ensures { IfOk result (λ v. view v ≡ data_of reply.now) }
{
    match reply {
        Reply::Opened(_) | Reply::Done => done_value(alloc),
        Reply::Handle(handle) => handle_value(alloc, *handle),
        Reply::Listing(listing) => listing_value(alloc, listing.value()),
        Reply::Number(number) => number_value(alloc, *number),
        Reply::Text(text) => text_value(alloc, text.as_str()),
        Reply::Value(bits) => vector_value(alloc, *bits),
        Reply::Vector(bits) => vector_words(alloc, *bits),
        Reply::Same(same) => same_value(alloc, *same),
        Reply::Callback(callback) => callback_value(alloc, *callback),
        Reply::Notices(polled) => polled_value(alloc, polled.value()),
        Reply::Races(races) => races_value(alloc, races.value().as_slice()),
        Reply::Race(race) => race_value(alloc, race.value()),
        Reply::Job(job) => job_value(alloc, *job),
        Reply::Denied(words) => denied(alloc, words),
        Reply::RunDenied => run_denied(alloc),
        Reply::Time { time, finished } => time_value(alloc, *time, *finished),
        Reply::Status(status) => status_value(alloc, status.value()),
        Reply::Error(refusal) => error_value(alloc, *refusal),
    }
}

/// A reply as compact JSON with its keys in the order of their bytes: its line without the newline. Takes memory (1507).
#[tactic(auto, using(crate::proofs::Floats::reply_whole))]
pub fn reply_text(alloc: Global, reply: &Reply) -> Result<String, WireError>
    ensures ok { IfOk result (λ text. string_bytes text ++ 10 ∷ [] ≡ line_of reply.now) }
    ensures err { IsOkUnless result WireError.NoMemory }
{
    Ok(value_of(alloc, reply)?.to_string(alloc)?)
}

/// The line of a reply: compact JSON with its keys in the order of their bytes, and a newline. Takes memory (1507).
#[tactic(auto, using(crate::proofs::Floats::reply_whole))]
pub fn reply_line(alloc: Global, reply: &Reply) -> Result<Vec<u8>, WireError>
    ensures ok { IfOk result (λ line. line.items ≡ line_of reply.now) }
    ensures err { IsOkUnless result WireError.NoMemory }
{
    let mut line = value_of(alloc, reply)?.to_vec(alloc)?;
    line.push(b'\n')?;
    Ok(line)
}

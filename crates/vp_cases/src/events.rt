//! Worlds to which the events of a case happen, one a line, and the lines that they are answered.
ghost use Rattle.std.specs.Prelude.{IfOk, IfSome};
ghost use Rattle.vp_elab.specs.Built.{Elaborated};
ghost use Rattle.vp_world.specs.declared.event.Event.TheVariants as event;
ghost use Rattle.vp_world.specs.Events.{IsWellFormed};

use std::alloc::{AllocError, Global};
use std::sync::Arc;
use vp_answer::{Call, Reply, Request, SessionId};
use vp_design::shared_of;
use vp_elab::ObjectId;
use vp_policy::{UserId, read_policy};
use vp_race::{BookLimits, Finding, OpenGate, RaceError, Segment, check, search};
use vp_text::Shared;
use vp_wire::{reply_line, request};
use vp_world::{Event, Limits, World, WorldError};

/// The limits of some words as `log=100`; the greatest where no word has another.
pub fn limits_of(words: &str) -> Limits {
    let mut limits = Limits::GREATEST;
    for word in words.split_whitespace() {
        if let Some((name, number)) = word.split_once('=')
            && let Ok(number) = number.parse::<usize>()
        {
            limits = with_limit(limits, name, number);
        }
    }
    limits
}

/// The limits with another of a name.
fn with_limit(limits: Limits, name: &str, number: usize) -> Limits {
    match name {
        "log" => Limits {
            log: number,
            ..limits
        },
        "bytes" => Limits {
            bytes: Some(number as u64),
            ..limits
        },
        "races" => Limits {
            book: BookLimits {
                races: number,
                ..limits.book
            },
            ..limits
        },
        "steps" => Limits {
            book: BookLimits {
                steps: number,
                ..limits.book
            },
            ..limits
        },
        "sessions" => Limits {
            sessions: number,
            ..limits
        },
        _ => limits,
    }
}

/// The event of a line of JSON, of a session where it is a session's; none where it is no request, or out of memory.
fn requested(alloc: Global, session: Option<SessionId>, line: &str) -> Option<Event>
    ensures { (design : Elaborated) → IfSome result (IsWellFormed design) }
{
    match request(alloc, line.as_bytes()).ok()? {
        Request::Open { user, token } => Some(Event::Open { user, token }),
        Request::Grant(change) => Some(Event::Grant(change)),
        Request::End(order) => Some(Event::End(order)),
        Request::Halt(order) => Some(Event::Halt(order)),
        Request::Status { .. } | Request::Shutdown { .. } => None,
        Request::Call(Call::Query(query)) => Some(Event::Ask {
            session: session?,
            query,
        }),
        Request::Call(Call::Close) => Some(Event::Close { session: session? }),
    }
}

/// The session of a word as `0.1`: the number of its user, and the how-many-th of the user's it is.
fn session_of(word: &str) -> Option<SessionId> {
    let (user, opens) = word.split_once('.')?;
    Some(SessionId {
        user: UserId(user.parse::<usize>().ok()?),
        opens: opens.parse::<u64>().ok()?,
    })
}

/// The event of a line, but for a booking: `step K`, `advance`, `job`, or a line of JSON after its session, or after `-` where it is of none.
fn event_of(alloc: Global, line: &str) -> Option<Event>
    ensures { (design : Elaborated) → IfSome result (IsWellFormed design) }
{
    match line.split_once(' ') {
        None if line == "advance" => Some(Event::Advance),
        None if line == "job" => Some(Event::TakeJob),
        None => None,
        Some(("step", k)) => Some(Event::Step(k.parse::<u32>().ok()?)),
        Some(("-", line)) => requested(alloc, None, line),
        Some((word, line)) => requested(alloc, Some(session_of(word)?), line),
    }
}

/// The race of an object by an order in the kept segment of a number; or why there is none.
fn race_of(
    alloc: Global,
    world: &World,
    number: u64,
    object: u32,
    order: Vec<u32>,
) -> Result<Shared<Finding>, RaceError>
    ensures { IfOk result (λ f. IsWellFormed world.now.opening.design (event.Book f)) }
{
    let Some(segment) = world.kept(number) else {
        return Err(RaceError::SegmentGone);
    };
    let segment = Arc::new(alloc, segment.try_clone(alloc)?)?;
    let finding = check(alloc, &segment, order, ObjectId(object))?;
    // Read, so that the check knows that it is a race.
    let _segment = finding.segment();
    Ok(Shared::new(alloc, finding)?)
}

/// A search of a segment tries at most so many steps of an order.
const MOST_STEPS: u64 = 10_000;

/// Adds some numbers as words, each after a space.
fn add_words(printed: &mut String, alloc: Global, numbers: &[u32]) -> Result<(), AllocError> {
    for number in numbers {
        let word = format!(in alloc; " {number}")?;
        printed.push_str(&word)?;
    }
    Ok(())
}

/// Adds the objects of some events as words, after the word `by`.
fn add_sources(
    printed: &mut String,
    alloc: Global,
    sources: &[ObjectId],
) -> Result<(), AllocError> {
    printed.push_str(" by")?;
    for source in sources {
        let number = source.0;
        let word = format!(in alloc; " {number}")?;
        printed.push_str(&word)?;
    }
    Ok(())
}

/// Adds the line of a race: its object, both values, the second order, and whose events the orders took.
fn add_race(printed: &mut String, alloc: Global, finding: &Finding) -> Result<(), AllocError> {
    let object = finding.object().0;
    let (first, second) = finding.values();
    let (Ok(first), Ok(second)) = (first.to_bin(alloc), second.to_bin(alloc)) else {
        return Err(AllocError);
    };
    let word = format!(in alloc; "race {object} {first} {second}")?;
    printed.push_str(&word)?;
    let orders = finding.orders();
    add_words(printed, alloc, orders.second())?;
    add_sources(printed, alloc, orders.first_sources())?;
    add_sources(printed, alloc, orders.second_sources())?;
    printed.push('\n')
}

/// Adds the line of a segment, with its time and order, and those of the races that a search by so many seeds finds in it.
fn add_segment(
    printed: &mut String,
    alloc: Global,
    segment: &Segment,
    seeds: u64,
) -> Result<(), AllocError> {
    let number = segment.number();
    let time = segment.time();
    let word = format!(in alloc; "segment {number} {time}")?;
    printed.push_str(&word)?;
    add_words(printed, alloc, &segment.order(alloc)?)?;
    printed.push('\n')?;
    let segment = Arc::new(alloc, segment.try_clone(alloc)?)?;
    let Ok(findings) = search(alloc, &segment, seeds, MOST_STEPS, &OpenGate) else {
        return Err(AllocError);
    };
    for finding in &findings {
        add_race(printed, alloc, finding)?;
    }
    Ok(())
}

/// The lines of all kept segments of a world, and of the races that a search by so many seeds finds in each.
fn segment_lines(alloc: Global, world: &World, seeds: &str) -> Result<String, AllocError> {
    let mut printed = String::new(alloc);
    let seeds = seeds.parse::<u64>().unwrap_or(0);
    for number in 1..u64::MAX {
        let Some(segment) = world.kept(number) else {
            return Ok(printed);
        };
        add_segment(&mut printed, alloc, segment, seeds)?;
    }
    Ok(printed)
}

/// The line of what an event is answered.
fn line_of(alloc: Global, answer: Result<Reply, WorldError>) -> Result<String, AllocError> {
    let reply = match answer {
        Ok(reply) => reply,
        Err(WorldError::Sim(error)) => {
            let code = error.code();
            return format!(in alloc; "refused 1308 {code}\n");
        }
        Err(WorldError::Race(error)) => {
            let code = error.code();
            return format!(in alloc; "refused 1309 {code}\n");
        }
        Err(error) => {
            let code = error.code();
            return format!(in alloc; "refused {code}\n");
        }
    };
    match reply_line(alloc, &reply) {
        Ok(line) => String::from_utf8_lossy(alloc, &line),
        Err(_) => Err(AllocError),
    }
}

/// The numbers of some words; none where a word is no number, or out of memory.
fn numbers_of(alloc: Global, words: &str) -> Option<Vec<u32>> {
    let mut numbers = Vec::new(alloc);
    for word in words.split(' ') {
        numbers.push(word.parse::<u32>().ok()?).ok()?;
    }
    Some(numbers)
}

/// The segment's number, the object's, and the choices of a booking's words, as `1 2 0 1 0`; none where a word is no number, or out of memory.
fn booking_of(alloc: Global, words: &str) -> Option<(u64, u32, Vec<u32>)> {
    let (number, words) = words.split_once(' ')?;
    let (object, words) = words.split_once(' ')?;
    let order = numbers_of(alloc, words)?;
    let object = object.parse::<u32>().ok()?;
    Some((number.parse::<u64>().ok()?, object, order))
}

/// The line of what a world answers to a booking of some words.
fn booked_line(alloc: Global, world: &mut World, words: &str) -> Result<String, AllocError> {
    let Some((number, object, order)) = booking_of(alloc, words) else {
        return String::from_str(alloc, "no booking\n");
    };
    match race_of(alloc, world, number, object, order) {
        Ok(finding) => line_of(alloc, world.apply(Event::Book(finding))),
        Err(error) => {
            let code = error.code();
            format!(in alloc; "no race {code}\n")
        }
    }
}

/// What a world answers to events of some words, as a line: each word is the choice of a step, or `a` for an advance, and of each stands
/// 0 where it was done, or the refusal's own code.
fn run_line(alloc: Global, world: &mut World, words: &str) -> Result<String, AllocError> {
    let mut printed = String::from_str(alloc, "run")?;
    for word in words.split(' ') {
        let event = match word.parse::<u32>() {
            Ok(k) => Event::Step(k),
            Err(_) => Event::Advance,
        };
        let code = match world.apply(event) {
            Ok(_) => 0,
            Err(WorldError::Sim(error)) => error.code(),
            Err(error) => error.code(),
        };
        add_words(&mut printed, alloc, &[code])?;
    }
    printed.push('\n')?;
    Ok(printed)
}

/// What a world answers to a line of a case, as a line: of `entries` how long its log is, of another line what its event is answered.
fn answer_line(alloc: Global, world: &mut World, line: &str) -> Result<String, AllocError> {
    if line == "entries" {
        let count = world.log().len();
        return format!(in alloc; "entries {count}\n");
    }
    if let Some(seeds) = line.strip_prefix("races ") {
        return segment_lines(alloc, world, seeds);
    }
    if let Some(words) = line.strip_prefix("run ") {
        return run_line(alloc, world, words);
    }
    if let Some(words) = line.strip_prefix("book ") {
        return booked_line(alloc, world, words);
    }
    match event_of(alloc, line) {
        Some(event) => line_of(alloc, world.apply(event)),
        None => String::from_str(alloc, "no event\n"),
    }
}

/// What a world answers to the lines of a case, one after another.
fn answers_in(alloc: Global, world: &mut World, lines: &str) -> Result<String, AllocError> {
    let mut printed = String::new(alloc);
    for line in lines.lines() {
        let answered = answer_line(alloc, world, line)?;
        printed.push_str(&answered)?;
    }
    Ok(printed)
}

/// A world of a text and a policy in which nothing has happened; none where one of them is refused, or out of memory.
fn world_of(alloc: Global, text: &str, policy: &[u8], limits: Limits) -> Option<World> {
    let checked = shared_of(alloc, text)?;
    let policy = read_policy(alloc, policy, checked.design()).ok()?;
    World::new(alloc, checked, policy, limits).ok()
}

/// What a new world of a text, a policy and some limits answers to the lines of a case, one after another.
pub fn answers(
    alloc: Global,
    text: &str,
    policy: &str,
    limits: Limits,
    lines: &str,
) -> Result<String, AllocError> {
    let Some(mut world) = world_of(alloc, text, policy.as_bytes(), limits) else {
        return String::from_str(alloc, "no world\n");
    };
    let printed = answers_in(alloc, &mut world, lines);
    drop(world);
    printed
}

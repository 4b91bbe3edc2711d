//! That the comparison finds what differs. Each trial changes one thing of what was shown or of the log, compares, and changes it back; a comparison
//! that finds nothing would fail them.
ghost use Rattle.std.specs.Prelude.{IfOk};
ghost use Rattle.vp_elab.specs.Built.{Elaborated};
ghost use Rattle.vp_load.specs.Logs.{AreWellFormed};

use crate::compare::{compare_transcripts, compare_world};
use crate::difference::Difference;
use crate::load::Transcripts;
use crate::operator::Order;
use crate::texts::world_of;
use std::alloc::{AllocError, Global};
use std::sync::Arc;
use vp_answer::{Query, Reply, SessionId};
use vp_expr::Checked;
use vp_policy::UserId;
use vp_text::Text;
use vp_world::{Asked, Entry, Limits, Log, LoggedEvent, Login};

/// What first differs between a log and what was shown.
fn first_difference(alloc: Global, log: &Log, transcripts: &Transcripts) -> Option<Difference> {
    compare_transcripts(alloc, log, 0, transcripts).err()
}

/// That the last byte that user 6 was shown is another is found.
fn is_byte_found(alloc: Global, log: &Log, transcripts: &mut Transcripts) -> Option<bool> {
    let own = transcripts.users.get_mut(5)?;
    let last = own.pop()?;
    own.push(b' ').ok()?;
    let difference = first_difference(alloc, log, transcripts);
    let own = transcripts.users.get_mut(5)?;
    own.pop()?;
    own.push(last).ok()?;
    Some(matches!(difference, Some(Difference::Transcript { number: 6, .. })))
}

/// That user 8 was shown a byte more is found.
fn is_excess_found(alloc: Global, log: &Log, transcripts: &mut Transcripts) -> Option<bool> {
    transcripts.users.get_mut(7)?.push(b'\n').ok()?;
    let difference = first_difference(alloc, log, transcripts);
    transcripts.users.get_mut(7)?.pop()?;
    Some(matches!(difference, Some(Difference::Excess { number: 8 })))
}

/// The same order once more.
fn again(order: &Order) -> Result<Order, AllocError> {
    Ok(Order {
        line: order.line.clone()?,
        reply: order.reply.clone()?,
    })
}

/// That the operator did not order the last grant of the log is found, and that the log lacks one that he ordered.
fn are_orders_found(alloc: Global, log: &Log, transcripts: &mut Transcripts) -> Option<bool> {
    let last = transcripts.orders.pop()?;
    let missing = first_difference(alloc, log, transcripts);
    let twin = again(&last).ok()?;
    transcripts.orders.push(last).ok()?;
    transcripts.orders.push(twin).ok()?;
    let excess = first_difference(alloc, log, transcripts);
    transcripts.orders.pop()?;
    Some(
        matches!(missing, Some(Difference::Grant { .. }))
            && matches!(excess, Some(Difference::LostOrder { .. })),
    )
}

/// That a log lacks its first entry is found: a grant by what the operator ordered, another by what a user was shown.
fn is_lack_found(alloc: Global, log: &Log, transcripts: &Transcripts) -> Option<bool> {
    if log.len() == 0 {
        return None;
    }
    let difference = compare_transcripts(alloc, log, 1, transcripts).err()?;
    let mut made = Entry::blank();
    let first = log.entry(0, &mut made);
    let is_grant = matches!(&first.happening, LoggedEvent::Grant { .. });
    Some(match difference {
        Difference::Transcript { .. } => !is_grant,
        Difference::Grant { .. } | Difference::LostOrder { .. } => is_grant,
        _ => false,
    })
}

/// A log in which u1 opened a session and asked the time, which he was answered with this, and such was the time after it.
fn short_log(alloc: Global, reply: Reply, time: u64) -> Result<Log, AllocError>
    ensures { (design : Elaborated) → IfOk result (λ log. AreWellFormed design log.entries) }
{
    let session = SessionId {
        user: UserId(0),
        opens: 1,
    };
    let login = Arc::new(
        alloc,
        Login {
            user: Text::copy(alloc, "u1")?,
            token: Text::copy(alloc, "t1")?,
        },
    )?;
    let asked = Arc::new(
        alloc,
        Asked {
            session,
            query: Query::Time,
        },
    )?;
    let mut log = Log::new(alloc);
    log.reserve()?;
    log.push(Entry {
        happening: LoggedEvent::Open { login, session },
        time: 0,
        finished: false,
    });
    log.reserve()?;
    log.push(Entry {
        happening: LoggedEvent::Ask { asked, reply },
        time,
        finished: false,
    });
    Ok(log)
}

/// What differs between such a log and a fresh world of a design; none also where there is no world.
fn short_difference(
    alloc: Global,
    checked: &Arc<Checked>,
    told: u64,
    time: u64,
) -> Option<Difference> {
    let reply = Reply::Time {
        time: told,
        finished: false,
    };
    let Ok(log) = short_log(alloc, reply, time) else {
        return None;
    };
    let world = world_of(alloc, checked, Limits::GREATEST)?;
    compare_world(alloc, world, &log).err()
}

/// That a fresh world answers otherwise is found, and that it comes to another time.
fn are_replies_found(alloc: Global, checked: &Arc<Checked>) -> bool {
    let alike = short_difference(alloc, checked, 0, 0);
    let reply = short_difference(alloc, checked, 7, 0);
    let time = short_difference(alloc, checked, 0, 7);
    alike.is_none()
        && matches!(reply, Some(Difference::Reply { index: 1 }))
        && matches!(time, Some(Difference::Time { index: 1 }))
}

/// What of a log and of what was shown can be changed so that the comparison does not find it; none where it finds each. What was shown is then as it was.
pub fn first_missed(
    alloc: Global,
    checked: &Arc<Checked>,
    log: &Log,
    transcripts: &mut Transcripts,
) -> Option<&'static str> {
    if is_byte_found(alloc, log, transcripts) != Some(true) {
        return Some("a byte that a user was told");
    }
    if is_excess_found(alloc, log, transcripts) != Some(true) {
        return Some("a byte more than a user was told");
    }
    if are_orders_found(alloc, log, transcripts) != Some(true) {
        return Some("an order of the operator");
    }
    if is_lack_found(alloc, log, transcripts) != Some(true) {
        return Some("an entry that the log lacks");
    }
    if !are_replies_found(alloc, checked) {
        return Some("a reply or a time of an entry");
    }
    None
}

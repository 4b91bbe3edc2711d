//! What a log with grants says of the replies in it.

use vp_answer::{GrantChange, Query, Reply};
use vp_bits::Bits;
use vp_policy::ShownBarrier;
use vp_pragma::Right;
use vp_text::Same;
use vp_world::{Entry, Log, LoggedEvent};

/// What Bob, who has watched `k` and given it a value, may see at an index of the log.
#[derive(Clone, Copy)]
struct Watch {
    /// He may read `k`.
    is_open: bool,
    /// So many notices wait.
    waiting: usize,
}

/// What he may see after a change of his grant: a callback that goes is not restored.
fn after_grant(watch: Watch, change: &GrantChange) -> Watch {
    let is_open = change.access.rights().has(Right::Read);
    let waiting = if change.access.rights().has(Right::Watch) {
        watch.waiting
    } else {
        0
    };
    Watch { is_open, waiting }
}

/// A reply to a read is right: the value, or that his grant denies it.
fn is_right_value(watch: Watch, reply: &Reply) -> bool {
    match reply {
        Reply::Value(bits) => watch.is_open && *bits == Bits::of_number(1, 1),
        Reply::Denied(words) => {
            !watch.is_open
                && words.by() == ShownBarrier::Grant
                && words.envelope() == 1
                && words.right() == Right::Read
        }
        _ => false,
    }
}

/// A reply to a poll is right: it has the notices that wait.
fn is_right_poll(watch: Watch, reply: &Reply) -> bool {
    match reply {
        Reply::Notices(notices) => {
            let notices = notices.value();
            notices.notices.len() == watch.waiting && notices.lost == 0
        }
        _ => false,
    }
}

/// A reply to a query is right.
fn is_right(watch: Watch, query: &Query, reply: &Reply) -> bool {
    match query {
        Query::Poll => is_right_poll(watch, reply),
        _ => is_right_value(watch, reply),
    }
}

/// A query is a poll or a read.
fn is_poll_or_read(query: &Query) -> bool {
    matches!(query, Query::Poll | Query::Value { .. })
}

/// What he may see after a reply to a query: a poll leaves no notice.
fn after_reply(watch: Watch, query: &Query) -> Watch {
    match query {
        Query::Poll => Watch {
            waiting: 0,
            ..watch
        },
        _ => watch,
    }
}

/// The reply at an index of a list is this one.
fn is_at(replies: &[Reply], index: usize, reply: &Reply) -> bool {
    match replies.get(index) {
        Some(own) => own.is_same(reply),
        None => false,
    }
}

/// The replies to polls and reads in a log are these, in order, and each is that of the grants before it.
pub fn are_right(log: &Log, replies: &[Reply]) -> bool {
    let mut watch = Watch {
        is_open: true,
        waiting: 1,
    };
    let mut count = 0usize;
    for index in 0..log.len() {
        let mut made = Entry::blank();
        let entry = log.entry(index, &mut made);
        match &entry.happening {
            LoggedEvent::Grant { change } => watch = after_grant(watch, change),
            LoggedEvent::Ask { asked, reply } if is_poll_or_read(&asked.query) => {
                let is_right = is_right(watch, &asked.query, reply);
                if !is_right || !is_at(replies, count, reply) {
                    return false;
                }
                watch = after_reply(watch, &asked.query);
                count = count.saturating_add(1);
            }
            _ => {}
        }
    }
    count == replies.len()
}

/// The grant at an index of a list is this one.
fn is_grant_at(grants: &[GrantChange], index: usize, change: &GrantChange) -> bool {
    match grants.get(index) {
        Some(grant) => grant.is_same(change),
        None => false,
    }
}

/// The grants in a log are these, each once and in order.
pub fn are_logged(log: &Log, grants: &[GrantChange]) -> bool {
    let mut count = 0usize;
    for index in 0..log.len() {
        let mut made = Entry::blank();
        let entry = log.entry(index, &mut made);
        if let LoggedEvent::Grant { change } = &entry.happening {
            if !is_grant_at(grants, count, change) {
                return false;
            }
            count = count.saturating_add(1);
        }
    }
    count == grants.len()
}

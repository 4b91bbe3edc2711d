//! The event of an entry of a log, and the line of its reply.
ghost use Rattle.std.specs.Prelude.{◌≡◌, IfOk, IfSome};
ghost use Rattle.vp_wire.specs.Lines as lines;
ghost use Rattle.vp_world.specs.Entries.{event_in, reply_in};

use std::alloc::{AllocError, Global};
use vp_answer::Reply;
use vp_text::Text;
use vp_wire::{WireError, reply_line};
use vp_world::{Event, LoggedEvent};

/// The event of what happened; none for a booking, whose finding is found again in a world. Takes memory.
pub fn event_of(alloc: Global, happening: &LoggedEvent) -> Result<Option<Event>, AllocError>
    ensures { IfOk result (λ event. IfSome event (λ e. e ≡ event_in happening.now)) }
{
    Ok(Some(match happening {
        LoggedEvent::Open { login, .. } => Event::Open {
            user: Text::copy(alloc, login.user.as_str())?,
            token: Text::copy(alloc, login.token.as_str())?,
        },
        LoggedEvent::Ask { asked, .. } | LoggedEvent::Put { asked, .. } => Event::Ask {
            session: asked.session,
            query: asked.query.try_clone(alloc)?,
        },
        LoggedEvent::Close { session } => Event::Close { session: *session },
        LoggedEvent::Grant { change } => Event::Grant((**change).try_clone(alloc)?),
        LoggedEvent::End { order } => Event::End((**order).try_clone(alloc)?),
        LoggedEvent::Halt { order } => Event::Halt((**order).try_clone(alloc)?),
        LoggedEvent::Step { k } | LoggedEvent::StepWithChange { k, .. } => Event::Step(*k),
        LoggedEvent::Advance => Event::Advance,
        LoggedEvent::TakeJob { .. } => Event::TakeJob,
        LoggedEvent::Book { .. } => return Ok(None),
    }))
}

/// The reply to what happened.
fn reply_of(happening: &LoggedEvent) -> Result<Reply, AllocError>
    ensures { IfOk result (λ reply. reply ≡ reply_in happening.now) }
{
    Ok(match happening {
        LoggedEvent::Open { session, .. } => Reply::Opened(*session),
        LoggedEvent::Ask { reply, .. } => reply.try_clone()?,
        LoggedEvent::TakeJob { number } => Reply::Job(*number),
        LoggedEvent::Put { .. }
        | LoggedEvent::Close { .. }
        | LoggedEvent::Grant { .. }
        | LoggedEvent::End { .. }
        | LoggedEvent::Halt { .. }
        | LoggedEvent::Step { .. }
        | LoggedEvent::StepWithChange { .. }
        | LoggedEvent::Advance
        | LoggedEvent::Book { .. } => Reply::Done,
    })
}

/// The line of the reply to what happened. Takes memory.
pub fn line_of(alloc: Global, happening: &LoggedEvent) -> Result<Vec<u8>, WireError>
    ensures { IfOk result (λ line. line.items ≡ lines.line_of (reply_in happening.now)) }
{
    reply_line(alloc, &reply_of(happening)?)
}

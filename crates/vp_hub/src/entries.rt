//! The events of calls.
ghost use Rattle.std.specs.Prelude.{◌≡◌, Some, true};
ghost use Rattle.vp_elab.specs.Built.{Elaborated};
ghost use Rattle.vp_answer.specs.declared.reply.Reply.{Reply};
ghost use Rattle.vp_world.specs.Entries.{session_in};
ghost use Rattle.vp_world.specs.Events.{IsWellFormed};
ghost use Rattle.vp_hub.specs.Calls.{event_of, is_of_session};

use vp_answer::{Call, SessionId};
use vp_world::Event;

/// The event of a session's call.
pub fn event_of(session: SessionId, call: Call) -> Event
    ensures event { result ≡ event_of session call }
    ensures well_formed { (design : Elaborated) → IsWellFormed design result }
    ensures session { (reply : Reply) → session_in result reply ≡ Some session }
    ensures counted { is_of_session result ≡ true }
{
    match call {
        Call::Query(query) => Event::Ask { session, query },
        Call::Close => Event::Close { session },
    }
}

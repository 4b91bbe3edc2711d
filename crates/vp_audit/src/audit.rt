// Whether what a user was shown is what comes of what he can know (docs/DEFINITIONS.md, "What a user can know").
ghost use Rattle.std.specs.Prelude.{◌≡◌, ◌==◌, [], IfErr, IfOk, IsOkUnless, length, true, false};
ghost use Rattle.vp_policy.specs.PolicyState.{Fits};
ghost use Rattle.vp_world.specs.History.{IsLegal};
ghost use Rattle.vp_world.specs.Worlds.{Opening};
ghost use Rattle.vp_replay.specs.declared.error.AuditError.TheVariants.{NoMemory};
ghost use Rattle.vp_audit.specs.Audits.{IsAudit};
ghost use Rattle.vp_audit.specs.Openings.{IsRight};
ghost use Rattle.vp_audit.specs.Projections.{is_own, replies_of};

use crate::projecting::project;
use crate::promise::replay;
use std::alloc::Global;
use vp_answer::Reply;
use vp_expr::Checked;
use vp_policy::{Policy, UserId};
use vp_replay::AuditError;
use vp_world::{Entry, Log, LoggedEvent};

/// Whether the replies that a user was shown are those that were replayed.
#[derive(Clone, Copy, Debug, PartialEq, Eq)]
pub struct Audit {
    pub same: bool,
    /// How many they are; where they differ, the number of the first that does, from 1.
    pub number: u64,
}

/// An entry is of a user's own event.
fn is_own(entry: &Entry, user: UserId) -> bool
    ensures { result ≡ is_own user.0 entry.now }
{
    let session = match &entry.happening {
        LoggedEvent::Open { session, .. } | LoggedEvent::Close { session } => *session,
        LoggedEvent::Ask { asked, .. } | LoggedEvent::Put { asked, .. } => asked.session,
        _ => return false,
    };
    session.user.0 == user.0
}

/// Compares the replies to a user's own events in a log, whose entries can be made in a place for one, with others.
fn compared(log: &Log, made: &mut Entry, user: UserId, replayed: &[Reply]) -> Audit
    ensures { IsAudit (replies_of user.0 log.now.entries) replayed.now result }
{
    let mut number = 0;
    for index in 0..log.len() {
        let entry = log.entry(index, made);
        if is_own(entry, user) {
            match replayed.get(number) {
                Some(reply) if entry.happening.is_answered(reply) => number += 1,
                _ => return Audit {
                    same: false,
                    number: number as u64 + 1,
                },
            }
        }
    }
    if number < replayed.len() {
        return Audit {
            same: false,
            number: number as u64 + 1,
        };
    }
    Audit {
        same: true,
        number: number as u64,
    }
}

/// Replays what goes to a user of a log, and compares it with what he was shown: of a legal log of a world that opens with this design and
/// policy they are the same, as many as there are events of his own, and it is refused out of memory alone (1307). Of other logs it may
/// be refused by 1303 as well.
pub fn audit_user(
    alloc: Global,
    checked: &Checked,
    policy: &Policy,
    log: &Log,
    user: UserId,
) -> Result<Audit, AuditError>
    requires { Fits policy.now checked.now.tree }
    ensures same { (opening : Opening) → IsRight opening → opening.design ≡ checked.now
        → opening.policy ≡ policy.now → IsLegal opening [] log.now.entries
        → IfOk result (λ a. a ≡ record {
          same = true;
          number = length (replies_of user.0 log.now.entries);
        }) }
    ensures refused { (opening : Opening) → IsRight opening → opening.design ≡ checked.now
        → opening.policy ≡ policy.now → IsLegal opening [] log.now.entries → IsOkUnless result NoMemory }
{
    let Ok(view) = policy.view(alloc, checked.design(), user) else {
        return Err(AuditError::NoMemory);
    };
    let projection = project(alloc, checked, policy, log, user)?;
    let replies = replay(alloc, &view, &projection)?;
    let mut made = Entry::blank();
    let audit = compared(log, &mut made, user, replies.as_slice());
    // Dropped by a call, so that how an entry is dropped is no part of this function's proof.
    drop(made);
    Ok(audit)
}

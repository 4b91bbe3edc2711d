// What of a log goes to a user (docs/DEFINITIONS.md, "What a user can know").
ghost use Rattle.std.specs.Prelude.{◌≡◌, ℕ, [], IfOk, IsOkUnless};
ghost use Rattle.vp_policy.specs.PolicyState.{Fits};
ghost use Rattle.vp_world.specs.History.{IsLegal};
ghost use Rattle.vp_world.specs.Worlds.{Opening, start};
ghost use Rattle.vp_replay.specs.declared.error.AuditError.TheVariants.{NoMemory};
ghost use Rattle.vp_audit.specs.Projections.{known_at_first, projection};
ghost use Rattle.vp_audit.specs.Readings.{reading_of};

use crate::reading::LogReader;
use std::alloc::Global;
use vp_expr::Checked;
use vp_policy::{Policy, UserId};
use vp_replay::{AuditError, Projection};
use vp_text::Sequence;
use vp_world::{Entry, Log};

/// What of a log, whose entries can be made in a place for one, goes to the user of a reading that has read nothing of it. Refused when out of
/// memory (1307).
fn read_log(
    alloc: Global,
    reading: &mut LogReader<'_>,
    made: &mut Entry,
    log: &Log,
) -> Result<Projection, AuditError>
    ensures projection { (opening : Opening) → (u : ℕ)
        → reading.old ≡ reading_of u (start opening) (known_at_first opening u)
        → IsLegal opening [] log.now.entries → IfOk result (λ p. p ≡ projection opening u log.now.entries) }
    ensures refused { IsOkUnless result NoMemory }
{
    let values = reading.values_seen()?;
    let mut items = Vec::new(alloc);
    for index in 0..log.len() {
        let entry = log.entry(index, made);
        if let Some(item) = reading.item(entry)? {
            items.push(item)?;
        }
    }
    Ok(Projection {
        values,
        items: Sequence::from_vec(items),
    })
}

/// What of a log goes to a user, of a world that opens with this design and policy: his own events, the changes of his grants, and of
/// every other entry what it changed among what he may see. Refused when out of memory (1307).
pub fn project(
    alloc: Global,
    checked: &Checked,
    policy: &Policy,
    log: &Log,
    user: UserId,
) -> Result<Projection, AuditError>
    requires { Fits policy.now checked.now.tree }
    ensures projection { (opening : Opening) → opening.design ≡ checked.now
        → opening.policy ≡ policy.now → IsLegal opening [] log.now.entries
        → IfOk result (λ p. p ≡ projection opening user.0 log.now.entries) }
    ensures refused { IsOkUnless result NoMemory }
{
    let mut reading = LogReader::new(alloc, checked, policy, user)?;
    let mut made = Entry::blank();
    let projection = read_log(alloc, &mut reading, &mut made, log);
    // Dropped by calls, so that how these are dropped is no part of this function's proof.
    drop(made);
    drop(reading);
    projection
}

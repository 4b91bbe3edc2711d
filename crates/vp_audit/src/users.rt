// What a user of a log was shown.
ghost use Rattle.std.specs.Prelude.{◌≡◌, [], IfOk, IsOkUnless};
ghost use Rattle.vp_policy.specs.PolicyState.{Fits};
ghost use Rattle.vp_world.specs.History.{IsLegal};
ghost use Rattle.vp_world.specs.Worlds.{Opening};
ghost use Rattle.vp_replay.specs.declared.error.AuditError.TheVariants.{NoMemory};
ghost use Rattle.vp_audit.specs.Openings.{IsRight};
ghost use Rattle.vp_audit.specs.Explanation.{log_explanation};

use crate::lines::explanation;
use crate::projecting::project;
use crate::promise::explain;
use std::alloc::Global;
use vp_expr::Checked;
use vp_policy::{Policy, UserId};
use vp_replay::AuditError;
use vp_text::Text;
use vp_world::Log;

/// What a user was shown by a log of a world that opens with this design and policy, and what came to him of it: a line each, with the number of the
/// item (docs/FORMATS.md, "What a user was shown"). Of a legal log it is refused out of memory alone (1307), of others by 1303 as well.
pub fn explain_user(
    alloc: Global,
    checked: &Checked,
    policy: &Policy,
    log: &Log,
    user: UserId,
) -> Result<Text, AuditError>
    requires { Fits policy.now checked.now.tree }
    ensures text { (opening : Opening) → IsRight opening → opening.design ≡ checked.now
        → opening.policy ≡ policy.now → IsLegal opening [] log.now.entries
        → IfOk result (λ text. text ≡ log_explanation opening user.0 log.now.entries) }
    ensures refused { (opening : Opening) → IsRight opening → opening.design ≡ checked.now
        → opening.policy ≡ policy.now → IsLegal opening [] log.now.entries → IsOkUnless result NoMemory }
{
    let Ok(view) = policy.view(alloc, checked.design(), user) else {
        return Err(AuditError::NoMemory);
    };
    let projection = project(alloc, checked, policy, log, user)?;
    let explained = explain(alloc, &view, &projection)?;
    Ok(explanation(alloc, &view, &projection, explained.as_slice())?)
}

// Audits: whether what a user was shown by a script is what comes of what he can know.
ghost use Rattle.std.specs.Prelude.{◌≡◌, ℕ, IfErr, IfOk, IsOkUnless, OnOk};
ghost use Rattle.std.specs.Arc.{arc_value};
ghost use Rattle.vp_audit.specs.Openings.{IsRight};
ghost use Rattle.vp_policy.specs.PolicyState.{Fits};
ghost use Rattle.vp_script.specs.declared.error.ServeFault.TheVariants.{NoMemory};
ghost use Rattle.vp_script.specs.Audits.{EndsAuditBy, EndsOpenedBy, EndsRunBy, IsAuditAfter, IsAudited, IsOutOfMemory, RunsTo, audit_of, audited_of, explanation_if};
ghost use Rattle.vp_script.specs.Keeping.{script_of};
ghost use Rattle.vp_script.specs.Scripts.{opened, opening_of};
ghost use Rattle.vp_world.specs.Worlds.{Opening};

use crate::error::ServeFault;
use crate::script::{answered, checked, policy_of, script_session_of};
use crate::script_session::ScriptSession;
use std::alloc::Global;
use std::io;
use std::io::Read;
use std::sync::Arc;
use vp_audit::{Audit, audit_user, explain_user};
use vp_expr::Checked;
use vp_policy::{Policy, UserId};
use vp_text::Text;
use vp_wire::Counted;

/// What an audit gives.
#[derive(Drop)]
pub struct Audited {
    pub audit: Audit,
    /// Where it is asked for: what the user was shown and what came to him (docs/FORMATS.md, "What a user was shown").
    pub explanation: Option<Text>,
    /// Memory was missing at some time: for a line, or for the simulation. Then the audit is of what happened.
    pub out_of_memory: bool,
}

/// The audit of a user, of a kept script's log, by the design and the policy with which its world opened; or out of memory.
fn log_audit(
    alloc: Global,
    checked: &Checked,
    policy: &Policy,
    script_session: &ScriptSession,
    user: UserId,
) -> Result<Audit, ServeFault>
    requires right { IsRight script_session.now.running.world.opening }
    requires design { script_session.now.running.world.opening.design ≡ checked.now }
    requires policy { script_session.now.running.world.opening.policy ≡ policy.now }
    ensures audit { let world = script_session.now.running.world in
        IfOk result (λ audit. audit ≡ audit_of user.0 world.log) }
    ensures refused { IsOkUnless result NoMemory }
{
    match audit_user(alloc, checked, policy, script_session.log(), user) {
        Ok(audit) => Ok(audit),
        Err(_) => Err(ServeFault::NoMemory),
    }
}

/// What a user was shown by a kept script's log and what came to him of it, where it is asked for; or out of memory.
fn log_explanation(
    alloc: Global,
    checked: &Checked,
    policy: &Policy,
    script_session: &ScriptSession,
    user: UserId,
    explain: bool,
) -> Result<Option<Text>, ServeFault>
    requires right { IsRight script_session.now.running.world.opening }
    requires design { script_session.now.running.world.opening.design ≡ checked.now }
    requires policy { script_session.now.running.world.opening.policy ≡ policy.now }
    ensures explanation { let world = script_session.now.running.world in IfOk result
        (λ text. text ≡ explanation_if explain world.opening user.0 world.log) }
    ensures refused { IsOkUnless result NoMemory }
{
    if !explain {
        return Ok(None);
    }
    match explain_user(alloc, checked, policy, script_session.log(), user) {
        Ok(text) => Ok(Some(text)),
        Err(_) => Err(ServeFault::NoMemory),
    }
}

/// What an audit of a user gives, of a kept script's log, by the design and the policy with which its world opened; or out of memory.
fn log_audited(
    alloc: Global,
    checked: &Checked,
    policy: &Policy,
    script_session: &ScriptSession,
    user: UserId,
    explain: bool,
    out_of_memory: bool,
) -> Result<Audited, ServeFault>
    requires right { IsRight script_session.now.running.world.opening }
    requires design { script_session.now.running.world.opening.design ≡ checked.now }
    requires policy { script_session.now.running.world.opening.policy ≡ policy.now }
    ensures audited { IfOk result (λ audited. audited ≡ audited_of explain out_of_memory
        script_session.now.running.world.opening user.0 script_session.now.running.world.log) }
    ensures refused { IsOkUnless result NoMemory }
{
    Ok(Audited {
        audit: log_audit(alloc, checked, policy, script_session, user)?,
        explanation: log_explanation(alloc, checked, policy, script_session, user, explain)?,
        out_of_memory,
    })
}

/// Answers the lines of a reader by a script, up to the end of the input, and reports no reply, but whether memory was missing; or the
/// fault of the reader.
fn run_to_end<R: Read>(
    alloc: Global,
    script_session: &mut ScriptSession,
    reader: &mut Counted<R>,
) -> Result<bool, ServeFault>
    ensures ran { IfOk result (λ out_of_memory. (opening : Opening)
        → (seeds : ℕ) → script_of script_session.old ≡ opened seeds opening
        → RunsTo seeds out_of_memory opening
        (R.remaining reader.old.inner) (R.remaining reader.new.inner)
        (script_of script_session.new)) }
    ensures opening { OnOk result ((script_of script_session.new).running.world.opening
        ≡ (script_of script_session.old).running.world.opening) }
    ensures stopped { IfErr result (λ fault. (opening : Opening)
        → (seeds : ℕ) → script_of script_session.old ≡ opened seeds opening
        → EndsRunBy seeds opening (R.remaining reader.old.inner) (R.remaining reader.new.inner) fault) }
{
    let mut nowhere = Counted::new(io::sink());
    match answered(alloc, script_session, reader, &mut nowhere) {
        Ok(ran) => Ok(ran.out_of_memory),
        Err(error) => Err(ServeFault::Lines(error)),
    }
}

/// A fresh script of a design and a policy, whose searches try so many seeds; or out of memory.
fn script_session_for(
    alloc: Global,
    seeds: u64,
    checked: &Arc<Checked>,
    policy: &Policy,
) -> Result<ScriptSession, ServeFault>
    requires { Fits policy.now (arc_value checked.now).tree }
    ensures script { IfOk result (λ script_session. script_of script_session
        ≡ opened seeds (opening_of (arc_value checked.now) policy.now)) }
    ensures refused { IfErr result IsOutOfMemory }
{
    let own_policy = policy.try_clone(alloc, checked.design())?;
    script_session_of(alloc, seeds, Arc::try_clone(checked)?, own_policy)
}

/// Runs a fresh script, which the caller keeps, over a reader, and audits a user after it; or the fault of the reader, or out of memory at
/// the end of the input.
fn run_and_audit<R: Read>(
    alloc: Global,
    checked: &Checked,
    policy: &Policy,
    user: UserId,
    explain: bool,
    script_session: &mut ScriptSession,
    reader: &mut Counted<R>,
) -> Result<Audited, ServeFault>
    requires right { IsRight (opening_of checked.now policy.now) }
    requires fresh { script_of script_session.old
        ≡ opened script_session.old.running.seeds (opening_of checked.now policy.now) }
    ensures audit { IfOk result (λ audited. IsAuditAfter script_session.old.running.seeds explain
        (opening_of checked.now policy.now) user.0
        (R.remaining reader.old.inner) (R.remaining reader.new.inner) audited) }
    ensures refused { IfErr result (λ fault. EndsRunBy script_session.old.running.seeds
        (opening_of checked.now policy.now)
        (R.remaining reader.old.inner) (R.remaining reader.new.inner) fault) }
{
    let out_of_memory = run_to_end(alloc, script_session, reader)?;
    log_audited(
        alloc,
        checked,
        policy,
        script_session,
        user,
        explain,
        out_of_memory,
    )
}

/// Runs a fresh script of a design and a policy, whose searches try so many seeds, over a reader, and audits a user after it; or the fault of the reader, or out of
/// memory, before anything was read or at the end of the input.
fn script_audit<R: Read>(
    alloc: Global,
    seeds: u64,
    checked: &Arc<Checked>,
    policy: &Policy,
    user: UserId,
    explain: bool,
    reader: &mut Counted<R>,
) -> Result<Audited, ServeFault>
    requires { IsRight (opening_of (arc_value checked.now) policy.now) }
    ensures audit { IfOk result (λ audited. IsAuditAfter seeds explain
        (opening_of (arc_value checked.now) policy.now) user.0
        (R.remaining reader.old.inner) (R.remaining reader.new.inner) audited) }
    ensures refused { IfErr result (λ fault. EndsOpenedBy seeds
        (opening_of (arc_value checked.now) policy.now)
        (R.remaining reader.old.inner) (R.remaining reader.new.inner) fault) }
{
    let mut script_session = script_session_for(alloc, seeds, checked, policy)?;
    let audited = run_and_audit(
        alloc,
        checked,
        policy,
        user,
        explain,
        &mut script_session,
        reader,
    );
    // Dropped by a call, so that how a session is dropped is no part of this function's proof.
    drop(script_session);
    audited
}

/// Runs the lines of a reader as `run_script` does, but reports no reply, and then audits the user of a name: what he was shown is the same
/// as what comes of what he can know, in so many replies as his sessions have events; and, where it is asked for, an explanation. Or the first fault: of the design, then of the
/// policy, then that the policy has no such user (1604), before which nothing is read; then of the reader; or out of memory, before
/// anything is read or at the end of the input (905, 1307, 1607).
pub fn audit_script<R: Read>(
    alloc: Global,
    seeds: u64,
    design: &str,
    policy: &[u8],
    user: &str,
    explain: bool,
    reader: &mut Counted<R>,
) -> Result<Audited, ServeFault>
    ensures audit { IfOk result (λ audited. IsAudited seeds explain design.now policy.now user.now
        (R.remaining reader.old.inner) (R.remaining reader.new.inner) audited) }
    ensures refused { IfErr result (λ fault. EndsAuditBy seeds design.now policy.now user.now
        (R.remaining reader.old.inner) (R.remaining reader.new.inner) fault) }
{
    let checked = checked(alloc, design)?;
    let policy = policy_of(alloc, policy, checked.design())?;
    let user = policy.user(user).ok_or(ServeFault::NoSuchUser)?;
    script_audit(alloc, seeds, &checked, &policy, user, explain, reader)
}

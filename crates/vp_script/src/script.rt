ghost use Rattle.std.specs.Prelude.{◌≡◌, ◌≤◌, length, IfErr, IfOk, OnOk, Ok};
ghost use Rattle.std.specs.Arc.{arc_value};
ghost use Rattle.vp_elab.specs.Built.{Elaborated};
ghost use Rattle.vp_policy.specs.File.{file_in, file_of};
ghost use Rattle.vp_policy.specs.PolicyState.{Fits};
ghost use Rattle.vp_script.specs.Keeping.{script_of};
ghost use Rattle.vp_design.specs.Designs.{IsDesignOf};
ghost use Rattle.vp_script.specs.Designs.{IsRefusedBy};
ghost use Rattle.vp_script.specs.Scripts.{EndsBy, IsAnswered, IsOpened, IsPolicyRefusedBy, IsScript, IsStopped, IsUnopened, begun, new_world, opened, opening_of};
ghost use Rattle.vp_script.specs.declared.error.ServeFault.TheVariants as fault;
ghost use Rattle.vp_world.specs.declared.error.WorldError.TheVariants as error;

use crate::error::ServeFault;
use crate::script_session::ScriptSession;
use std::alloc::Global;
use std::io::{Read, Write};
use std::sync::Arc;
use vp_design::{TEXT_LIMIT, read_design};
use vp_elab::Design;
use vp_expr::Checked;
use vp_policy::{Policy, read_policy};
use vp_wire::{Counted, WireError, session};
use vp_world::{Limits, World};

/// A search tries so many seeds, where nothing else is said.
pub const SEED_COUNT: u64 = 16;

/// How a script ended: at the end of its input.
#[derive(Clone, Copy, Debug, PartialEq, Eq)]
pub struct Ran {
    /// How many lines were read.
    pub lines: u64,
    /// Memory was missing at some time: a line was answered so, or the simulation could not run on.
    pub out_of_memory: bool,
}

/// The checked design of a text, to be shared; or its first fault, or out of memory (1607).
pub(crate) fn checked(alloc: Global, text: &str) -> Result<Arc<Checked>, ServeFault>
    ensures design { IfOk result (λ checked. IsDesignOf text.now (arc_value checked)) }
    ensures refused { IfErr result (λ fault. IsRefusedBy text.now fault) }
{
    Ok(Arc::new(alloc, read_design(alloc, text)?)?)
}

/// The policy of a file, for a design.
pub(crate) fn policy_of(alloc: Global, bytes: &[u8], design: &Design) -> Result<Policy, ServeFault>
    ensures file { IfOk result
        (λ policy. file_of design.now.tree.authors bytes.now ≡ Ok (file_in policy)) }
    ensures design { IfOk result (λ policy. Fits policy design.now.tree) }
    ensures fits { OnOk result (length bytes.now ≤ TEXT_LIMIT) }
    ensures refused { IfErr result (λ fault. IsPolicyRefusedBy design.now bytes.now fault) }
{
    if bytes.len() > TEXT_LIMIT {
        return Err(ServeFault::TooLong);
    }
    Ok(read_policy(alloc, bytes, design)?)
}

/// A world of a design and a policy, with the greatest limits, in which nothing has happened; or out of memory.
fn world_of(alloc: Global, checked: Arc<Checked>, policy: Policy) -> Result<World, ServeFault>
    requires { Fits policy (arc_value checked).tree }
    ensures world { IfOk result
        (λ world. world ≡ new_world (opening_of (arc_value checked) policy)) }
    ensures refused { IfErr result (λ e. e ≡ fault.World error.NoMemory) }
{
    Ok(World::new(alloc, checked, policy, Limits::GREATEST)?)
}

/// A fresh world of a design and a policy, whose script has no session yet and whose searches try so many seeds; or out of memory.
pub(crate) fn script_session_of(
    alloc: Global,
    seeds: u64,
    checked: Arc<Checked>,
    policy: Policy,
) -> Result<ScriptSession, ServeFault>
    requires { Fits policy (arc_value checked).tree }
    ensures script { IfOk result (λ script_session. script_of script_session
        ≡ opened seeds (opening_of (arc_value checked) policy)) }
    ensures refused { IfErr result (λ e. e ≡ fault.World error.NoMemory) }
{
    Ok(ScriptSession::new(alloc, seeds, world_of(alloc, checked, policy)?))
}

/// A world of the text of a design and the file of a policy, with the greatest limits, in which nothing has happened; or the first
/// fault of the design, then of the policy, as `run_script` reports them; or out of memory (905, 1307, 1607).
pub fn fresh_world(alloc: Global, design: &str, policy: &[u8]) -> Result<World, ServeFault>
    ensures world { IfOk result (λ world. IsOpened design.now policy.now world) }
    ensures refused { IfErr result (λ fault. IsUnopened design.now policy.now fault) }
{
    let checked = checked(alloc, design)?;
    let policy = policy_of(alloc, policy, checked.design())?;
    world_of(alloc, checked, policy)
}

/// A fresh script of the text of a design and the file of a policy, whose searches try so many seeds; or the first fault of the
/// design, then of the policy.
fn opened(
    alloc: Global,
    seeds: u64,
    design: &str,
    policy: &[u8],
) -> Result<ScriptSession, ServeFault>
    ensures world { IfOk result
        (λ script. IsOpened design.now policy.now script.running.world) }
    ensures script { IfOk result
        (λ script. script_of script ≡ begun seeds script.running.world) }
    ensures refused { IfErr result (λ fault. IsUnopened design.now policy.now fault) }
{
    Ok(ScriptSession::new(alloc, seeds, fresh_world(alloc, design, policy)?))
}

/// Answers the lines of a reader by a script, up to the end of the input; or the fault of the reader or the writer.
pub(crate) fn answered<R: Read, W: Write>(
    alloc: Global,
    script_session: &mut ScriptSession,
    reader: &mut Counted<R>,
    writer: &mut Counted<W>,
) -> Result<Ran, WireError>
    ensures answered { IfOk result (λ ran. IsAnswered ran.out_of_memory
        (script_of script_session.old) (script_of script_session.new)
        (R.remaining reader.old.inner) (R.remaining reader.new.inner)
        (W.contents writer.old.inner) (W.contents writer.new.inner) ran.lines) }
    ensures stopped { IfErr result (λ e. IsStopped e (script_of script_session.old)
        (R.remaining reader.old.inner) (R.remaining reader.new.inner)
        (W.contents writer.old.inner) (W.contents writer.new.inner)) }
{
    match session(alloc, reader, writer, script_session) {
        Ok(ended) => Ok(Ran {
            lines: ended.lines,
            out_of_memory: script_session.is_out_of_memory_or(ended.out_of_memory),
        }),
        Err(error) => Err(error),
    }
}

/// Answers the lines of a reader about a design under a policy, up to the end of the input; or the first fault: of the design, then of
/// the policy, before which nothing is read and nothing written; then of the reader or the writer; or out of memory to begin (1607).
/// Each time slot in which the run had a choice is searched for races by so many seeds, `SEED_COUNT` in a bundle.
pub fn run_script<R: Read, W: Write>(
    alloc: Global,
    seeds: u64,
    design: &str,
    policy: &[u8],
    reader: &mut Counted<R>,
    writer: &mut Counted<W>,
) -> Result<Ran, ServeFault>
    ensures script { IfOk result (λ ran. IsScript seeds ran.out_of_memory design.now policy.now
        (R.remaining reader.old.inner) (R.remaining reader.new.inner)
        (W.contents writer.old.inner) (W.contents writer.new.inner) ran.lines) }
    ensures fault { IfErr result (λ fault. EndsBy seeds design.now policy.now
        (R.remaining reader.old.inner) (R.remaining reader.new.inner)
        (W.contents writer.old.inner) (W.contents writer.new.inner) fault) }
    // A text has one design.
    ensures one_design { (d e : Elaborated) → IsDesignOf design.now d → IsDesignOf design.now e
        → d ≡ e }
{
    let mut script_session = opened(alloc, seeds, design, policy)?;
    let ran = answered(alloc, &mut script_session, reader, writer);
    // Dropped by a call, so that how a session is dropped is no part of this function's proof.
    drop(script_session);
    match ran {
        Ok(ran) => Ok(ran),
        Err(error) => Err(ServeFault::Lines(error)),
    }
}

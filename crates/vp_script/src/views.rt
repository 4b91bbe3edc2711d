// What is reported of a design and a policy before anything runs.
ghost use Rattle.std.specs.Prelude.{IfErr, IfOk, OnOk};
ghost use Rattle.vp_policy.specs.PolicyState.{Fits};
ghost use Rattle.vp_script.specs.Designs.{IsRefusedBy};
ghost use Rattle.vp_script.specs.Scripts.{IsPolicyRefusedBy, IsUnopened};
ghost use Rattle.vp_script.specs.Views.{AreRight, HasDesign, IsPolicyFor, IsSeenBy, IsSeenUnder, IsUntold, IsUntoldUnder, IsViewOf, IsViewRefusedBy};

use crate::error::ServeFault;
use crate::script::{checked, policy_of};
use std::alloc::Global;
use vp_elab::Design;
use vp_policy::Policy;
use vp_replay::outline;
use vp_text::Text;

/// Reads a design, and nothing more; or reports its first fault, as a run does.
pub fn check_design(alloc: Global, design: &str) -> Result<(), ServeFault>
    ensures design { OnOk result (HasDesign design.now) }
    ensures refused { IfErr result (λ fault. IsRefusedBy design.now fault) }
{
    let _checked = checked(alloc, design)?;
    Ok(())
}

/// Reads a policy for a design.
fn check_file(alloc: Global, design: &Design, policy: &[u8]) -> Result<(), ServeFault>
    ensures policy { OnOk result (IsPolicyFor design.now policy.now) }
    ensures refused { IfErr result (λ fault. IsPolicyRefusedBy design.now policy.now fault) }
{
    let _policy = policy_of(alloc, policy, design)?;
    Ok(())
}

/// Reads a design and a policy, and nothing more; or reports the first fault of the design, then of the policy, as a run does.
pub fn check_policy(alloc: Global, design: &str, policy: &[u8]) -> Result<(), ServeFault>
    ensures right { OnOk result (AreRight design.now policy.now) }
    ensures refused { IfErr result (λ fault. IsUnopened design.now policy.now fault) }
{
    let checked = checked(alloc, design)?;
    check_file(alloc, checked.design(), policy)
}

/// What the user of a name sees of a design by a policy.
fn user_text(
    alloc: Global,
    design: &Design,
    policy: &Policy,
    user: &str,
) -> Result<Text, ServeFault>
    requires { Fits policy.now design.now.tree }
    ensures text { IfOk result
        (λ text. IsSeenBy policy.now.members user.now design.now text) }
    ensures refused { IfErr result (λ fault. IsUntold policy.now.members user.now fault) }
{
    let user = policy.user(user).ok_or(ServeFault::NoSuchUser)?;
    let view = policy.view(alloc, design, user)?;
    Ok(outline(alloc, &view)?)
}

/// The same by the policy of a file.
fn file_text(alloc: Global, design: &Design, policy: &[u8], user: &str) -> Result<Text, ServeFault>
    ensures text { IfOk result (λ text. IsSeenUnder policy.now user.now design.now text) }
    ensures refused { IfErr result
        (λ fault. IsUntoldUnder policy.now user.now design.now fault) }
{
    let policy = policy_of(alloc, policy, design)?;
    user_text(alloc, design, &policy, user)
}

/// What the user of a name sees of a design under a policy, as an indented text; or the first fault of the design, then of the
/// policy; or that the policy has no such user (1604).
pub fn view_text(alloc: Global, design: &str, policy: &[u8], user: &str) -> Result<Text, ServeFault>
    ensures text { IfOk result (λ text. IsViewOf design.now policy.now user.now text) }
    ensures refused { IfErr result
        (λ fault. IsViewRefusedBy design.now policy.now user.now fault) }
{
    let checked = checked(alloc, design)?;
    file_text(alloc, checked.design(), policy, user)
}

// What a user was shown, by what he sees and what of the log goes to him: that is what the log has (docs/DEFINITIONS.md, "What a user can know").
ghost use Rattle.std.specs.Prelude.{◌≡◌, [], ◌++◌, ◌∷◌, ℕ, IfOk, IsOkUnless, List, map};
ghost use Rattle.vp_world.specs.Entries.{Entry};
ghost use Rattle.vp_world.specs.History.{IsLegal};
ghost use Rattle.vp_world.specs.Worlds.{Opening};
ghost use Rattle.vp_replay.specs.declared.error.AuditError.TheVariants.{NoMemory};
ghost use Rattle.vp_replay.specs.Explained.{explained_from};
ghost use Rattle.vp_replay.specs.Faults.{TakesUp};
ghost use Rattle.vp_audit.specs.GoesTo.{GoesTo};
ghost use Rattle.vp_audit.specs.Openings.{IsRight};
ghost use Rattle.vp_replay.specs.Parts.{replies_from, takes_all, first_part};
ghost use Rattle.vp_audit.specs.Projections.{replies_of};
ghost use Rattle.vp_audit.specs.UserParts.{IsEventByEvent};

use std::alloc::Global;
use vp_answer::Reply;
use vp_policy::View;
use vp_replay::{AuditError, Explained, Projection, explain_projection, replay_projection};
use vp_text::Sequence;

/// The replies to a user's own events, in order, by what he sees at the opening and what of the log goes to him: for every design, policy,
/// user and legal log of which he sees this and to whom this goes, the replies that the log has. So two such logs have the same, also of
/// different designs. Event by event, the reply and the user's part of the world are functions of his part before and of what goes to him.
/// Refused where it goes to nobody of any log (1303), and when out of memory (1307).
pub fn replay<'a>(
    alloc: Global,
    view: &'a View,
    projection: &'a Projection,
) -> Result<Sequence<Reply>, AuditError>
    ensures replies { IfOk result (λ replies. replies
        ≡ replies_from (first_part view.now projection.now.values) projection.now.items) }
    ensures promise { (opening : Opening) → (u : ℕ) → (log : List Entry)
        → GoesTo view.now projection.now opening u log
        → IfOk result (λ replies. replies ≡ replies_of u log) }
    ensures alike { (one other : Opening) → (u v : ℕ) → (first second : List Entry)
        → GoesTo view.now projection.now one u first
        → GoesTo view.now projection.now other v second → replies_of u first ≡ replies_of v second }
    ensures event_by_event { (opening : Opening) → IsRight opening → (u : ℕ) → (log : List Entry)
        → (e : Entry) → IsLegal opening [] (log ++ e ∷ []) → IsEventByEvent opening u log e }
    ensures answered { (opening : Opening) → (u : ℕ) → (log : List Entry)
        → GoesTo view.now projection.now opening u log → IsOkUnless result NoMemory }
    ensures taken { let part = first_part view.now projection.now.values in
        TakesUp (takes_all part projection.now.items) result }
{
    replay_projection(alloc, view, projection)
}

/// What a user was shown by each event of his own, in order, as `replay` has it, with the number of its item and, for each value, the number of the
/// item with which it last came to him. Refused where this goes to nobody of any log (1303), and when out of memory (1307).
pub fn explain<'a>(
    alloc: Global,
    view: &'a View,
    projection: &'a Projection,
) -> Result<Sequence<Explained>, AuditError>
    ensures explained { IfOk result (λ explained. explained
        ≡ explained_from 1 (map (λ v. 0) projection.now.values)
        (first_part view.now projection.now.values) projection.now.items) }
    ensures answered { (opening : Opening) → (u : ℕ) → (log : List Entry)
        → GoesTo view.now projection.now opening u log → IsOkUnless result NoMemory }
    ensures taken { let part = first_part view.now projection.now.values in
        TakesUp (takes_all part projection.now.items) result }
{
    explain_projection(alloc, view, projection)
}

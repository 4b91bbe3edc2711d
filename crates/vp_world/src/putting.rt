// What a session's query is answered by a world, and what it changes there.
ghost use Rattle.std.specs.Prelude.{◌≡◌, IfOk, IsOkUnless, IsSome, OnErr, OnOk};
ghost use Rattle.vp_policy.specs.PolicyState.{Fits};
ghost use Rattle.vp_sim.specs.States as sim;
ghost use Rattle.vp_world.specs.declared.error.WorldError.TheVariants as world_error;
ghost use Rattle.vp_answer.specs.Answers.{respond};
ghost use Rattle.vp_answer.specs.Given.{put_shown};
ghost use Rattle.vp_world.specs.Given.{Gives, observer_in};
ghost use Rattle.vp_world.specs.History.{outcome_of_put, segments_of_put};

use crate::error::WorldError;
use crate::user_observer::UserObserver;
use vp_answer::{GoalChange, OpenSession, Query, Reply};
use vp_bits::Bits;
use vp_elab::ObjectId;
use vp_expr::Change;
use vp_policy::Policy;
use vp_race::{Book, Recording};

/// What a query is answered, and what it changed.
#[derive(Drop)]
pub struct AnswerWithChange {
    /// The reply, for the session.
    pub reply: Reply,
    /// The same, for the log's entry.
    pub entry_reply: Reply,
    /// What it does to the goal.
    pub goal: GoalChange,
    /// What it changed.
    pub change: Option<Change>,
}

/// Makes a put, if there is one, where `$finish` was not executed, and reports what it changes; or out of memory (1307), which leaves the
/// simulation as it was.
fn make_put(
    run: &mut Recording,
    put: Option<(ObjectId, Bits)>,
) -> Result<Option<Change>, WorldError>
    ensures change { IfOk result (λ change.
        outcome_of_put run.old.simulation (put_shown put) ≡ sim.Goes run.new.simulation change) }
    ensures segments { OnOk result (run.new.segments
        ≡ segments_of_put run.old.segments (put_shown put) run.new.simulation) }
    ensures refused { IsOkUnless result world_error.NoMemory }
    ensures asked { OnErr result (IsSome put) }
    ensures unchanged { OnErr result (run.new ≡ run.old) }
{
    let Some((object, value)) = put else {
        return Ok(None);
    };
    match run.put(object, value) {
        Ok(change) => Ok(change),
        Err(_) => Err(WorldError::NoMemory),
    }
}

/// Answers a session's query by what its user can look up, and makes its put, if it has one; or out of memory (1307), which leaves the
/// session and the simulation as they were.
pub fn answer_query(
    session: &mut OpenSession,
    policy: &Policy,
    run: &mut Recording,
    book: &Book,
    query: &Query,
) -> Result<AnswerWithChange, WorldError>
    requires { Fits policy.now run.old.simulation.design.tree }
    ensures given { let user = session.old.session_state.user in
        let observation = observer_in run.old book.now policy.now user in IfOk result
        (Gives (respond observation session.old.session_state query.now)
        run.old run.new session.new.session_state) }
    ensures id { session.new.id ≡ session.old.id }
    ensures refused { IsOkUnless result world_error.NoMemory }
    ensures session { OnErr result (session.new ≡ session.old) }
    ensures run { OnErr result (run.new ≡ run.old) }
{
    let observation = UserObserver::new(policy, session.user(), run.simulation(), book);
    let answer = session.ask(&observation, query)?;
    let change = make_put(run, answer.put)?;
    Ok(AnswerWithChange {
        reply: answer.reply,
        entry_reply: answer.entry_reply,
        goal: answer.goal,
        change,
    })
}

ghost use Rattle.std.specs.Prelude.{◌≡◌};
ghost use Rattle.vp_statement.specs.Walking.{action_at, first_part, is_nothing, next_event};

use vp_expr::Action;

/// The statement at a place; nothing past the end.
pub fn action_at(actions: &[Action], place: u32) -> Action
    ensures { result ≡ action_at actions.now place }
{
    match actions.get(place as usize) {
        Some(action) => *action,
        None => Action::Nothing,
    }
}

/// A statement is a block without statements.
fn is_nothing(action: Action) -> bool
    ensures { result ≡ is_nothing action }
{
    matches!(action, Action::Nothing)
}

/// The part of a statement with which it begins; none where it is an event itself.
fn first_part(actions: &[Action], action: Action) -> Option<u32>
    ensures { result ≡ first_part actions.now action }
{
    match action {
        Action::Then { list, last } => {
            let is_first = is_nothing(action_at(actions, list));
            Some(if is_first { last } else { list })
        }
        Action::For { start, .. } => Some(start),
        Action::Forever { body } => Some(body),
        _ => None,
    }
}

/// The place of the first event of the statement at a place.
pub fn next_event(actions: &[Action], place: u32) -> u32
    ensures { result ≡ next_event actions.now place }
{
    let mut here = place;
    'begin: for _turn in 0..actions.len() {
        match first_part(actions, action_at(actions, here)) {
            Some(part) => here = part,
            None => return here,
        }
    }
    here
}

ghost use Rattle.std.specs.Prelude.{◌≡◌, length, map, slice_index_or, IfOk, None};
ghost use Rattle.std.specs.List.{fold};
ghost use Rattle.vp_statement.specs.Noting.{noted};
ghost use Rattle.vp_statement.specs.Walking.{action_at, next_after, flow_of, part_if, part_of, parts_by_place, parts_of, step_or};

use crate::effect::choices_in;
use crate::walk::action_at;
use std::alloc::{AllocError, Global};
use std::marker::Model;
use vp_expr::Action;
use vp_source::{Choice, Source};

/// A part of a statement, both by their places, and the statement that comes after the part, where that is not what comes after the
/// whole.
#[derive(Clone, Copy)]
pub struct Part {
    pub whole: u32,
    pub place: u32,
    pub next: Option<u32>,
}

/// Of each statement of a design the place of the one that comes after it, if one does (9.4 to 9.8.1). A contract sees these.
#[derive(Drop)]
pub struct Flow {
    next_after: Vec<Option<u32>>,
}

impl Model for Flow {
    ghost use Rattle.std.specs.Prelude.{List, Option, ℕ};

    ghost Value = { List (Option ℕ) };

    ghost view = { λ f. f.next_after.items };
}

/// The step of a loop, if there is one, else the loop.
fn step_or(whole: u32, step: Option<u32>) -> u32
    ensures { result ≡ step_or whole step }
{
    step.unwrap_or(whole)
}

/// Notes a part at its place, where none is noted yet.
fn note(parts: &mut Vec<Option<Part>>, part: Part)
    ensures { parts.new.items ≡ noted parts.old.items part }
{
    let place = part.place as usize;
    if place < parts.len() && parts[place].is_none() {
        parts[place] = Some(part);
    }
}

/// Notes a part of a statement, if there is one.
fn note_if(parts: &mut Vec<Option<Part>>, whole: u32, place: Option<u32>, next: Option<u32>)
    ensures { parts.new.items ≡ fold noted parts.old.items (part_if whole place next) }
{
    if let Some(place) = place {
        note(parts, Part { whole, place, next });
    }
}

/// Notes the statements of a case's choices.
fn note_choices(parts: &mut Vec<Option<Part>>, whole: u32, choices: &[Choice])
    ensures { parts.new.items
        ≡ fold noted parts.old.items (map (λ c. part_of whole c.body None) choices.now) }
{
    for choice in choices {
        note(
            parts,
            Part {
                whole,
                place: choice.body,
                next: None,
            },
        );
    }
}

/// Notes the parts of the statement at a place.
fn note_parts(parts: &mut Vec<Option<Part>>, source: &Source, place: u32, action: Action)
    ensures { parts.new.items ≡ fold noted parts.old.items (parts_of source.now place action) }
{
    match action {
        Action::Then { list, last } => {
            note_if(parts, place, Some(list), Some(last));
            note_if(parts, place, Some(last), None);
        }
        Action::Delay { body, .. } | Action::Event { body } | Action::Wait { body, .. } => note_if(
            parts,
            place,
            Some(body),
            None,
        ),
        Action::If { first, second, .. } => {
            note_if(parts, place, Some(first), None);
            note_if(parts, place, second, None);
        }
        Action::While { body, step, .. } => {
            note_if(parts, place, Some(body), Some(step_or(place, step)));
            note_if(parts, place, step, Some(place));
        }
        Action::For { start, turns } => {
            note_if(parts, place, Some(start), Some(turns));
            note_if(parts, place, Some(turns), None);
        }
        Action::Case { choices, .. } => note_choices(parts, place, choices_in(source, choices)),
        Action::Forever { body } => note_if(parts, place, Some(body), Some(place)),
        Action::Nothing
        | Action::Assign { .. }
        | Action::Null
        | Action::Nonblocking { .. }
        | Action::Finish => (),
    }
}

/// Of each of so many statements, which are all, which part it is, if it is one. Takes memory.
fn parts_by_place(
    alloc: Global,
    source: &Source,
    actions: &[Action],
    count: u32,
) -> Result<Vec<Option<Part>>, AllocError>
    requires { count ≡ length actions.now }
    ensures { IfOk result (λ parts. parts.items ≡ parts_by_place source.now actions.now) }
{
    let mut parts = vec![in alloc; None; actions.len()]?;
    for place in 0..count {
        note_parts(&mut parts, source, place, action_at(actions, place));
    }
    Ok(parts)
}

/// The statement that comes after the one at a place, by the parts that statements are.
fn next_after(parts: &[Option<Part>], place: u32) -> Option<u32>
    ensures { result ≡ next_after parts.now (length parts.now) place }
{
    let mut here = place;
    'rise: for _turn in 0..parts.len() {
        let Some(Some(part)) = parts.get(here as usize) else {
            return None;
        };
        if part.next.is_some() {
            return part.next;
        }
        here = part.whole;
    }
    None
}

impl Flow {
    /// What comes after each statement of a design. Takes memory.
    pub fn new(alloc: Global, source: &Source, actions: &[Action]) -> Result<Flow, AllocError>
        ensures { IfOk result (λ flow. flow ≡ flow_of source.now actions.now) }
    {
        // A source names statements by u32, so it has no more.
        let Ok(count) = u32::try_from(actions.len()) else {
            return Err(AllocError);
        };
        let parts = parts_by_place(alloc, source, actions, count)?;
        let mut afters = Vec::new(alloc);
        for place in 0..count {
            afters.push(next_after(&parts, place))?;
        }
        Ok(Flow { next_after: afters })
    }

    /// The statement that comes after the one at a place; none at the end of a procedure, and for a place that is not there.
    pub fn next_after(&self, place: u32) -> Option<u32>
        ensures { result ≡ slice_index_or self.now place None }
    {
        match self.next_after.get(place as usize) {
            Some(next) => *next,
            None => None,
        }
    }
}

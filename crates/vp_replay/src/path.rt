// The steps to an object, from the object up.
ghost use Rattle.std.specs.Prelude.{◌≡◌, ◌<◌, ◌++◌, ◌∷◌, [], IfOk, IfSome, MatchOption, find, map, not, option_map, reverse, slice_get, take};
ghost use Rattle.vp_pragma.specs.Rights.{has};
ghost use Rattle.vp_elab.specs.Tree.{dotted};
ghost use Rattle.vp_policy.specs.SeenObjects.{node_after, own_step, path_to};
ghost use Rattle.vp_replay.specs.Objects.{before, most_steps};
ghost use Rattle.vp_replay.specs.Seen.{kind_seen, last_name, listed_seen, names_seen, path_seen};

use std::alloc::{AllocError, Global};
use vp_elab::Kind;
use vp_policy::{SeenObject, View};
use vp_pragma::Right;
use vp_text::Text;

/// The object of a number, if there is one.
pub fn object_at(view: &View, number: u32) -> Option<&SeenObject>
    ensures { let nodes = view.now.nodes in MatchOption result (slice_get nodes number ≡ None)
        (λ o. slice_get nodes number ≡ Some (node_after (take number nodes) o.now)) }
{
    view.objects().get(number as usize)
}

/// The kind of the object of a number; none where no object is.
pub fn kind(view: &View, number: u32) -> Option<Kind>
    ensures { result ≡ kind_seen view.now number }
{
    Some(object_at(view, number)?.kind)
}

/// The number of the module in which the object of a number is declared, if it stands before it.
fn parent_of(number: u32, object: &SeenObject) -> Option<u32>
    ensures { result ≡ before number object.now.parent }
{
    let parent = object.parent?;
    if parent < number { Some(parent) } else { None }
}

/// The object of the last step to a scope, and the scope in which it stands; none where no step
/// leads there.
pub fn last_step(view: &View, scope: Option<u32>) -> Option<(&SeenObject, Option<u32>)>
    ensures steps { let nodes = view.now.nodes in MatchOption result (path_to nodes scope ≡ [])
        (λ s. path_to nodes scope ≡ path_to nodes s.1 ++ own_step s.0.now ∷ []) }
    ensures fewer { IfSome result (λ s. most_steps s.1 < most_steps scope) }
{
    let number = scope?;
    let object = object_at(view, number)?;
    Some((object, parent_of(number, object)))
}

/// The first step to the object of a number at which a right is lacking, if there is one.
pub fn first_missing_step(view: &View, right: Right, number: u32) -> Option<&SeenObject>
    ensures { option_map (λ o. own_step o.now) result
        ≡ find (λ s. not (has right s.rights)) (path_seen view.now number) }
{
    let mut found = None;
    let mut scope = Some(number);
    while let Some((object, above)) = last_step(view, scope) {
        if !object.rights.has(right) {
            found = Some(object);
        }
        scope = above;
    }
    found
}

/// The object of a number is there and listed.
pub fn is_listed(view: &View, number: u32) -> bool
    ensures { result ≡ listed_seen view.now number }
{
    object_at(view, number).is_some() && first_missing_step(view, Right::List, number).is_none()
}

/// The name of the object of a number; empty where no object is.
pub fn name(view: &View, number: u32) -> &str
    ensures { result.now ≡ last_name (names_seen view.now number) }
{
    match last_step(view, Some(number)) {
        Some((object, _)) => object.name.as_str(),
        None => "",
    }
}

/// The names of the steps to the object of a number, the last first. Takes memory.
fn names_upward<'a>(alloc: Global, view: &'a View, number: u32) -> Result<Vec<&'a str>, AllocError>
    ensures { IfOk result (λ names. map (λ name. name.now) names.items
        ≡ reverse (names_seen view.now number)) }
{
    let mut names = Vec::new(alloc);
    let mut scope = Some(number);
    while let Some((object, above)) = last_step(view, scope) {
        names.push(object.name.as_str())?;
        scope = above;
    }
    Ok(names)
}

/// The full name of the object of a number: its names from the top module down, with a `.` between
/// each two; empty where no object is. Takes memory.
pub fn full_name(alloc: Global, view: &View, number: u32) -> Result<Text, AllocError>
    ensures { IfOk result (λ name. name ≡ dotted (names_seen view.now number)) }
{
    let mut names = names_upward(alloc, view, number)?;
    names.reverse();
    Ok(Text::from_string(names.join(alloc, ".")?))
}

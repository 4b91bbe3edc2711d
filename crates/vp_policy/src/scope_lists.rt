// The envelopes that are declared in the scopes of a design: a list once for all scopes where it is the same, so mostly for all
// instances of a module.
ghost use Rattle.std.specs.Prelude.{◌≡◌, ℕ, List, None, Some, IfOk, IfSome, slice_get};
ghost use Rattle.vp_elab.specs.Tree.{declared_envelopes};
ghost use Rattle.vp_policy.specs.ScopeLists.{AreScopeLists};

use std::alloc::{AllocError, Global};
use vp_elab::{Design, ObjectId};
use vp_text::Sequence;

/// The lists of the envelopes that are declared in the scopes of a design.
#[derive(Drop)]
pub struct ScopeLists {
    /// The lists.
    pub lists: Sequence<Sequence<u8>>,
    /// Of each object the number of its list.
    pub of_objects: Sequence<usize>,
    /// The number of the list of the top modules.
    pub of_roots: usize,
}

/// The number of a list among those that are known.
fn known_number(lists: &[Sequence<u8>], list: &[u8]) -> Option<usize>
    ensures { IfSome result (λ k. slice_get lists.now k ≡ Some list.now) }
{
    for (number, known) in lists.iter().enumerate() {
        if known.as_slice() == list {
            return Some(number);
        }
    }
    None
}

/// The number of a list, which is added if it is not known.
fn number_of(alloc: Global, lists: &mut Vec<Sequence<u8>>, list: &[u8]) -> Result<usize, AllocError>
    ensures there { IfOk result (λ k. slice_get lists.new.items k ≡ Some list.now) }
    ensures kept { (k : ℕ) (known : List ℕ) → slice_get lists.old.items k ≡ Some known
        → slice_get lists.new.items k ≡ Some known }
{
    if let Some(number) = known_number(lists.as_slice(), list) {
        return Ok(number);
    }
    let number = lists.len();
    lists.push(Sequence::from_vec(Vec::from_slice(alloc, list)?))?;
    Ok(number)
}

/// The lists of the scopes of a design.
pub fn scope_lists_of(alloc: Global, design: &Design) -> Result<ScopeLists, AllocError>
    ensures { IfOk result (λ scopes. AreScopeLists design.now.tree scopes) }
{
    let mut lists = Vec::new(alloc);
    let of_roots = number_of(alloc, &mut lists, design.envelopes(None))?;
    let mut of_objects = Vec::with_capacity(alloc, design.count() as usize)?;
    for object in 0..design.count() {
        let number = number_of(alloc, &mut lists, design.envelopes(Some(ObjectId(object))))?;
        of_objects.push(number)?;
    }
    Ok(ScopeLists {
        lists: Sequence::from_vec(lists),
        of_objects: Sequence::from_vec(of_objects),
        of_roots,
    })
}

impl ScopeLists {
    ghost use Rattle.std.specs.Prelude.{[], MatchOption, option_map};
    ghost use Rattle.vp_elab.specs.Tree.{Tree};

    /// The number of the list of a scope, which is an object or contains the top modules; none where no object is.
    pub fn number(&self, scope: Option<ObjectId>) -> Option<usize>
        ensures { (tree : Tree) → AreScopeLists tree self.now → MatchOption result
            (declared_envelopes tree (option_map (λ o. o.0) scope) ≡ [])
            (λ k. slice_get self.now.lists k
            ≡ Some (declared_envelopes tree (option_map (λ o. o.0) scope))) }
    {
        match scope {
            None => Some(self.of_roots),
            Some(object) => self.of_objects.as_slice().get(object.0 as usize).copied(),
        }
    }
}

ghost use Rattle.std.specs.Prelude.{◌≡◌, ◌<◌, ℕ, [], ◌∷◌, ◌++◌, nat_eq, true, false, length, map, Some, None, slice_get, slice_index, slice_index_or, IfErr, IfOk, OnOk};
ghost use Rattle.std.specs.List.{count_by, list_any};
ghost use Rattle.vp_source.specs.Places.{earlier, word_at};
ghost use Rattle.vp_modules.specs.Definitions.{AreSuspects, definitions_in, is_marked, is_member, is_number, is_up_to, with_number, with_numbers};
ghost use Rattle.vp_modules.specs.Items.{definition_number};
ghost use Rattle.vp_modules.specs.Refusals.{first_in, twice_in};
ghost use Rattle.vp_modules.specs.ModuleRefusals.{leads, recursive};
ghost use Rattle.vp_modules.specs.declared.error.ElabError.TheVariants.{NoMemory};

use crate::error::ElabError;
use crate::reachable::Reached;
use std::alloc::{AllocError, Global};
use vp_source::{Module, Source};

/// How many instances, one within the other, the quick test follows: a module at which no chain of so many begins does not lead to itself.
const LONGEST_CHAIN: usize = 64;

/// What the items of a module instantiate, of what those of the text do.
fn definitions_in(definitions: &[Option<usize>], module: Module) -> &[Option<usize>]
    ensures { result.now ≡ definitions_in definitions.now «module» }
{
    let span = module.items;
    definitions
        .get(span.first as usize..span.end as usize)
        .unwrap_or(&[])
}

/// An item instantiates a module that is marked.
fn is_marked(marks: &[bool], definition: Option<usize>) -> bool
    ensures { result ≡ is_marked marks.now definition }
{
    match definition {
        Some(number) => marks.get(number).copied().unwrap_or(false),
        None => false,
    }
}

/// One of these items instantiates a module that is marked.
fn leads_on(definitions: &[Option<usize>], marks: &[bool]) -> bool
    ensures { result ≡ list_any (is_marked marks.now) definitions.now }
{
    for definition in definitions {
        if is_marked(marks, *definition) {
            return true;
        }
    }
    false
}

/// For each module whether it instantiates one that is marked.
fn marks_before(
    alloc: Global,
    source: &Source,
    definitions: &[Option<usize>],
    marks: &[bool],
) -> Result<Vec<bool>, AllocError>
    ensures { IfOk result (λ before. before.items
        ≡ map (λ m. list_any (is_marked marks.now) (definitions_in definitions.now m))
        source.now.modules) }
{
    let mut before = Vec::new(alloc);
    for module in source.modules.as_slice() {
        before.push(leads_on(definitions_in(definitions, *module), marks))?;
    }
    Ok(before)
}

/// Marks of modules among which are all that lead to themselves: those at which long chains of instances begin. Mostly there are none.
fn suspects(
    alloc: Global,
    source: &Source,
    definitions: &[Option<usize>],
) -> Result<Vec<bool>, AllocError>
    requires definitions { definitions.now ≡ map (definition_number source.now) source.now.items }
    requires once { twice_in source.now [] source.now.modules ≡ None }
    ensures { IfOk result (λ marks. AreSuspects source.now marks.items) }
{
    let mut marks = vec![in alloc; true; source.modules.len()]?;
    for _steps in 0..LONGEST_CHAIN {
        if !marks.contains(&true) {
            return Ok(marks);
        }
        marks = marks_before(alloc, source, definitions, marks.as_slice())?;
    }
    Ok(marks)
}

/// One of these items instantiates the module of a number.
fn instantiates(definitions: &[Option<usize>], number: usize) -> bool
    ensures { result ≡ list_any (is_number number) definitions.now }
{
    for definition in definitions {
        if *definition == Some(number) {
            return true;
        }
    }
    false
}

/// A module, of a number, leads to itself; looks at each module that it leads to once. Takes memory.
fn leads_back(
    alloc: Global,
    source: &Source,
    definitions: &[Option<usize>],
    number: usize,
    module: Module,
) -> Result<bool, AllocError>
    requires definitions { definitions.now ≡ map (definition_number source.now) source.now.items }
    requires once { twice_in source.now [] source.now.modules ≡ None }
    requires there { slice_get source.now.modules number ≡ Some «module» }
    ensures { IfOk result (λ back. back
        ≡ leads source.now (word_at source.now «module».name) (length source.now.modules)
        «module») }
{
    let count = source.modules.len();
    let mut reached = Reached::new(alloc, count)?;
    reached.add(number)?;
    for place in 0..count {
        if place >= reached.order.len() {
            return Ok(false);
        }
        let next = source.modules.as_slice()[reached.at(place)];
        let nexts = definitions_in(definitions, next);
        if instantiates(nexts, number) {
            return Ok(true);
        }
        reached.add_all(nexts)?;
    }
    Ok(false)
}

/// A place comes before this one, or is it.
fn is_up_to(place: u32, first: Option<u32>) -> bool
    ensures { result ≡ is_up_to place first }
{
    match first {
        Some(first) => first <= place,
        None => false,
    }
}

/// The first of a place and the name of a module, of a number, if that instantiates itself; nothing is searched for a later name. Takes memory.
fn earlier_recursive(
    alloc: Global,
    source: &Source,
    definitions: &[Option<usize>],
    marks: &[bool],
    first: Option<u32>,
    number: usize,
    module: Module,
) -> Result<Option<u32>, AllocError>
    requires definitions { definitions.now ≡ map (definition_number source.now) source.now.items }
    requires once { twice_in source.now [] source.now.modules ≡ None }
    requires marks { AreSuspects source.now marks.now }
    requires there { slice_get source.now.modules number ≡ Some «module» }
    ensures { IfOk result (λ place. place ≡ earlier first (recursive source.now «module»)) }
{
    if is_up_to(module.name, first) || !is_marked(marks, Some(number)) {
        return Ok(first);
    }
    if leads_back(alloc, source, definitions, number, module)? {
        Ok(Some(module.name))
    } else {
        Ok(first)
    }
}

/// The name of the first module of a text that instantiates itself, at any depth; none, or out of memory.
pub fn first_recursive(
    alloc: Global,
    source: &Source,
    definitions: &[Option<usize>],
) -> Result<Option<u32>, ElabError>
    requires definitions { definitions.now ≡ map (definition_number source.now) source.now.items }
    requires once { twice_in source.now [] source.now.modules ≡ None }
    ensures place { IfOk result (λ place. place ≡ first_in source.now (recursive source.now)) }
    ensures failed { IfErr result (λ e. e ≡ NoMemory) }
{
    let marks = suspects(alloc, source, definitions)?;
    let mut first = None;
    for (number, module) in source.modules.as_slice().iter().enumerate() {
        let marks = marks.as_slice();
        first = earlier_recursive(alloc, source, definitions, marks, first, number, *module)?;
    }
    Ok(first)
}

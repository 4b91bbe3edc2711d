// How many objects stand below those of modules, computed without an object: they may be far more than there may be.
ghost use Rattle.std.specs.Prelude.{◌≡◌, ◌+◌, ◌≤◌, ◌<◌, false, if◌then◌else◌, length, map, slice_index_or, IfOk, MatchResult};
ghost use Rattle.vp_modules.specs.Definitions.{definitions_in};
ghost use Rattle.vp_modules.specs.Items.{definition_number, is_top, items_in};
ghost use Rattle.vp_modules.specs.declared.error.ElabError.TheVariants.{TooManyObjects};
ghost use Rattle.vp_elab.specs.Elaboration.{further_limit};
ghost use Rattle.vp_elab.specs.declared.object.TheConstants.{OBJECT_LIMIT};
ghost use Rattle.vp_elab.specs.Sizes.{capped, many, object_count, size_by, sizes_in, slots_by, total};

use crate::object::OBJECT_LIMIT;
use std::alloc::{AllocError, Global};
use vp_modules::{ElabError, items_of};
use vp_source::{Item, Module, Source};
use vp_text::Sequence;

/// More objects than there may be.
const MANY: u32 = OBJECT_LIMIT as u32 + 1;

/// How many steps a path may have after its first: 64 in all.
pub fn further_limit() -> u32
    ensures { result ≡ further_limit }
{
    63
}

/// What the items of a module instantiate, of what those of the text do.
pub fn definitions_of(definitions: &[Option<usize>], module: Module) -> &[Option<usize>]
    ensures { result.now ≡ definitions_in definitions.now «module» }
{
    let span = module.items;
    definitions
        .get(span.first as usize..span.end as usize)
        .unwrap_or(&[])
}

/// The size of an item that instantiates the module of this number, or none, by the sizes of modules, as far as there may be so many.
fn size_by(sizes: &[u32], definition: Option<usize>) -> u32
    ensures { result ≡ size_by sizes.now definition }
{
    match definition {
        Some(number) => sizes
            .get(number)
            .copied()
            .unwrap_or(0)
            .saturating_add(1)
            .min(MANY),
        None => 1,
    }
}

/// How many objects items are that instantiate these, as far as there may be so many.
fn total_of(sizes: &[u32], definitions: &[Option<usize>]) -> u32
    ensures { result ≡ capped (total (size_by sizes.now) definitions.now) }
{
    let mut total = 0;
    for definition in definitions {
        total = (total + size_by(sizes, *definition)).min(MANY);
    }
    total
}

/// How many objects items are that have no step left, as far as there may be so many: each is more than that.
fn first_size(items: &[Item]) -> u32
    ensures { result ≡ capped (total (λ i. many) items.now) }
{
    if items.is_empty() { 0 } else { MANY }
}

/// The sizes of modules after which paths have no step left.
fn first_sizes(alloc: Global, source: &Source) -> Result<Vec<u32>, AllocError>
    ensures { IfOk result (λ sizes. sizes.items
        ≡ map (λ m. capped (total (λ i. many) (items_in source.now m))) source.now.modules) }
{
    let mut sizes = Vec::new(alloc);
    for module in source.modules.as_slice() {
        sizes.push(first_size(items_of(source, *module)))?;
    }
    Ok(sizes)
}

/// The sizes of modules after which paths have one step more than after those of these sizes.
fn next_sizes(
    alloc: Global,
    source: &Source,
    definitions: &[Option<usize>],
    sizes: &[u32],
) -> Result<Vec<u32>, AllocError>
    ensures { IfOk result (λ next. next.items
        ≡ map (λ m. capped (total (size_by sizes.now) (definitions_in definitions.now m)))
        source.now.modules) }
{
    let mut next = Vec::new(alloc);
    for module in source.modules.as_slice() {
        next.push(total_of(sizes, definitions_of(definitions, *module)))?;
    }
    Ok(next)
}

/// The sizes of the modules of a text, as far as there may be so many.
pub fn sizes_of(
    alloc: Global,
    source: &Source,
    definitions: &[Option<usize>],
) -> Result<Sequence<u32>, AllocError>
    requires { definitions.now ≡ map (definition_number source.now) source.now.items }
    ensures { IfOk result (λ sizes. sizes ≡ sizes_in source.now further_limit) }
{
    let mut sizes = first_sizes(alloc, source)?;
    for _further in 0..further_limit() {
        sizes = next_sizes(alloc, source, definitions, sizes.as_slice())?;
    }
    Ok(Sequence::from_vec(sizes))
}

/// How many objects the top module of a number is, or none, by which modules are top modules; as far as there may be so many.
fn top_size(tops: &[bool], sizes: &[u32], number: usize) -> u32
    requires tops { number < length tops.now }
    requires sizes { number < length sizes.now }
    ensures { result ≡ if slice_index_or tops.now number false
        then capped (1 + slice_index_or sizes.now number 0) else 0 }
{
    if tops[number] {
        sizes[number].saturating_add(1).min(MANY)
    } else {
        0
    }
}

/// How many objects a text has, as far as there may be so many.
fn object_count(source: &Source, tops: &[bool], sizes: &[u32]) -> u32
    requires tops { tops.now ≡ map (is_top source.now) source.now.modules }
    requires sizes { sizes.now ≡ sizes_in source.now further_limit }
    ensures { result ≡ capped (object_count source.now) }
{
    let mut total = 0;
    for number in 0..source.modules.len() {
        total = (total + top_size(tops, sizes, number)).min(MANY);
    }
    total
}

/// A text has no more objects than there may be; else it is refused (507).
pub fn check_count(source: &Source, tops: &[bool], sizes: &[u32]) -> Result<(), ElabError>
    requires tops { tops.now ≡ map (is_top source.now) source.now.modules }
    requires sizes { sizes.now ≡ sizes_in source.now further_limit }
    ensures { MatchResult result (λ _. object_count source.now ≤ OBJECT_LIMIT)
        (λ e. (OBJECT_LIMIT < object_count source.now) × (e ≡ TooManyObjects)) }
{
    if object_count(source, tops, sizes) == MANY {
        Err(ElabError::TooManyObjects)
    } else {
        Ok(())
    }
}

/// Where items that instantiate these stand after the object of their module, as far as there may be so many.
pub fn slots_of(
    alloc: Global,
    definitions: &[Option<usize>],
    sizes: &[u32],
) -> Result<Sequence<u32>, AllocError>
    ensures { IfOk result (λ slots. slots ≡ slots_by sizes.now 1 definitions.now) }
{
    let mut slots = Vec::new(alloc);
    let mut next = 1;
    for definition in definitions {
        slots.push(next)?;
        next = (next + size_by(sizes, *definition)).min(MANY);
    }
    Ok(Sequence::from_vec(slots))
}

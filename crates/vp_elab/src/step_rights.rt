// What viewports open at the objects of a design, and whether each is on something (docs/FORMATS.md, "Viewports").
ghost use Rattle.vp_text.specs.Refusals.{MayExplain};
ghost use Rattle.vp_modules.specs.declared.error.ElabError.TheVariants.{NoMemory};
ghost use Rattle.std.specs.Prelude.{◌≡◌, [], None, Some, map, slice_index_or, IfOk, MatchResult};
ghost use Rattle.std.specs.List.{list_any};
ghost use Rattle.std.specs.Option.{option_or};
ghost use Rattle.vp_modules.specs.Items.{item_name, items_in};
ghost use Rattle.vp_modules.specs.Refusals.{twice, twice_in};
ghost use Rattle.vp_modules.specs.Tables.{scope_in, tables_in};
ghost use Rattle.vp_pragma.specs.Reading.{viewport_of};
ghost use Rattle.vp_pragma.specs.Rights.{either, nothing, set_of};
ghost use Rattle.vp_elab.specs.Tree.{matches, step_rights_of, step_named};
ghost use Rattle.vp_elab.specs.Elaboration.{item_step};
ghost use Rattle.vp_elab.specs.Built.{shown};
ghost use Rattle.vp_elab.specs.Refusals.{is_on_any, is_on_item, unmatched_in};

use std::alloc::{AllocError, Global};
use vp_modules::{ElabError, Names, Tables, items_of, place_of};
use vp_pragma::{Envelopes, Rights, Viewport};
use vp_source::{Item, Module, Source};
use vp_text::Sequence;

/// What the viewports that match an object open of it.
#[derive(Clone, Copy)]
pub struct StepRights {
    pub rights: Rights,
    /// The number of the first of them, from 0 in the order of the text; none where none matches.
    pub viewport: Option<usize>,
}

impl StepRights {
    /// No viewport matches.
    pub fn none() -> StepRights
        ensures { shown result ≡ (nothing, None) }
    {
        StepRights {
            rights: Rights::none(),
            viewport: None,
        }
    }

    /// One more viewport matches, after these.
    fn with(self, number: usize, rights: Rights) -> StepRights
        ensures rights { set_of result.rights ≡ either (set_of self.rights) (set_of rights) }
        ensures viewport { result.viewport ≡ option_or self.viewport (Some number) }
    {
        StepRights {
            rights: self.rights.either(rights),
            viewport: self.viewport.or(Some(number)),
        }
    }
}

/// A viewport is on the item of this name in this module and this envelope.
pub fn is_on(viewport: &Viewport, envelope: u8, module: &str, item: &str) -> bool
    ensures { result ≡ matches (step_named envelope «module».now item.now)
        (viewport_of viewport.now) }
{
    let named = match &viewport.module {
        Some(name) => name.as_str() == module,
        None => true,
    };
    viewport.envelope == envelope && viewport.item.as_str() == item && named
}

/// What these viewports open of the item of this name in this module and this envelope.
fn step_rights_of(viewports: &[Viewport], envelope: u8, module: &str, item: &str) -> StepRights
    ensures { shown result ≡ step_rights_of (map viewport_of viewports.now)
        (step_named envelope «module».now item.now) }
{
    let mut step_rights = StepRights::none();
    for (number, viewport) in viewports.iter().enumerate() {
        if is_on(viewport, envelope, module, item) {
            step_rights = step_rights.with(number, viewport.rights);
        }
    }
    step_rights
}

/// What viewports open of the item of an index in a module, whose items have these names.
fn item_step_rights(
    source: &Source,
    envelopes: &Envelopes,
    names: &Names,
    module: Module,
    index: usize,
    item: Item,
) -> StepRights
    requires { slice_index_or names.now index [] ≡ item_name source.now item }
    ensures { shown result ≡ step_rights_of envelopes.now.viewports
        (item_step source.now envelopes.now.envelopes «module» item) }
{
    let name = names.at(index);
    let envelope = envelopes.of(place_of(item));
    step_rights_of(
        envelopes.viewports(),
        envelope,
        source.word(module.name),
        name,
    )
}

/// What viewports open of the items of a module, which have these names.
pub fn all_step_rights_of(
    alloc: Global,
    source: &Source,
    envelopes: &Envelopes,
    names: &Names,
    module: Module,
) -> Result<Sequence<StepRights>, AllocError>
    requires { names.now ≡ scope_in source.now «module» }
    ensures { IfOk result (λ all_step_rights. map shown all_step_rights
        ≡ map (λ i. step_rights_of envelopes.now.viewports
        (item_step source.now envelopes.now.envelopes «module» i)) (items_in source.now «module»)) }
{
    let mut all_step_rights = Vec::new(alloc);
    for (index, item) in items_of(source, module).iter().enumerate() {
        all_step_rights.push(item_step_rights(source, envelopes, names, module, index, *item))?;
    }
    Ok(Sequence::from_vec(all_step_rights))
}

/// A viewport is on an item of a module, whose items have these names, each once.
fn is_on_item(
    source: &Source,
    envelopes: &Envelopes,
    names: &Names,
    module: Module,
    viewport: &Viewport,
) -> bool
    requires names { names.now ≡ scope_in source.now «module» }
    requires once { twice source.now [] (items_in source.now «module») ≡ None }
    ensures { result ≡ list_any (is_on_item source.now envelopes.now.envelopes
        (viewport_of viewport.now) «module») (items_in source.now «module») }
{
    let name = viewport.item.as_str();
    let Some(index) = names.find(name) else {
        return false;
    };
    let Some(item) = items_of(source, module).get(index) else {
        return false;
    };
    let envelope = envelopes.of(place_of(*item));
    is_on(viewport, envelope, source.word(module.name), name)
}

/// A viewport is on an item of a text.
fn is_on_any(source: &Source, envelopes: &Envelopes, tables: &Tables, viewport: &Viewport) -> bool
    requires tables { tables.now ≡ tables_in source.now }
    requires once { twice_in source.now [] source.now.modules ≡ None }
    ensures { result ≡ is_on_any source.now envelopes.now.envelopes (viewport_of viewport.now)
        source.now.modules }
{
    for (number, module) in source.modules.as_slice().iter().enumerate() {
        let names = &tables.scopes.as_slice()[number];
        if is_on_item(source, envelopes, names, *module, viewport) {
            return true;
        }
    }
    false
}

/// Each viewport is on an item of the text; else the first that is not is refused (508).
pub fn check_viewports(
    source: &Source,
    envelopes: &Envelopes,
    tables: &Tables,
) -> Result<(), ElabError>
    requires tables { tables.now ≡ tables_in source.now }
    requires once { twice_in source.now [] source.now.modules ≡ None }
    ensures { MatchResult result (λ _. unmatched_in source.now envelopes.now ≡ None)
        (MayExplain NoMemory (unmatched_in source.now envelopes.now)) }
{
    for viewport in envelopes.viewports() {
        if !is_on_any(source, envelopes, tables, viewport) {
            return Err(ElabError::ViewportUnknown {
                line: viewport.line,
            });
        }
    }
    Ok(())
}

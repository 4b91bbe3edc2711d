ghost use Rattle.std.specs.Prelude.{◌≡◌, ◌<◌, ◌==◌, ℕ, suc, None, false, [], filter, map, slice_index_or, IfOk};
ghost use Rattle.std.specs.List.{list_any};
ghost use Rattle.vp_modules.specs.Items.{definition_number, is_top, item_place, items_in};
ghost use Rattle.vp_modules.specs.Refusals.{twice_in};
ghost use Rattle.vp_modules.specs.Tables.{scope_in, tables_in};
ghost use Rattle.vp_pragma.specs.Envelopes.{envelope_at};
ghost use Rattle.vp_pragma.specs.Rights.{nothing};
ghost use Rattle.vp_elab.specs.Built.{shown};
ghost use Rattle.vp_elab.specs.Elaboration.{further_limit, tops};
ghost use Rattle.vp_elab.specs.Objects.{declared_in, numbers_of};
ghost use Rattle.vp_elab.specs.Sizes.{sizes_in};
ghost use Rattle.vp_elab.specs.Tree.{below};

use crate::sizes::{definitions_of, slots_of};
use crate::step_rights::{StepRights, all_step_rights_of};
use std::alloc::{AllocError, Global};
use std::marker::Model;
use vp_modules::{Names, Tables, items_of, place_of};
use vp_pragma::Envelopes;
use vp_source::{Item, Module, Source};
use vp_text::Sequence;

/// What the items of a module have in common in each of its instances.
#[derive(Drop)]
pub struct Scope {
    /// The numbers of the envelopes of their places, rising, each once.
    envelopes: Sequence<u8>,
    /// How far each stands after the module's object.
    slots: Sequence<u32>,
    /// What viewports open of each.
    all_step_rights: Sequence<StepRights>,
}

impl Model for Scope {
    ghost use Rattle.std.specs.Prelude.{map};
    ghost use Rattle.vp_elab.specs.Built.{shown};
    ghost use Rattle.vp_elab.specs.Objects.{Declared};

    ghost Value = { Declared };

    ghost view = { λ s. record {
      envelopes = s.envelopes;
      slots = s.slots;
      all_step_rights = map shown s.all_step_rights;
    } };
}

impl Scope {
    /// The numbers of the envelopes of the places of the items, rising, each once.
    pub fn envelopes(&self) -> &[u8]
        ensures { result.now ≡ self.now.envelopes }
    {
        self.envelopes.as_slice()
    }

    /// How far each item stands after the module's object.
    pub fn slots(&self) -> &[u32]
        ensures { result.now ≡ self.now.slots }
    {
        self.slots.as_slice()
    }

    /// How far the item of an index stands after the module's object; 0 past the end.
    pub fn slot(&self, index: usize) -> u32
        ensures { result ≡ slice_index_or self.now.slots index 0 }
    {
        self.slots.as_slice().get(index).copied().unwrap_or(0)
    }

    /// What viewports open of the item of an index; nothing past the end.
    pub fn step_rights(&self, index: usize) -> StepRights
        ensures { shown result ≡ slice_index_or self.now.all_step_rights index (nothing, None) }
    {
        match self.all_step_rights.as_slice().get(index).copied() {
            Some(step_rights) => step_rights,
            None => StepRights::none(),
        }
    }
}

/// The numbers that are marked, rising, up to the last.
fn marked(alloc: Global, marks: &[bool; 256], last: u8) -> Result<Sequence<u8>, AllocError>
    ensures { IfOk result (λ numbers. numbers
        ≡ filter (λ e. slice_index_or marks.now e false) (below (suc last))) }
{
    let mut numbers = Vec::new(alloc);
    for number in 0..last as usize + 1 {
        if marks[number] {
            numbers.push(number as u8)?;
        }
    }
    Ok(Sequence::from_vec(numbers))
}

/// The envelopes of items are marked.
fn marks_of(envelopes: &Envelopes, items: &[Item]) -> [bool; 256]
    ensures { (e : ℕ) → e < 256 → slice_index_or result e false
        ≡ list_any (λ place. envelope_at envelopes.now.envelopes place == e)
        (map item_place items.now) }
{
    let mut marks = [false; 256];
    for item in items {
        marks[envelopes.of(place_of(*item)) as usize] = true;
    }
    marks
}

/// The envelopes of the names of modules are marked.
fn root_marks_of(envelopes: &Envelopes, modules: &[Module]) -> [bool; 256]
    ensures { (e : ℕ) → e < 256 → slice_index_or result e false
        ≡ list_any (λ place. envelope_at envelopes.now.envelopes place == e)
        (map (λ m. m.name) modules.now) }
{
    let mut marks = [false; 256];
    for module in modules {
        marks[envelopes.of(module.name) as usize] = true;
    }
    marks
}

/// The numbers of the envelopes of the names of modules: rising, each once.
fn name_envelopes_of(
    alloc: Global,
    envelopes: &Envelopes,
    modules: &[Module],
) -> Result<Sequence<u8>, AllocError>
    ensures { IfOk result (λ numbers. numbers
        ≡ numbers_of envelopes.now.envelopes (map (λ m. m.name) modules.now)) }
{
    marked(alloc, &root_marks_of(envelopes, modules), envelopes.count())
}

/// The top modules of a text, of whose modules it is known which are.
fn tops_of(alloc: Global, source: &Source, are_tops: &[bool]) -> Result<Vec<Module>, AllocError>
    requires { are_tops.now ≡ map (is_top source.now) source.now.modules }
    ensures { IfOk result (λ modules. modules.items ≡ tops source.now) }
{
    let mut modules = Vec::new(alloc);
    for (number, module) in source.modules.as_slice().iter().enumerate() {
        if are_tops[number] {
            modules.push(*module)?;
        }
    }
    Ok(modules)
}

/// The numbers of the envelopes of the names of top modules: rising, each once.
pub fn root_envelopes_of(
    alloc: Global,
    source: &Source,
    envelopes: &Envelopes,
    are_tops: &[bool],
) -> Result<Sequence<u8>, AllocError>
    requires { are_tops.now ≡ map (is_top source.now) source.now.modules }
    ensures { IfOk result (λ numbers. numbers
        ≡ numbers_of envelopes.now.envelopes (map (λ m. m.name) (tops source.now))) }
{
    let modules = tops_of(alloc, source, are_tops)?;
    name_envelopes_of(alloc, envelopes, modules.as_slice())
}

/// The numbers of the envelopes of items: rising, each once.
fn item_envelopes_of(
    alloc: Global,
    envelopes: &Envelopes,
    items: &[Item],
) -> Result<Sequence<u8>, AllocError>
    ensures { IfOk result (λ numbers. numbers
        ≡ numbers_of envelopes.now.envelopes (map item_place items.now)) }
{
    marked(alloc, &marks_of(envelopes, items), envelopes.count())
}

/// What a module declares, whose items have these names.
fn scope_of(
    alloc: Global,
    source: &Source,
    envelopes: &Envelopes,
    names: &Names,
    definitions: &[Option<usize>],
    sizes: &[u32],
    module: Module,
) -> Result<Scope, AllocError>
    requires names { names.now ≡ scope_in source.now «module» }
    requires definitions { definitions.now ≡ map (definition_number source.now) source.now.items }
    requires sizes { sizes.now ≡ sizes_in source.now further_limit }
    ensures { IfOk result (λ scope. scope ≡ declared_in source.now envelopes.now «module») }
{
    let slots = slots_of(alloc, definitions_of(definitions, module), sizes)?;
    let all_step_rights = all_step_rights_of(alloc, source, envelopes, names, module)?;
    let envelopes = item_envelopes_of(alloc, envelopes, items_of(source, module))?;
    Ok(Scope {
        envelopes,
        slots,
        all_step_rights,
    })
}

/// What the modules of a text declare.
pub fn scopes_of(
    alloc: Global,
    source: &Source,
    envelopes: &Envelopes,
    tables: &Tables,
    definitions: &[Option<usize>],
    sizes: &[u32],
) -> Result<Sequence<Scope>, AllocError>
    requires tables { tables.now ≡ tables_in source.now }
    requires definitions { definitions.now ≡ map (definition_number source.now) source.now.items }
    requires sizes { sizes.now ≡ sizes_in source.now further_limit }
    ensures { IfOk result (λ scopes. scopes
        ≡ map (declared_in source.now envelopes.now) source.now.modules) }
{
    let mut scopes = Vec::new(alloc);
    for (number, module) in source.modules.as_slice().iter().enumerate() {
        let names = &tables.scopes.as_slice()[number];
        scopes.push(scope_of(alloc, source, envelopes, names, definitions, sizes, *module)?)?;
    }
    Ok(Sequence::from_vec(scopes))
}

ghost use Rattle.std.specs.Prelude.{◌≡◌, ◌+◌, ◌-◌, ◌≤◌, suc, ◌∷◌, ◌++◌, [], length, map, slice_get, option_and_then, IfOk, OnOk};
ghost use Rattle.std.specs.Option.{option_map_or};
ghost use Rattle.vp_modules.specs.Items.{definition_number, is_top};
ghost use Rattle.vp_elab.specs.declared.object.TheConstants.{OBJECT_LIMIT};
ghost use Rattle.vp_elab.specs.Elaboration.{further_limit};
ghost use Rattle.vp_elab.specs.Objects.{objects_below, objects_within};
ghost use Rattle.vp_elab.specs.Sizes.{object_count, size};

use crate::object::{OBJECT_LIMIT, Object, ObjectId, item_object, root_object};
use crate::sizes::definitions_of;
use std::alloc::{AllocError, Global};
use vp_modules::items_of;
use vp_pragma::Envelopes;
use vp_source::{Module, Source};
use vp_text::Sequence;

/// How many steps a path may have.
fn step_limit() -> u32
    ensures { result ≡ suc further_limit }
{
    64
}

/// The module of a number in a text.
pub fn module_at(source: &Source, number: Option<usize>) -> Option<Module>
    ensures { result ≡ option_and_then (slice_get source.now.modules) number }
{
    source.modules.as_slice().get(number?).copied()
}

/// An object, and those below it where it is one of a module, at the end. After it paths may have so many steps.
#[cycle(add_object)]
fn add_object(
    objects: &mut Vec<Object>,
    source: &Source,
    envelopes: &Envelopes,
    definitions: &[Option<usize>],
    further: u32,
    object: Object,
) -> Result<(), AllocError>
    requires definitions { definitions.now ≡ map (definition_number source.now) source.now.items }
    requires further { 1 ≤ further }
    requires few { length objects.old.items +
        (1 + option_map_or (size source.now (further - 1))
        (option_and_then (slice_get source.now.modules) object.scope) 0) ≤ OBJECT_LIMIT }
    ensures { OnOk result (objects.new.items ≡ objects.old.items
        ++ object ∷ option_map_or (objects_below source.now envelopes.now.envelopes further
        (length objects.old.items)) (option_and_then (slice_get source.now.modules) object.scope)
        []) }
{
    let id = ObjectId(objects.len() as u32);
    objects.push(object)?;
    match module_at(source, object.scope) {
        Some(module) => add_items(
            objects,
            source,
            envelopes,
            definitions,
            further - 1,
            id,
            module,
        ),
        None => Ok(()),
    }
}

/// The objects below one of a module, at the end. After its items paths may have so many steps.
#[cycle(add_object)]
fn add_items(
    objects: &mut Vec<Object>,
    source: &Source,
    envelopes: &Envelopes,
    definitions: &[Option<usize>],
    further: u32,
    parent: ObjectId,
    module: Module,
) -> Result<(), AllocError>
    requires definitions { definitions.now ≡ map (definition_number source.now) source.now.items }
    requires following { length objects.old.items ≡ parent.0 + 1 }
    requires few { length objects.old.items + size source.now further «module» ≤ OBJECT_LIMIT }
    ensures { OnOk result (objects.new.items ≡ objects.old.items
        ++ objects_below source.now envelopes.now.envelopes (suc further) parent.0 «module») }
{
    let instantiated = definitions_of(definitions, module);
    for (index, item) in items_of(source, module).iter().enumerate() {
        let definition = instantiated[index];
        let object = item_object(source, envelopes, parent, index as u32, *item, definition);
        add_object(objects, source, envelopes, definitions, further, object)?;
    }
    Ok(())
}

/// The objects of a text, in preorder.
pub fn objects_of(
    alloc: Global,
    source: &Source,
    envelopes: &Envelopes,
    definitions: &[Option<usize>],
    tops: &[bool],
) -> Result<Sequence<Object>, AllocError>
    requires definitions { definitions.now ≡ map (definition_number source.now) source.now.items }
    requires tops { tops.now ≡ map (is_top source.now) source.now.modules }
    requires few { object_count source.now ≤ OBJECT_LIMIT }
    ensures { IfOk result (λ objects. objects
        ≡ objects_within source.now envelopes.now.envelopes (suc further_limit) 0 0
        source.now.modules) }
{
    let mut objects = Vec::new(alloc);
    let further = step_limit();
    for (number, module) in source.modules.as_slice().iter().enumerate() {
        if tops[number] {
            let object = root_object(envelopes, number, *module);
            add_object(
                &mut objects,
                source,
                envelopes,
                definitions,
                further,
                object,
            )?;
        }
    }
    Ok(Sequence::from_vec(objects))
}

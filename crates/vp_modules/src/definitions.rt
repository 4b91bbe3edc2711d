ghost use Rattle.std.specs.Prelude.{◌≡◌, [], None, map, IfOk};
ghost use Rattle.vp_modules.specs.Items.{definition_number, is_top};
ghost use Rattle.vp_modules.specs.Refusals.{twice_in};
ghost use Rattle.vp_modules.specs.Tables.{module_names, tables_in};

use crate::names::Names;
use crate::tables::Tables;
use std::alloc::{AllocError, Global};
use vp_source::{Item, Source};
use vp_text::Sequence;

/// The number of the module that an item instantiates, its index in the text.
fn definition_number(source: &Source, modules: &Names, item: Item) -> Option<usize>
    requires { modules.now ≡ module_names source.now source.now.modules }
    ensures { result ≡ definition_number source.now item }
{
    match item {
        Item::Instance { definition, .. } => modules.find(source.word(definition)),
        _ => None,
    }
}

/// For each item of a text the number of the module that it instantiates. Takes memory.
pub fn definitions_of(
    alloc: Global,
    source: &Source,
    tables: &Tables,
) -> Result<Sequence<Option<usize>>, AllocError>
    requires { tables.now ≡ tables_in source.now }
    ensures { IfOk result (λ definitions. definitions
        ≡ map (definition_number source.now) source.now.items) }
{
    let mut definitions = Vec::new(alloc);
    for item in source.items.as_slice() {
        definitions.push(definition_number(source, &tables.modules, *item))?;
    }
    Ok(Sequence::from_vec(definitions))
}

/// For each module of a text whether no module instantiates it, by what the items instantiate. Takes memory.
pub fn tops_of(
    alloc: Global,
    source: &Source,
    definitions: &[Option<usize>],
) -> Result<Sequence<bool>, AllocError>
    requires definitions { definitions.now ≡ map (definition_number source.now) source.now.items }
    requires once { twice_in source.now [] source.now.modules ≡ None }
    ensures { IfOk result (λ tops. tops ≡ map (is_top source.now) source.now.modules) }
{
    let mut tops = vec![in alloc; true; source.modules.len()]?;
    for definition in definitions {
        if let Some(number) = *definition {
            tops[number] = false;
        }
    }
    Ok(Sequence::from_vec(tops))
}

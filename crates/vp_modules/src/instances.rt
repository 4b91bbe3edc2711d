ghost use Rattle.std.specs.Prelude.{◌≡◌};
ghost use Rattle.vp_source.specs.Places.{earliest};
ghost use Rattle.vp_modules.specs.ModuleRefusals.{missing_module};
ghost use Rattle.vp_modules.specs.Tables.{module_names};

use crate::lookup::module_named;
use crate::names::Names;
use vp_source::{Item, Source, earlier};

/// The name of the module that an item instantiates, where no module has it.
fn missing_module(source: &Source, modules: &Names, item: Item) -> Option<u32>
    requires { modules.now ≡ module_names source.now source.now.modules }
    ensures { result ≡ missing_module source.now item }
{
    match item {
        Item::Instance { definition, .. } => match module_named(
            source,
            modules,
            source.word(definition),
        ) {
            Some(_) => None,
            None => Some(definition),
        },
        _ => None,
    }
}

/// The first name of a module in an instance that no module has.
pub fn first_missing(source: &Source, modules: &Names) -> Option<u32>
    requires { modules.now ≡ module_names source.now source.now.modules }
    ensures { result ≡ earliest (missing_module source.now) source.now.items }
{
    let mut first = None;
    for item in source.items.as_slice() {
        first = earlier(first, missing_module(source, modules, *item));
    }
    first
}

ghost use Rattle.std.specs.Prelude.{◌≡◌, map, option_and_then, position, slice_get};
ghost use Rattle.std.specs.Str.{bytes_eq};
ghost use Rattle.vp_source.specs.Places.{word_at};
ghost use Rattle.vp_modules.specs.Items.{item_name, item_named, items_in, module_named, named_at};
ghost use Rattle.vp_modules.specs.Tables.{module_names, scope_in};

use crate::items::items_of;
use crate::names::Names;
use vp_source::{Item, Module, Source};

/// The first of these values whose name, in the table of their names, is the one looked for.
fn value_named<T: Copy>(values: &[T], names: &Names, name: &str) -> Option<T>
    ensures { result ≡ option_and_then (slice_get values.now)
        (position (bytes_eq name.now) names.now) }
{
    let index = names.find(name)?;
    values.get(index).copied()
}

/// The module of a name, by the names of the modules.
pub fn module_named(source: &Source, modules: &Names, name: &str) -> Option<Module>
    requires { modules.now ≡ module_names source.now source.now.modules }
    ensures { result ≡ module_named source.now name.now }
{
    value_named(source.modules.as_slice(), modules, name)
}

/// The first of these items that has a name, by their names.
pub fn item_named(source: &Source, items: &[Item], names: &Names, name: &str) -> Option<Item>
    requires { names.now ≡ map (item_name source.now) items.now }
    ensures { result ≡ item_named source.now items.now name.now }
{
    value_named(items, names, name)
}

/// What the word at a place names in a module, by the names of its items.
pub fn named_at(source: &Source, module: Module, names: &Names, place: u32) -> Option<Item>
    requires { names.now ≡ scope_in source.now «module» }
    ensures { result ≡ named_at source.now «module» place }
{
    item_named(source, items_of(source, module), names, source.word(place))
}

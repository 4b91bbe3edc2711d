ghost use Rattle.vp_text.specs.Refusals.{MayExplain};
ghost use Rattle.vp_modules.specs.declared.error.ElabError.TheVariants.{NoMemory};
ghost use Rattle.std.specs.Prelude.{◌≡◌, false, List, [], ◌∷◌, ◌++◌, map, None, IfErr, IfOk, OnOk};
ghost use Rattle.vp_source.specs.Places.{word_at};
ghost use Rattle.vp_modules.specs.Items.{is_among, item_name, items_in};
ghost use Rattle.vp_modules.specs.Tables.{module_names, scope_in, tables_in};
ghost use Rattle.vp_modules.specs.Refusals.{twice, twice_in};

use crate::error::ElabError;
use crate::items::{items_of, name_of, place_of};
use crate::names::Names;
use std::alloc::Global;
use vp_source::{Item, Module, Source};
use vp_text::Sequence;

/// The names of a text.
#[derive(Drop)]
pub struct Tables {
    /// Those of its modules, in the order of the text.
    pub modules: Names,
    /// Those of the items of each module, by their index among its items.
    pub scopes: Sequence<Names>,
}

/// The names of items; or the first that is declared twice.
fn names_of(alloc: Global, source: &Source, items: &[Item]) -> Result<Names, ElabError>
    ensures names { IfOk result (λ names. names ≡ map (item_name source.now) items.now) }
    ensures once { IfOk result (λ names. twice source.now [] items.now ≡ None) }
    ensures twice { IfErr result (MayExplain NoMemory (twice source.now [] items.now)) }
{
    let mut names = Names::new(alloc);
    for item in items {
        let name = name_of(alloc, source, *item)?;
        if !names.add(name)? {
            return Err(ElabError::Duplicate {
                line: source.line(place_of(*item)),
            });
        }
    }
    Ok(names)
}

/// Adds the name of a module, and those of its items; or the first that is declared twice.
fn add_module(
    alloc: Global,
    source: &Source,
    declared: Module,
    modules: &mut Names,
    scopes: &mut Vec<Names>,
) -> Result<(), ElabError>
    ensures names { OnOk result (modules.new ≡ modules.old
        ++ word_at source.now declared.name ∷ []) }
    ensures scopes { OnOk result (scopes.new.items ≡ scopes.old.items
        ++ scope_in source.now declared ∷ []) }
    ensures new { OnOk result (is_among modules.old (word_at source.now declared.name) ≡ false) }
    ensures once { OnOk result (twice source.now [] (items_in source.now declared) ≡ None) }
    ensures twice { IfErr result (λ e. (ms : List Module)
        → MayExplain NoMemory (twice_in source.now modules.old (declared ∷ ms)) e) }
{
    let name = String::from_str(alloc, source.word(declared.name))?;
    if !modules.add(name)? {
        return Err(ElabError::Duplicate {
            line: source.line(declared.name),
        });
    }
    let names = names_of(alloc, source, items_of(source, declared))?;
    scopes.push(names)?;
    Ok(())
}

/// The names of a text; or the first that is declared twice (501).
pub fn tables_of(alloc: Global, source: &Source) -> Result<Tables, ElabError>
    ensures tables { IfOk result (λ tables. tables ≡ tables_in source.now) }
    ensures once { IfOk result (λ tables. twice_in source.now [] source.now.modules ≡ None) }
    ensures twice { IfErr result (MayExplain NoMemory (twice_in source.now [] source.now.modules)) }
{
    let mut modules = Names::new(alloc);
    let mut scopes = Vec::new(alloc);
    for module in source.modules.as_slice() {
        add_module(alloc, source, *module, &mut modules, &mut scopes)?;
    }
    Ok(Tables {
        modules,
        scopes: Sequence::from_vec(scopes),
    })
}

ghost use Rattle.vp_text.specs.Refusals.{MayExplain};
ghost use Rattle.vp_modules.specs.declared.error.ElabError.TheVariants.{NoMemory};
ghost use Rattle.std.specs.Prelude.{◌≡◌, [], None, map, IfErr, IfOk, OnOk};
ghost use Rattle.vp_modules.specs.Items.{definition_number, is_top};
ghost use Rattle.vp_modules.specs.Refusals.{twice_in};
ghost use Rattle.vp_modules.specs.ModuleRefusals.{refusal_of, refusal_of_instances, refusal_of_uses};
ghost use Rattle.vp_modules.specs.Tables.{tables_in};
ghost use Rattle.vp_modules.specs.Resolution.{resolved_in};

use crate::checks::{first_bad_connection, first_bad_target, first_driven_twice, first_undeclared};
use crate::definitions::{definitions_of, tops_of};
use crate::error::ElabError;
use crate::instances::first_missing;
use crate::recursion::first_recursive;
use crate::tables::{Tables, tables_of};
use std::alloc::Global;
use vp_source::Source;
use vp_text::Sequence;

/// A text whose modules are right.
#[derive(Drop)]
pub struct Resolved {
    /// Its names.
    pub tables: Tables,
    /// For each of its items the number of the module that it instantiates.
    pub definitions: Sequence<Option<usize>>,
    /// For each of its modules whether it is a top module: one that no module instantiates.
    pub tops: Sequence<bool>,
}

/// Each instance is of a module that there is (503), and no module leads to itself (504).
fn check_instances(
    alloc: Global,
    source: &Source,
    tables: &Tables,
    definitions: &[Option<usize>],
) -> Result<(), ElabError>
    requires tables { tables.now ≡ tables_in source.now }
    requires definitions { definitions.now ≡ map (definition_number source.now) source.now.items }
    requires once { twice_in source.now [] source.now.modules ≡ None }
    ensures right { OnOk result (refusal_of_instances source.now ≡ None) }
    ensures refused { IfErr result (MayExplain NoMemory (refusal_of_instances source.now)) }
{
    if let Some(place) = first_missing(source, &tables.modules) {
        return Err(ElabError::UnknownModule {
            line: source.line(place),
        });
    }
    if let Some(place) = first_recursive(alloc, source, definitions)? {
        return Err(ElabError::Recursive {
            line: source.line(place),
        });
    }
    Ok(())
}

/// Names are declared (502), targets may be assigned (509), ports are connected as they may be (506), and each net has one driver (505).
fn check_uses(alloc: Global, source: &Source, tables: &Tables) -> Result<(), ElabError>
    requires { tables.now ≡ tables_in source.now }
    ensures right { OnOk result (refusal_of_uses source.now ≡ None) }
    ensures refused { IfErr result (MayExplain NoMemory (refusal_of_uses source.now)) }
{
    if let Some(place) = first_undeclared(source, tables.scopes.as_slice()) {
        return Err(ElabError::Undeclared {
            line: source.line(place),
        });
    }
    if let Some(place) = first_bad_target(source, tables.scopes.as_slice()) {
        return Err(ElabError::BadTarget {
            line: source.line(place),
        });
    }
    if let Some(place) = first_bad_connection(alloc, source, tables)? {
        return Err(ElabError::BadConnection {
            line: source.line(place),
        });
    }
    if let Some(place) = first_driven_twice(alloc, source, tables)? {
        return Err(ElabError::MultipleDrivers {
            line: source.line(place),
        });
    }
    Ok(())
}

/// Tests the items of a text by its names, and reports for each the number of the module that it instantiates, and which modules are
/// top modules; or the first refusal after that of a name declared twice. Takes memory.
fn check_items(
    alloc: Global,
    source: &Source,
    tables: &Tables,
) -> Result<(Sequence<Option<usize>>, Sequence<bool>), ElabError>
    requires tables { tables.now ≡ tables_in source.now }
    requires once { twice_in source.now [] source.now.modules ≡ None }
    ensures definitions { IfOk result
        (λ found. found.0 ≡ map (definition_number source.now) source.now.items) }
    ensures tops { IfOk result (λ found. found.1 ≡ map (is_top source.now) source.now.modules) }
    ensures right { OnOk result (refusal_of source.now ≡ None) }
    ensures refused { IfErr result (MayExplain NoMemory (refusal_of source.now)) }
{
    let definitions = definitions_of(alloc, source, tables)?;
    check_instances(alloc, source, tables, definitions.as_slice())?;
    check_uses(alloc, source, tables)?;
    let tops = tops_of(alloc, source, definitions.as_slice())?;
    Ok((definitions, tops))
}

/// Tests the modules of a text: its names, the modules that its items instantiate and its top modules, or the first refusal. Takes memory.
pub fn check_modules(alloc: Global, source: &Source) -> Result<Resolved, ElabError>
    ensures resolved { IfOk result (λ resolved. resolved ≡ resolved_in source.now) }
    ensures right { OnOk result (refusal_of source.now ≡ None) }
    ensures refused { IfErr result (MayExplain NoMemory (refusal_of source.now)) }
{
    let tables = tables_of(alloc, source)?;
    let (definitions, tops) = check_items(alloc, source, &tables)?;
    Ok(Resolved {
        tables,
        definitions,
        tops,
    })
}

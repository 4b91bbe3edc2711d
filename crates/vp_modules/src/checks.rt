ghost use Rattle.std.specs.Prelude.{◌≡◌, map, IfErr, IfOk};
ghost use Rattle.vp_modules.specs.Refusals.{bad_connection, bad_target, first_in, undeclared};
ghost use Rattle.vp_modules.specs.ModuleRefusals.{driven_twice};
ghost use Rattle.vp_modules.specs.Tables.{scope_in, tables_in};
ghost use Rattle.vp_modules.specs.declared.error.ElabError.TheVariants.{NoMemory};

use crate::connections::{Scope, bad_connection};
use crate::drivers::driven_twice;
use crate::error::ElabError;
use crate::names::Names;
use crate::operands::{bad_target, undeclared};
use crate::tables::Tables;
use std::alloc::Global;
use vp_source::{Source, earlier};

/// The first name of a text that is not declared in its module; `scopes` are the names of each module's items.
pub fn first_undeclared(source: &Source, scopes: &[Names]) -> Option<u32>
    requires { scopes.now ≡ map (scope_in source.now) source.now.modules }
    ensures { result ≡ first_in source.now (undeclared source.now) }
{
    let mut first = None;
    for (number, module) in source.modules.as_slice().iter().enumerate() {
        first = earlier(first, undeclared(source, *module, &scopes[number]));
    }
    first
}

/// The first target of a text that may not be assigned so.
pub fn first_bad_target(source: &Source, scopes: &[Names]) -> Option<u32>
    requires { scopes.now ≡ map (scope_in source.now) source.now.modules }
    ensures { result ≡ first_in source.now (bad_target source.now) }
{
    let mut first = None;
    for (number, module) in source.modules.as_slice().iter().enumerate() {
        first = earlier(first, bad_target(source, *module, &scopes[number]));
    }
    first
}

/// The first connection of a text that may not stand so; none, or out of memory.
pub fn first_bad_connection(
    alloc: Global,
    source: &Source,
    tables: &Tables,
) -> Result<Option<u32>, ElabError>
    requires { tables.now ≡ tables_in source.now }
    ensures place { IfOk result (λ place. place ≡ first_in source.now (bad_connection source.now)) }
    ensures failed { IfErr result (λ e. e ≡ NoMemory) }
{
    let mut first = None;
    for (number, module) in source.modules.as_slice().iter().enumerate() {
        let names = &tables.scopes.as_slice()[number];
        let outer = Scope {
            module: *module,
            names,
        };
        first = earlier(first, bad_connection(alloc, source, tables, outer)?);
    }
    Ok(first)
}

/// The first place of a text at which a net is driven that is driven before; none, or out of memory.
pub fn first_driven_twice(
    alloc: Global,
    source: &Source,
    tables: &Tables,
) -> Result<Option<u32>, ElabError>
    requires { tables.now ≡ tables_in source.now }
    ensures place { IfOk result (λ place. place ≡ first_in source.now (driven_twice source.now)) }
    ensures failed { IfErr result (λ e. e ≡ NoMemory) }
{
    let mut first = None;
    for module in source.modules.as_slice() {
        first = earlier(first, driven_twice(alloc, source, tables, *module)?);
    }
    Ok(first)
}

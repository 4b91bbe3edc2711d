ghost use Rattle.vp_text.specs.Refusals.{MayExplain};
ghost use Rattle.vp_modules.specs.declared.error.ElabError.TheVariants.{NoMemory};
ghost use Rattle.std.specs.Prelude.{◌≡◌, ◌≤◌, None, suc, length, map, IfErr, IfOk, OnOk};
ghost use Rattle.vp_source.specs.Whole.{AreWhole};
ghost use Rattle.vp_modules.specs.Items.{definition_number, is_top};
ghost use Rattle.vp_modules.specs.ModuleRefusals as modules;
ghost use Rattle.vp_modules.specs.Resolution.{resolved_in};
ghost use Rattle.vp_elab.specs.declared.object.TheConstants.{OBJECT_LIMIT};
ghost use Rattle.vp_elab.specs.Built.{IsBuilt, design_of};
ghost use Rattle.vp_elab.specs.Elaboration.{further_limit, tops};
ghost use Rattle.vp_elab.specs.Objects.{AreFirsts, numbers_of, objects_within};
ghost use Rattle.vp_elab.specs.Refusals.{refusal_of};
ghost use Rattle.vp_elab.specs.Sizes.{object_count, sizes_in};

use crate::design::{Design, Objects};
use crate::first_instances::firsts_of;
use crate::objects::objects_of;
use crate::scope::{Scope, root_envelopes_of, scopes_of};
use crate::sizes::{check_count, sizes_of};
use crate::step_rights::check_viewports;
use std::alloc::{AllocError, Global};
use vp_modules::{ElabError, Resolved, Tables, check_modules};
use vp_pragma::Envelopes;
use vp_source::Source;
use vp_text::Sequence;

/// What a design is made of beside its source and its envelopes.
#[derive(Drop)]
struct Parts {
    tables: Tables,
    scopes: Sequence<Scope>,
    objects: Objects,
}

/// The sizes of the modules of a text whose modules are right; or the refusal that holds, of its objects (507) or of its
/// viewports (508). Takes memory.
fn check_objects(
    alloc: Global,
    source: &Source,
    envelopes: &Envelopes,
    resolved: &Resolved,
) -> Result<Sequence<u32>, ElabError>
    requires resolved { resolved.now ≡ resolved_in source.now }
    requires right { modules.refusal_of source.now ≡ None }
    ensures sizes { IfOk result (λ sizes. sizes ≡ sizes_in source.now further_limit) }
    ensures few { OnOk result (object_count source.now ≤ OBJECT_LIMIT) }
    ensures accepted { OnOk result (refusal_of source.now envelopes.now ≡ None) }
    ensures refused { IfErr result (MayExplain NoMemory (refusal_of source.now envelopes.now)) }
{
    let sizes = sizes_of(alloc, source, resolved.definitions.as_slice())?;
    check_count(source, resolved.tops.as_slice(), sizes.as_slice())?;
    check_viewports(source, envelopes, &resolved.tables)?;
    Ok(sizes)
}

/// The objects of a text whose modules are right, and which are not too many. Takes memory.
fn all_objects(
    alloc: Global,
    source: &Source,
    envelopes: &Envelopes,
    definitions: &[Option<usize>],
    are_tops: &[bool],
) -> Result<Objects, AllocError>
    requires definitions { definitions.now ≡ map (definition_number source.now) source.now.items }
    requires tops { are_tops.now ≡ map (is_top source.now) source.now.modules }
    requires right { modules.refusal_of source.now ≡ None }
    requires few { object_count source.now ≤ OBJECT_LIMIT }
    ensures flat { IfOk result (λ o. o.all
        ≡ objects_within source.now envelopes.now.envelopes (suc further_limit) 0 0
        source.now.modules) }
    ensures firsts { IfOk result (λ o. AreFirsts o.all (length source.now.modules) o.firsts) }
    ensures roots { IfOk result (λ o. o.root_envelopes
        ≡ numbers_of envelopes.now.envelopes (map (λ m. m.name) (tops source.now))) }
{
    let all = objects_of(alloc, source, envelopes, definitions, are_tops)?;
    let firsts = firsts_of(alloc, all.as_slice(), source.modules.len())?;
    let root_envelopes = root_envelopes_of(alloc, source, envelopes, are_tops)?;
    Ok(Objects {
        all,
        firsts,
        root_envelopes,
    })
}

/// The scopes and the objects of a text whose modules are right; or the refusal that holds (507, 508). Takes memory.
fn placed(
    alloc: Global,
    source: &Source,
    envelopes: &Envelopes,
    resolved: &Resolved,
) -> Result<(Sequence<Scope>, Objects), ElabError>
    requires whole { AreWhole source.now }
    requires resolved { resolved.now ≡ resolved_in source.now }
    requires right { modules.refusal_of source.now ≡ None }
    ensures built { IfOk result (λ p. IsBuilt source.now envelopes.now resolved.now.tables p.0
        p.1) }
    ensures accepted { OnOk result (refusal_of source.now envelopes.now ≡ None) }
    ensures refused { IfErr result (MayExplain NoMemory (refusal_of source.now envelopes.now)) }
{
    let sizes = check_objects(alloc, source, envelopes, resolved)?;
    let definitions = resolved.definitions.as_slice();
    let tables = &resolved.tables;
    let scopes = scopes_of(
        alloc,
        source,
        envelopes,
        tables,
        definitions,
        sizes.as_slice(),
    )?;
    let are_tops = resolved.tops.as_slice();
    let objects = all_objects(alloc, source, envelopes, definitions, are_tops)?;
    Ok((scopes, objects))
}

/// The parts of the design of a text; or the first refusal that holds (501 to 509). Takes memory.
fn parts_of(alloc: Global, source: &Source, envelopes: &Envelopes) -> Result<Parts, ElabError>
    requires { AreWhole source.now }
    ensures built { IfOk result (λ p. IsBuilt source.now envelopes.now p.tables p.scopes
        p.objects) }
    ensures accepted { OnOk result (refusal_of source.now envelopes.now ≡ None) }
    ensures refused { IfErr result (MayExplain NoMemory (refusal_of source.now envelopes.now)) }
{
    let resolved = check_modules(alloc, source)?;
    let (scopes, objects) = placed(alloc, source, envelopes, &resolved)?;
    Ok(Parts {
        tables: resolved.tables,
        scopes,
        objects,
    })
}

/// The design of a source; or the first refusal that holds (501 to 509), or out of memory (510).
/// The source and the envelopes are of one text, and the source's modules hold all of its lists, as those of each source do that
/// `parse` gives; on a refusal both are dropped.
pub fn elaborate(alloc: Global, source: Source, envelopes: Envelopes) -> Result<Design, ElabError>
    requires { AreWhole source }
    ensures design { IfOk result (λ design. design ≡ design_of source envelopes) }
    ensures accepted { IfOk result (λ design. refusal_of source envelopes ≡ None) }
    ensures refused { IfErr result (MayExplain NoMemory (refusal_of source envelopes)) }
{
    let parts = parts_of(alloc, &source, &envelopes)?;
    Ok(Design::new(source, envelopes, parts.tables, parts.scopes, parts.objects))
}

ghost use Rattle.std.specs.Prelude.{◌≡◌, ◌≤◌, [], None, Some, All, map, option_and_then, option_map, length, position, slice_get, slice_index_or, ◌++◌, string_bytes, IfOk, IfSome, MatchOption, OnOk};
ghost use Rattle.std.specs.Option.{option_map_or};
ghost use Rattle.std.specs.Str.{bytes_eq};
ghost use Rattle.vp_modules.specs.Items.{items_in};
ghost use Rattle.vp_modules.specs.Tables.{module_names};
ghost use Rattle.vp_pragma.specs.Envelopes.{object_of};
ghost use Rattle.vp_pragma.specs.Reading.{viewport_of};
ghost use Rattle.vp_pragma.specs.Rights.{nothing};
ghost use Rattle.vp_source.specs.Whole.{AreWhole};
ghost use Rattle.vp_elab.specs.Tree.{AreAlike, author_in, children_of, declared_envelopes, find_in, first_of, full_name_at, is_declared_in, matches_at, name_at, node_envelope, step_rights_at};
ghost use Rattle.vp_elab.specs.Objects.{AreObjects, StandsFor, module_name_at};
ghost use Rattle.vp_elab.specs.Built.{IsBuilt, IsElaborated, ItemsAreFound, design_of, shown};
ghost use Rattle.vp_modules.specs.ModuleRefusals as modules;
ghost use Rattle.vp_elab.specs.Items.{instantiated_at, node_item, parent_of};

use crate::children::{objects_after, top_at, tops_at};
use crate::object::{Kind, Object, ObjectId};
use crate::objects::module_at;
use crate::scope::Scope;
use crate::step_rights::{StepRights, is_on};
use std::alloc::{AllocError, Global};
use std::marker::Model;
use vp_modules::{Names, Tables, items_of};
use vp_pragma::{Envelopes, Viewport};
use vp_source::{Item, Module, Source};
use vp_text::{Sequence, SharedText, Text};

/// The objects of a design.
#[derive(Drop)]
pub struct Objects {
    /// All of them, in preorder.
    pub all: Sequence<Object>,
    /// The first object of each module of the text, by the number of the module.
    pub firsts: Sequence<Option<ObjectId>>,
    /// The numbers of the envelopes of the top modules, rising, each once.
    pub root_envelopes: Sequence<u8>,
}

/// A design: its objects in preorder, with the source, the envelopes and the viewports that it was made of.
/// A contract sees the source and the tree.
#[derive(Drop)]
pub struct Design {
    source: Source,
    envelopes: Envelopes,
    tables: Tables,
    /// What each module of the text declares.
    scopes: Sequence<Scope>,
    objects: Objects,
}

impl Model for Design {
    ghost use Rattle.vp_elab.specs.Built.{Elaborated, IsBuilt, design_of};

    ghost Value = { Elaborated };

    ghost view = { λ d. design_of d.source d.envelopes };

    ghost invariant = { λ d. IsBuilt d.source d.envelopes d.tables d.scopes d.objects };
}

/// The object of a number.
fn object_at(objects: &[Object], id: ObjectId) -> Option<Object>
    ensures { result ≡ slice_get objects.now id.0 }
{
    objects.get(id.0 as usize).copied()
}

/// The object above that of a number, in which it is declared; none of a top module.
fn parent_at(objects: &[Object], id: ObjectId) -> Option<ObjectId>
    ensures { result ≡ option_and_then (λ o. o.parent) (slice_get objects.now id.0) }
{
    object_at(objects, id)?.parent
}

/// The number of the module of an object; none of an object that is no module.
fn number_at(objects: &[Object], id: ObjectId) -> Option<usize>
    ensures { result ≡ option_and_then (λ o. o.scope) (slice_get objects.now id.0) }
{
    object_at(objects, id)?.scope
}

/// What the module of an object declares; none of an object that is no module.
fn scope_at<'a>(objects: &[Object], scopes: &'a [Scope], id: ObjectId) -> Option<&'a Scope>
    ensures { option_map (λ s. s.now) result
        ≡ option_and_then (slice_get scopes.now)
        (option_and_then (λ o. o.scope) (slice_get objects.now id.0)) }
{
    let number = number_at(objects, id)?;
    scopes.get(number)
}

/// The names that are declared in the module of an object; none of an object that is no module.
fn names_at<'a>(objects: &[Object], names: &'a [Names], id: ObjectId) -> Option<&'a Names>
    ensures { option_map (λ n. n.now) result
        ≡ option_and_then (slice_get names.now)
        (option_and_then (λ o. o.scope) (slice_get objects.now id.0)) }
{
    let number = number_at(objects, id)?;
    names.get(number)
}

/// The index of a name that is declared in the module of an object.
fn index_at(objects: &[Object], names: &[Names], id: ObjectId, name: &str) -> Option<usize>
    ensures { result ≡ option_and_then (λ ns. position (bytes_eq name.now) ns)
        (option_and_then (slice_get names.now)
        (option_and_then (λ o. o.scope) (slice_get objects.now id.0))) }
{
    names_at(objects, names, id)?.find(name)
}

/// The name of an index in the module of an object.
fn child_name<'a>(objects: &[Object], names: &'a [Names], id: ObjectId, index: u32) -> &'a str
    ensures { result.now ≡ option_map_or (λ ns. slice_index_or ns index [])
        (option_and_then (slice_get names.now)
        (option_and_then (λ o. o.scope) (slice_get objects.now id.0))) [] }
{
    match names_at(objects, names, id) {
        Some(names) => names.at(index as usize),
        None => "",
    }
}

/// The item of an index in the module of an object.
fn child_item(source: &Source, objects: &[Object], id: ObjectId, index: u32) -> Option<Item>
    ensures { result ≡ option_and_then (λ m. slice_get (items_in source.now m) index)
        (option_and_then (slice_get source.now.modules)
        (option_and_then (λ o. o.scope) (slice_get objects.now id.0))) }
{
    let module = module_at(source, number_at(objects, id))?;
    items_of(source, module).get(index as usize).copied()
}

/// How far the item of an index stands after the object of its module.
fn slot_at(objects: &[Object], scopes: &[Scope], id: ObjectId, index: usize) -> u32
    ensures { result ≡ option_map_or (λ s. slice_index_or s.slots index 0)
        (option_and_then (slice_get scopes.now)
        (option_and_then (λ o. o.scope) (slice_get objects.now id.0))) 0 }
{
    match scope_at(objects, scopes, id) {
        Some(scope) => scope.slot(index),
        None => 0,
    }
}

/// What viewports open of the item of an index in the module of an object.
fn child_step_rights(objects: &[Object], scopes: &[Scope], id: ObjectId, index: u32) -> StepRights
    ensures { shown result
        ≡ option_map_or (λ s. slice_index_or s.all_step_rights index (nothing, None))
        (option_and_then (slice_get scopes.now)
        (option_and_then (λ o. o.scope) (slice_get objects.now id.0))) (nothing, None) }
{
    match scope_at(objects, scopes, id) {
        Some(scope) => scope.step_rights(index as usize),
        None => StepRights::none(),
    }
}

/// The name of the module of an object; none of an object that is no module.
fn module_name<'a>(names: &'a Names, objects: &[Object], id: ObjectId) -> Option<&'a str>
    ensures { option_map (λ n. n.now) result
        ≡ option_and_then (slice_get names.now)
        (option_and_then (λ o. o.scope) (slice_get objects.now id.0)) }
{
    let number = number_at(objects, id)?;
    names.get(number)
}

/// The first object of the module of a number.
fn first_at(firsts: &[Option<ObjectId>], number: usize) -> Option<ObjectId>
    ensures { result ≡ slice_index_or firsts.now number None }
{
    firsts.get(number).copied().flatten()
}

impl Design {
    pub(crate) fn new(
        source: Source,
        envelopes: Envelopes,
        tables: Tables,
        scopes: Sequence<Scope>,
        objects: Objects,
    ) -> Design
        requires { IsBuilt source envelopes tables scopes objects }
        ensures { result ≡ design_of source envelopes }
    {
        Design {
            source,
            envelopes,
            tables,
            scopes,
            objects,
        }
    }

    /// The source that it was made of.
    pub fn source(&self) -> &Source
        ensures { result.now ≡ self.now.source }
    {
        &self.source
    }

    /// The author of an envelope; empty for number 0, the open text, and for a number that is not there.
    pub fn author(&self, envelope: u8) -> &str
        ensures { result.now ≡ author_in self.now.tree.authors envelope }
    {
        self.envelopes.author(envelope)
    }

    /// The same author for one holder more; or an error where they can't be counted.
    pub fn shared_author(&self, envelope: u8) -> Result<SharedText, AllocError>
        ensures { IfOk result (λ author. author ≡ author_in self.now.tree.authors envelope) }
    {
        self.envelopes.shared_author(envelope)
    }

    /// Its objects, in preorder.
    pub fn objects(&self) -> &[Object]
        ensures nodes { AreObjects self.now.tree.nodes result.now }
        ensures kinds { map (λ o. o.kind) result.now ≡ map (λ n. n.kind) self.now.tree.nodes }
        ensures widths { map (λ o. o.width) result.now ≡ map (λ n. n.width) self.now.tree.nodes }
        ensures scopes { map (λ o. module_name_at self.now.source o.scope) result.now
            ≡ map (λ n. n.definition) self.now.tree.nodes }
        ensures some { All (λ o. 1 ≤ o.width) result.now }
        ensures vectors { map (λ o. o.lowest) result.now ≡ map (λ n. n.lowest) self.now.tree.nodes }
    {
        self.objects.all.as_slice()
    }

    /// How many objects there are.
    pub fn count(&self) -> u32
        ensures { result ≡ length self.now.tree.nodes }
    {
        self.objects.all.len() as u32
    }

    /// The object of a number; none past the end.
    pub fn object(&self, id: ObjectId) -> Option<Object>
        ensures node { MatchOption result (slice_get self.now.tree.nodes id.0 ≡ None)
            (λ o. StandsFor self.now.tree.nodes id.0 o) }
        ensures scope { IfSome result (λ o. module_name_at self.now.source o.scope
            ≡ option_and_then (λ n. n.definition) (slice_get self.now.tree.nodes id.0)) }
    {
        object_at(self.objects.all.as_slice(), id)
    }

    /// What the object of a number is; none past the end.
    pub fn kind(&self, id: ObjectId) -> Option<Kind>
        ensures { result ≡ option_map (λ n. n.kind) (slice_get self.now.tree.nodes id.0) }
    {
        match self.object(id) {
            Some(object) => Some(object.kind),
            None => None,
        }
    }

    /// How many bits the object of a number has, from 1; 0 past the end.
    pub fn width(&self, id: ObjectId) -> u32
        ensures { result ≡ option_map_or (λ n. n.width) (slice_get self.now.tree.nodes id.0) 0 }
    {
        match self.object(id) {
            Some(object) => object.width,
            None => 0,
        }
    }

    /// The number of the envelope in which the object of a number is declared; 0 for the open text, and past the end.
    pub fn envelope(&self, id: ObjectId) -> u8
        ensures { result ≡ option_map_or node_envelope (slice_get self.now.tree.nodes id.0) 0 }
    {
        match self.object(id) {
            Some(object) => object.envelope,
            None => 0,
        }
    }

    /// The item of the text that the object of a number is; none of a top module, and past the end.
    pub fn item(&self, id: ObjectId) -> Option<Item>
        ensures { result ≡ option_and_then (node_item self.now.source)
            (slice_get self.now.tree.nodes id.0) }
    {
        let objects = self.objects.all.as_slice();
        let object = object_at(objects, id)?;
        match object.parent {
            Some(module) => child_item(&self.source, objects, module, object.index),
            None => None,
        }
    }

    /// The module that the object of a number instantiates; none of a top module, and past the end.
    pub fn instantiated(&self, id: ObjectId) -> Option<Module>
        ensures { result ≡ instantiated_at self.now.source self.now.tree.nodes id.0 }
    {
        let object = object_at(self.objects.all.as_slice(), id)?;
        match object.parent {
            Some(_) => module_at(&self.source, object.scope),
            None => None,
        }
    }

    /// The object above that of a number, in which it is declared; none of a top module, and past the end.
    pub fn parent(&self, id: ObjectId) -> Option<ObjectId>
        ensures { option_map (λ o. o.0) result
            ≡ option_and_then (parent_of self.now.tree.nodes) (slice_get self.now.tree.nodes id.0) }
    {
        parent_at(self.objects.all.as_slice(), id)
    }

    /// The name of the object of a number, as it stands in paths; empty past the end.
    pub fn name(&self, id: ObjectId) -> &str
        ensures { result.now ≡ name_at self.now.tree id.0 }
    {
        let objects = self.objects.all.as_slice();
        let Some(object) = object_at(objects, id) else {
            return "";
        };
        match object.parent {
            Some(module) => {
                let names = self.tables.scopes.as_slice();
                child_name(objects, names, module, object.index)
            }
            None => self.source.word(object.place),
        }
    }

    /// The full name of the object of a number, as `top.u.y`: the names of its path, from the top module down (IEEE Std
    /// 1364-2005, 26.6). Empty past the end. Takes memory.
    pub fn full_name(&self, alloc: Global, id: ObjectId) -> Result<Text, AllocError>
        ensures { IfOk result (λ name. name ≡ full_name_at self.now.tree id.0) }
    {
        let mut name = String::new(alloc);
        self.push_full_name(id, &mut name)?;
        Ok(Text::from_string(name))
    }

    /// The full name of the object of a number, after a text.
    fn push_full_name(&self, id: ObjectId, text: &mut String) -> Result<(), AllocError>
        ensures { OnOk result (string_bytes text.new
            ≡ string_bytes text.old ++ full_name_at self.now.tree id.0) }
    {
        let Some(object) = object_at(self.objects(), id) else {
            return Ok(());
        };
        match object.parent {
            Some(module) => {
                self.push_full_name(module, text)?;
                text.push('.')?;
                text.push_str(self.name(id))
            }
            None => text.push_str(self.name(id)),
        }
    }

    /// The line of the object of a number, from 1; 0 past the end.
    pub fn line(&self, id: ObjectId) -> u32
        ensures { result ≡ option_map_or (λ n. n.line) (slice_get self.now.tree.nodes id.0) 0 }
    {
        match object_at(self.objects.all.as_slice(), id) {
            Some(object) => self.source.line(object.place),
            None => 0,
        }
    }

    /// The name of the definition of a module, by the number of its object; none of any other object.
    pub fn def_name(&self, id: ObjectId) -> Option<&str>
        ensures { option_map (λ d. d.now) result
            ≡ option_and_then (λ n. n.definition) (slice_get self.now.tree.nodes id.0) }
    {
        module_name(&self.tables.modules, self.objects.all.as_slice(), id)
    }

    /// What the viewports that match the object of a number open of it; nothing past the end.
    pub fn step_rights(&self, id: ObjectId) -> StepRights
        ensures { shown result ≡ step_rights_at self.now.tree id.0 }
    {
        let objects = self.objects.all.as_slice();
        let Some(object) = object_at(objects, id) else {
            return StepRights::none();
        };
        match object.parent {
            Some(module) => child_step_rights(
                objects,
                self.scopes.as_slice(),
                module,
                object.index,
            ),
            None => StepRights::none(),
        }
    }

    /// The viewports, in the order of the text.
    pub fn viewports(&self) -> &[Viewport]
        ensures { map viewport_of result.now ≡ self.now.tree.viewports }
    {
        self.envelopes.viewports()
    }

    /// The object that the viewport of a number, from 0, names, for one holder more; None where no viewport is; or an error where
    /// the holders can't be counted.
    pub fn viewport_object(&self, number: usize) -> Result<Option<SharedText>, AllocError>
        ensures { IfOk result
            (λ object. object ≡ option_map object_of (slice_get self.now.tree.viewports number)) }
    {
        self.envelopes.viewport_object(number)
    }

    /// The name of the module in which an object is declared; none of a top module.
    fn module_of(&self, object: Object) -> Option<&str>
        ensures { option_map (λ m. m.now) result
            ≡ option_and_then (λ p. option_and_then (λ n. n.definition)
            (slice_get self.now.tree.nodes p.0)) object.parent }
    {
        self.def_name(object.parent?)
    }

    /// A viewport matches the object of a number; none does past the end.
    pub fn is_on(&self, viewport: &Viewport, id: ObjectId) -> bool
        ensures { result ≡ matches_at self.now.tree (viewport_of viewport.now) id.0 }
    {
        let Some(object) = self.object(id) else {
            return false;
        };
        match self.module_of(object) {
            Some(module) => is_on(viewport, object.envelope, module, self.name(id)),
            None => false,
        }
    }

    /// How many envelopes there are.
    pub fn envelope_count(&self) -> u8
        ensures { result ≡ length self.now.tree.authors }
    {
        self.envelopes.count()
    }

    /// The object of a name that is declared in a module, or among the top modules; none in an object that is no
    /// module, and in one that is not there.
    pub fn find(&self, scope: Option<ObjectId>, name: &str) -> Option<ObjectId>
        ensures { option_map (λ o. o.0) result
            ≡ find_in self.now.tree.nodes (option_map (λ o. o.0) scope) name.now }
    {
        match scope {
            None => self.root(name),
            Some(module) => self.child(module, name),
        }
    }

    fn root(&self, name: &str) -> Option<ObjectId>
        ensures { option_map (λ o. o.0) result ≡ find_in self.now.tree.nodes None name.now }
    {
        let number = self.tables.modules.find(name)?;
        let first = first_at(self.objects.firsts.as_slice(), number);
        top_at(self.objects.all.as_slice(), first)
    }

    fn child(&self, object: ObjectId, name: &str) -> Option<ObjectId>
        ensures { option_map (λ o. o.0) result
            ≡ find_in self.now.tree.nodes (Some object.0) name.now }
    {
        let objects = self.objects.all.as_slice();
        let index = index_at(objects, self.tables.scopes.as_slice(), object, name)?;
        let slot = slot_at(objects, self.scopes.as_slice(), object, index);
        Some(ObjectId(object.0 + slot))
    }

    /// The top modules, in the order of the text. Takes memory.
    pub fn roots(&self, alloc: Global) -> Result<Sequence<ObjectId>, AllocError>
        ensures { IfOk result (λ ids. map (λ o. o.0) ids ≡ children_of self.now.tree.nodes None) }
    {
        let objects = self.objects.all.as_slice();
        tops_at(alloc, objects, self.objects.firsts.as_slice())
    }

    /// The objects that are declared in a module, in the order of the text; none in an object that is no module, and
    /// in one that is not there. Takes memory.
    pub fn children(&self, alloc: Global, id: ObjectId) -> Result<Sequence<ObjectId>, AllocError>
        ensures { IfOk result (λ ids. map (λ o. o.0) ids
            ≡ children_of self.now.tree.nodes (Some id.0)) }
    {
        let objects = self.objects.all.as_slice();
        match scope_at(objects, self.scopes.as_slice(), id) {
            Some(scope) => objects_after(alloc, id, scope.slots()),
            None => Ok(Sequence::from_vec(Vec::new(alloc))),
        }
    }

    /// An object is declared in a module, or is a top module; nothing is declared in an object that is no module, and in one
    /// that is not there (clause 12.5).
    pub fn is_declared_in(&self, scope: Option<ObjectId>, id: ObjectId) -> bool
        ensures { result
            ≡ is_declared_in self.now.tree.nodes (option_map (λ o. o.0) scope) id.0 }
    {
        match object_at(self.objects.all.as_slice(), id) {
            Some(object) => object.parent == scope,
            None => false,
        }
    }

    /// The modules of the source hold all of its lists, one after the other.
    pub fn source_is_whole(&self)
        ensures { AreWhole self.now.source }
    {
        let _ = &self.source;
    }

    /// The tree is that of the source, with some envelopes and viewports.
    pub fn is_elaborated(&self)
        ensures { IsElaborated self.now }
    {
        let _ = &self.source;
    }

    /// Its modules are right: `check_modules` refuses none of them.
    pub fn modules_are_right(&self)
        ensures { modules.refusal_of self.now.source ≡ None }
    {
        let _ = &self.source;
    }

    /// Each item of a module is found by its name in each object of the module.
    pub fn items_are_found(&self)
        ensures { ItemsAreFound self.now }
    {
        let _ = &self.source;
    }

    /// The instances of a module are alike: what a name names stands as far after one as after another.
    pub fn instances_are_alike(&self)
        ensures { AreAlike self.now.tree.nodes }
    {
        let _ = &self.source;
    }

    /// The first object of the module that has a number in the text: its top module or its first instance.
    pub fn first_instance(&self, number: usize) -> Option<ObjectId>
        ensures { option_map (λ o. o.0) result
            ≡ option_and_then (first_of self.now.tree.nodes)
            (slice_get (module_names self.now.source self.now.source.modules) number) }
    {
        first_at(self.objects.firsts.as_slice(), number)
    }

    /// The numbers of the envelopes of the places declared in a module, or of the top modules: rising, each once.
    /// None in an object that is no module, and in one that is not there.
    pub fn envelopes(&self, scope: Option<ObjectId>) -> &[u8]
        ensures { result.now ≡ declared_envelopes self.now.tree (option_map (λ o. o.0) scope) }
    {
        match scope {
            None => self.objects.root_envelopes.as_slice(),
            Some(object) => self.envelopes_in(object),
        }
    }

    fn envelopes_in(&self, object: ObjectId) -> &[u8]
        ensures { result.now ≡ declared_envelopes self.now.tree (Some object.0) }
    {
        let objects = self.objects.all.as_slice();
        match scope_at(objects, self.scopes.as_slice(), object) {
            Some(scope) => scope.envelopes(),
            None => &[],
        }
    }
}

// What a user sees of a design: all that he is ever shown of it but the values that change.
ghost use Rattle.std.specs.Prelude.{◌≡◌, ◌<◌, ◌^◌, [], IfOk, IfSome, IsOkUnless, List, None, Some, false, filter, if◌then◌else◌, is_some, length, map, option_map, slice_get, take, unwrap_or};
ghost use Rattle.vp_elab.specs.Tree.{Node, matches_at};
ghost use Rattle.vp_pragma.specs.Rights.{set_of};
ghost use Rattle.vp_resolve.specs.Constants.{constant_at};
ghost use Rattle.vp_policy.specs.PolicyState.{Fits};
ghost use Rattle.vp_policy.specs.SeenObjects.{envelope_shown, node_after, nodes_from, number_in, numbers_from, view_shown, viewport_shown};
ghost use Rattle.vp_policy.specs.Users.{Member, member_at};
ghost use Rattle.vp_policy.specs.View.{HasScope, HoldScopes, is_parameter, is_value_seen, known_nodes, known_view, listed_marks, seen_envelopes, seen_node, seen_viewport, view_of};

use crate::copying::copied;
use crate::error::PolicyError;
use crate::grant::GrantedBy;
use crate::policy::{Policy, UserId};
use std::alloc::Global;
use std::marker::Model;
use vp_bits::Bits;
use vp_elab::{Design, Kind, Object, ObjectId};
use vp_operand::fitted;
use vp_pragma::{Right, Rights};
use vp_resolve::constant_at;
use vp_text::{Sequence, SharedText, Text};

/// A viewport as a user sees it: its envelope is that of the object that it matches, and its line is not reported.
#[derive(Drop)]
pub struct SeenViewport {
    /// The object that it names, as it is written.
    pub object: Text,
    /// The rights that it opens.
    pub rights: Rights,
}

/// An object that is listed to a user, as he sees it.
#[derive(Drop)]
pub struct SeenObject {
    /// The number in the view of the module in which it is declared; none of a top module.
    pub parent: Option<u32>,
    pub name: Text,
    /// The number of the envelope in which it is declared; 0 for the open text.
    pub envelope: u8,
    /// His rights on it.
    pub rights: Rights,
    /// The viewports that match it, in the order of the text.
    pub viewports: Sequence<SeenViewport>,
    pub kind: Kind,
    /// How many bits its value has; 1 where it has no value.
    pub width: u32,
    /// The line of its declaration, from 1.
    pub line: u32,
    /// Of a module, the name of its definition.
    pub definition: Option<Text>,
    /// Of a localparam that he may read, its value.
    pub value: Option<Bits>,
    /// The numbers of the envelopes of what is declared in it that are closed to him: rising, each once.
    pub closed: Sequence<u8>,
}

/// An envelope as a user sees it.
#[derive(Drop)]
pub struct SeenEnvelope {
    pub author: SharedText,
    /// By what he has a grant for it, be it empty.
    pub granted: GrantedBy,
}

/// What a user sees of a design. A contract sees each object with its path.
#[derive(Drop)]
pub struct View {
    objects: Sequence<SeenObject>,
    closed: Sequence<u8>,
    envelopes: Sequence<SeenEnvelope>,
    run: bool,
}

impl Model for View {
    ghost use Rattle.vp_policy.specs.SeenObjects.{view_shown};
    ghost use Rattle.vp_policy.specs.View.{View};

    ghost Value = { View };

    ghost view = { λ v. view_shown v.objects v.closed v.envelopes v.run };

    ghost use Rattle.std.specs.Prelude.{◌<◌, ◌^◌, length};

    ghost invariant = { λ v. length v.objects < 2 ^ 32 };
}

impl View {
    /// The objects that are listed to him, in preorder.
    pub fn objects(&self) -> &[SeenObject]
        ensures { nodes_from [] result.now ≡ self.now.nodes }
    {
        self.objects.as_slice()
    }

    /// How many they are: each has a number of 32 bits.
    pub fn count(&self) -> u32
        ensures { result ≡ length self.now.nodes }
    {
        self.objects.as_slice().len() as u32
    }

    /// The numbers of the envelopes of the top modules that are closed to him: rising, each once.
    pub fn closed(&self) -> &[u8]
        ensures { result.now ≡ self.now.closed_list }
    {
        self.closed.as_slice()
    }

    /// The envelopes, of which the first has number 1.
    pub fn envelopes(&self) -> &[SeenEnvelope]
        ensures { map envelope_shown result.now ≡ self.now.envelopes }
    {
        self.envelopes.as_slice()
    }

    /// He may let the design run.
    pub fn may_run(&self) -> bool
        ensures { result ≡ self.now.run }
    {
        self.run
    }
}

/// The viewports that match an object, as a user sees them, in the order of the text.
fn viewports_on(
    alloc: Global,
    design: &Design,
    object: ObjectId,
) -> Result<Sequence<SeenViewport>, PolicyError>
    ensures viewports { IfOk result (λ viewports. map viewport_shown viewports
        ≡ map seen_viewport (filter (λ v. matches_at design.now.tree v object.0)
        design.now.tree.viewports)) }
    ensures err { IsOkUnless result PolicyError.NoMemory }
{
    let mut viewports = Vec::new(alloc);
    for viewport in design.viewports() {
        if design.is_on(viewport, object) {
            viewports.push(SeenViewport {
                object: viewport.object(alloc)?,
                rights: viewport.rights,
            })?;
        }
    }
    Ok(Sequence::from_vec(viewports))
}

/// An object of this kind is a localparam.
fn is_parameter(kind: Kind) -> bool
    ensures { result ≡ is_parameter kind }
{
    matches!(kind, Kind::Parameter)
}

/// The value of an object as a user with these rights on it sees it: that of a localparam that he may read.
fn seen_value(design: &Design, id: ObjectId, object: Object, rights: Rights) -> Option<Bits>
    ensures { result ≡ (if is_value_seen object.kind object.width (set_of rights)
        then Some (constant_at design.now id.0 object.width) else None) }
{
    let width = fitted(u64::from(object.width))?;
    if is_parameter(object.kind) && rights.has(Right::Read) {
        Some(constant_at(design, id, width))
    } else {
        None
    }
}

/// The number, among those listed, of the module in which an object is declared.
fn number_in(numbers: &[Option<u32>], parent: Option<ObjectId>) -> Option<u32>
    ensures { result ≡ number_in numbers.now (option_map (λ p. p.0) parent) }
{
    numbers.get(parent?.0 as usize).copied()?
}

/// The object of a number is one of those of these marks.
fn is_marked(marks: &[bool], number: u32) -> bool
    ensures { result ≡ unwrap_or (slice_get marks.now number) false }
{
    marks.get(number as usize).copied().unwrap_or(false)
}

impl Policy {
    /// An object that a user knows, as he sees it, where these are the numbers in his view of the objects before it.
    fn seen_object(
        &self,
        alloc: Global,
        design: &Design,
        user: UserId,
        id: ObjectId,
        numbers: &[Option<u32>],
    ) -> Result<SeenObject, PolicyError>
        requires fits { Fits self.now design.now.tree }
        requires there { id.0 < length design.now.tree.nodes }
        requires before { length numbers.now ≡ id.0 }
        requires numbers { numbers.now ≡ numbers_from 0 (map is_some numbers.now) }
        requires scope { IfSome (slice_get design.now.tree.nodes id.0)
            (HasScope design.now.tree.nodes (map is_some numbers.now)) }
        ensures node { let user : Member = member_at self.now.members user.0 in
            let before : List Node = take id.0 design.now.tree.nodes in
            IfOk result (λ o. IfSome (slice_get design.now.tree.nodes id.0)
            (λ node. node_after (known_nodes design.now user (map is_some numbers.now) before) o
            ≡ seen_node design.now user node)) }
        ensures err { IsOkUnless result PolicyError.NoMemory }
    {
        let Some(object) = design.object(id) else {
            unreachable!();
        };
        let rights = self.rights(user, id);
        Ok(SeenObject {
            parent: number_in(numbers, object.parent),
            name: Text::copy(alloc, design.name(id))?,
            envelope: object.envelope,
            rights,
            viewports: viewports_on(alloc, design, id)?,
            kind: object.kind,
            width: object.width,
            line: design.line(id),
            definition: copied(alloc, design.def_name(id))?,
            value: seen_value(design, id, object, rights),
            closed: self.closed(alloc, user, Some(id))?,
        })
    }

    /// The objects that a user knows, as he sees them, in preorder.
    fn known_objects(
        &self,
        alloc: Global,
        design: &Design,
        user: UserId,
        known: &[bool],
    ) -> Result<Sequence<SeenObject>, PolicyError>
        requires fits { Fits self.now design.now.tree }
        requires all { length known.now ≡ length design.now.tree.nodes }
        requires scopes { HoldScopes design.now.tree.nodes known.now }
        ensures nodes { let user : Member = member_at self.now.members user.0 in
            IfOk result (λ objects. nodes_from [] objects
            ≡ known_nodes design.now user known.now design.now.tree.nodes) }
        ensures few { IfOk result (λ objects. length objects < 2 ^ 32) }
        ensures err { IsOkUnless result PolicyError.NoMemory }
    {
        let mut objects = Vec::new(alloc);
        let mut numbers = Vec::new(alloc);
        for number in 0..design.count() {
            if is_marked(known, number) {
                let id = ObjectId(number);
                let object = self.seen_object(alloc, design, user, id, numbers.as_slice())?;
                numbers.push(Some(objects.len() as u32))?;
                objects.push(object)?;
            } else {
                numbers.push(None)?;
            }
        }
        Ok(Sequence::from_vec(objects))
    }

    /// The envelopes as a user sees them, of which the first has number 1.
    fn seen_envelopes(
        &self,
        alloc: Global,
        design: &Design,
        user: UserId,
    ) -> Result<Sequence<SeenEnvelope>, PolicyError>
        ensures envelopes { IfOk result
            (λ envelopes. map envelope_shown envelopes
            ≡ seen_envelopes (member_at self.now.members user.0) 1 design.now.tree.authors) }
        ensures err { IsOkUnless result PolicyError.NoMemory }
    {
        let mut envelopes = Vec::new(alloc);
        for before in 0..design.envelope_count() {
            let number = before + 1;
            envelopes.push(SeenEnvelope {
                author: design.shared_author(number)?,
                granted: self.entry_of(user, number),
            })?;
        }
        Ok(Sequence::from_vec(envelopes))
    }

    /// Of each object whether it is listed to a user. Takes memory (905).
    pub fn listed_marks(
        &self,
        alloc: Global,
        design: &Design,
        user: UserId,
    ) -> Result<Vec<bool>, PolicyError>
        requires { Fits self.now design.now.tree }
        ensures marks { let user : Member = member_at self.now.members user.0 in IfOk result
            (λ marks. marks.items ≡ listed_marks design.now.tree user design.now.tree.nodes) }
        ensures err { IsOkUnless result PolicyError.NoMemory }
    {
        let mut marks = Vec::new(alloc);
        for number in 0..design.count() {
            marks.push(self.is_listed(user, ObjectId(number)))?;
        }
        Ok(marks)
    }

    /// What a user sees of the objects that he knows, which are marked: these with the closed lists of their scopes, the
    /// closed list of the top modules, the envelopes, and whether he may let the design run. Takes memory (905).
    pub fn known_view(
        &self,
        alloc: Global,
        design: &Design,
        user: UserId,
        known: &[bool],
    ) -> Result<View, PolicyError>
        requires fits { Fits self.now design.now.tree }
        requires all { length known.now ≡ length design.now.tree.nodes }
        requires scopes { HoldScopes design.now.tree.nodes known.now }
        ensures view { IfOk result (λ view. view
            ≡ known_view design.now (member_at self.now.members user.0) known.now) }
        ensures err { IsOkUnless result PolicyError.NoMemory }
    {
        Ok(View {
            objects: self.known_objects(alloc, design, user, known)?,
            closed: self.closed(alloc, user, None)?,
            envelopes: self.seen_envelopes(alloc, design, user)?,
            run: self.may_run(user),
        })
    }

    /// What a user sees of a design: the objects that are listed to him with the closed lists of their scopes, the
    /// closed list of the top modules, the envelopes, and whether he may let the design run. Takes memory (905).
    pub fn view(&self, alloc: Global, design: &Design, user: UserId) -> Result<View, PolicyError>
        requires { Fits self.now design.now.tree }
        ensures view { IfOk result
            (λ view. view ≡ view_of design.now (member_at self.now.members user.0)) }
        ensures err { IsOkUnless result PolicyError.NoMemory }
    {
        let listed = self.listed_marks(alloc, design, user)?;
        self.known_view(alloc, design, user, &listed)
    }
}

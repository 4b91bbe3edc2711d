ghost use Rattle.std.specs.Prelude.{◌≡◌, option_and_then, option_map, slice_get};
ghost use Rattle.vp_modules.specs.Items.{definition_number};
ghost use Rattle.vp_elab.specs.Elaboration.{item_kind, item_range, literal_range, lowest_of, range_width, width_of};
ghost use Rattle.vp_elab.specs.Objects.{item_object, root_object};

use vp_modules::place_of;
use vp_pragma::Envelopes;
use vp_source::{DeclaredRange, Direction, Expression, Item, Module, Range, Source};

/// The greatest number of objects of a design.
pub const OBJECT_LIMIT: usize = 65_536;

/// The number of an object of a design, in preorder from 0.
#[derive(Clone, Copy, Debug, PartialEq, Eq)]
pub struct ObjectId(pub u32);

/// What an object is (clause 26.6).
#[derive(Clone, Copy, Debug, PartialEq, Eq)]
pub enum Kind {
    /// A top module or an instance.
    Module,
    Net,
    Reg,
    /// A localparam.
    Parameter,
    Always,
    Initial,
    /// A continuous assignment.
    Assign,
}

impl Kind {
    ghost use Rattle.vp_elab.specs.Tree.{has_value, kind_of_name, type_name};

    /// An object of this kind has a value.
    pub fn has_value(self) -> bool
        ensures { result ≡ has_value self }
    {
        matches!(self, Kind::Net | Kind::Reg | Kind::Parameter)
    }

    /// The name of the type of an object of this kind (IEEE Std 1364-2005, 26.6).
    pub fn type_name(self) -> &'static str
        ensures { result.now ≡ type_name self }
    {
        match self {
            Kind::Module => "vpiModule",
            Kind::Net => "vpiNet",
            Kind::Reg => "vpiReg",
            Kind::Parameter => "vpiParameter",
            Kind::Always => "vpiAlways",
            Kind::Initial => "vpiInitial",
            Kind::Assign => "vpiContAssign",
        }
    }

    /// The kind that a word names: `module`, `net`, `reg`, `parameter`, `always`, `initial` or `assign`. None of any
    /// other word.
    pub fn of_name(name: &str) -> Option<Kind>
        ensures { result ≡ kind_of_name name.now }
    {
        match name {
            "module" => Some(Kind::Module),
            "net" => Some(Kind::Net),
            "reg" => Some(Kind::Reg),
            "parameter" => Some(Kind::Parameter),
            "always" => Some(Kind::Always),
            "initial" => Some(Kind::Initial),
            "assign" => Some(Kind::Assign),
            _ => None,
        }
    }
}

/// An object of a design: a top module, or what an item of a module declares, in one of the module's instances.
#[derive(Clone, Copy)]
pub struct Object {
    pub kind: Kind,
    /// The module in which it is declared; none for a top module.
    pub parent: Option<ObjectId>,
    /// Its index among the items of that module; 0 for a top module.
    pub index: u32,
    /// Of a top module or an instance, the number of its module among those of the text.
    pub scope: Option<usize>,
    /// The place of its declaration.
    pub place: u32,
    /// The number of the envelope in which it is declared; 0 for the open text.
    pub envelope: u8,
    /// How many bits its value has, 1 to 65,536; 1 where it has no value.
    pub width: u32,
    /// Of a vector, the index of its least significant bit; a scalar has none.
    pub lowest: Option<u16>,
}

/// The kind of what an item declares.
fn kind_of(item: Item) -> Kind
    ensures { result ≡ item_kind item }
{
    match item {
        Item::Port {
            direction: Direction::OutputReg,
            ..
        }
        | Item::Reg { .. } => Kind::Reg,
        Item::Port { .. } | Item::Net { .. } => Kind::Net,
        Item::LocalParameter { .. } => Kind::Parameter,
        Item::Assignment { .. } => Kind::Assign,
        Item::Instance { .. } => Kind::Module,
        Item::Initial { .. } => Kind::Initial,
        Item::Always { .. } => Kind::Always,
    }
}

/// How many bits a range has, 1 to 65,536 (clause 4.3.1).
pub fn range_width(range: Range) -> u32
    ensures { result ≡ range_width range }
{
    u32::from(range.msb.saturating_sub(range.lsb)) + 1
}

/// How many bits a literal with a size has; 1 of any other expression.
fn literal_width(source: &Source, value: u32) -> u32
    ensures { result ≡ width_of (option_and_then literal_range
        (slice_get source.now.expressions value)) }
{
    match source.expressions.as_slice().get(value as usize) {
        Some(Expression::Literal { size, .. }) => size.saturating_sub(1) + 1,
        _ => 1,
    }
}

/// The index of the least significant bit of a literal with a size; none of any other expression.
fn literal_lowest(source: &Source, value: u32) -> Option<u16>
    ensures { result ≡ lowest_of (option_and_then literal_range
        (slice_get source.now.expressions value)) }
{
    match source.expressions.as_slice().get(value as usize) {
        Some(Expression::Literal { .. }) => Some(0),
        _ => None,
    }
}

/// How many bits what is declared with a range or none has: a scalar has one.
fn range_or_scalar_width(range: Option<DeclaredRange>) -> u32
    ensures { result ≡ width_of (option_map (λ d. d.range) range) }
{
    match range {
        Some(declared) => range_width(declared.range),
        None => 1,
    }
}

/// How many bits what an item declares has.
fn width_of(source: &Source, item: Item) -> u32
    ensures { result ≡ width_of (item_range source.now item) }
{
    match item {
        Item::Port { range, .. } | Item::Net { range, .. } | Item::Reg { range, .. } =>
            range_or_scalar_width(range),
        Item::LocalParameter { value, .. } => literal_width(source, value),
        Item::Assignment { .. }
        | Item::Instance { .. }
        | Item::Initial { .. }
        | Item::Always { .. } => 1,
    }
}

/// The index of the least significant bit of what an item declares; a scalar has none.
fn lowest_of(source: &Source, item: Item) -> Option<u16>
    ensures { result ≡ lowest_of (item_range source.now item) }
{
    match item {
        Item::Port { range, .. } | Item::Net { range, .. } | Item::Reg { range, .. } => Some(
            range?.range.lsb,
        ),
        Item::LocalParameter { value, .. } => literal_lowest(source, value),
        Item::Assignment { .. }
        | Item::Instance { .. }
        | Item::Initial { .. }
        | Item::Always { .. } => None,
    }
}

/// The object of a top module, by the number of its module.
pub fn root_object(envelopes: &Envelopes, number: usize, module: Module) -> Object
    ensures { result ≡ root_object envelopes.now.envelopes number «module» }
{
    Object {
        kind: Kind::Module,
        parent: None,
        index: 0,
        scope: Some(number),
        place: module.name,
        envelope: envelopes.of(module.name),
        width: 1,
        lowest: None,
    }
}

/// The object of an item, by its index among those of the module in whose object it stands, and by the number of the module that
/// it instantiates.
pub fn item_object(
    source: &Source,
    envelopes: &Envelopes,
    parent: ObjectId,
    index: u32,
    item: Item,
    definition: Option<usize>,
) -> Object
    requires { definition ≡ definition_number source.now item }
    ensures { result ≡ item_object source.now envelopes.now.envelopes parent.0 index item }
{
    let place = place_of(item);
    Object {
        kind: kind_of(item),
        parent: Some(parent),
        index,
        scope: definition,
        place,
        envelope: envelopes.of(place),
        width: width_of(source, item),
        lowest: lowest_of(source, item),
    }
}

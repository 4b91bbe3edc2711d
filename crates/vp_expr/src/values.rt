ghost use Rattle.std.specs.Prelude.{◌≡◌, drop, length, map, slice_get, slice_index_or, slice_set, IfOk, IsOkUnless};
ghost use Rattle.std.specs.Option.{option_map_or};
ghost use Rattle.vp_bits.specs.Vector.{IsWidth};
ghost use Rattle.vp_operand.specs.Arena.{value_in};
ghost use Rattle.vp_resolve.specs.Constants.{constant_at};
ghost use Rattle.vp_expr.specs.Start.{start_of, start_value};
ghost use Rattle.vp_operand.specs.Values.{no_value};

use crate::checked::Checked;
use crate::kept::ValuesCheckpoint;
use std::alloc::Global;
use std::marker::Model;
use vp_bits::Bits;
use vp_cow_list::TrackedList;
use vp_elab::{Design, Kind, Object, ObjectId};
use vp_resolve::{ExprError, constant_at};

/// A value for each object of a design, of which copies can be kept. A contract sees their list, by object number.
#[derive(Drop)]
pub struct Values {
    values: TrackedList<Bits>,
}

impl Model for Values {
    ghost use Rattle.std.specs.Prelude.{List};
    ghost use Rattle.vp_bits.specs.declared.bit.Bit.{Bit};

    ghost Value = { List (List Bit) };

    ghost view = { λ v. v.values };
}

/// The value of an object before anything has happened, by its number.
fn start(design: &Design, id: ObjectId, object: Object) -> Bits
    requires { IsWidth object.width }
    ensures { result ≡ start_value object.kind object.width
        (constant_at design.now id.0 object.width) }
{
    let width = object.width as u8;
    match object.kind {
        Kind::Reg => Bits::unknown(width),
        Kind::Net => Bits::high_impedance(width),
        Kind::Parameter => constant_at(design, id, width),
        Kind::Module | Kind::Always | Kind::Initial | Kind::Assign => Bits::unknown(1),
    }
}

/// The value of the object of a number before anything has happened; one unknown bit for a number that is not there.
fn start_at(checked: &Checked, id: ObjectId) -> Bits
    ensures { result ≡ option_map_or (start_of checked.now) (slice_get checked.now.tree.nodes id.0)
        no_value }
{
    match checked.objects().get(id.0 as usize) {
        Some(object) => start(checked.design(), id, *object),
        None => Bits::unknown(1),
    }
}

/// The value at a place of a list; one unknown bit past the end.
pub fn value_in(values: &[Bits], place: u32) -> Bits
    ensures { result ≡ value_in values.now place }
{
    match values.get(place as usize) {
        Some(value) => *value,
        None => Bits::unknown(1),
    }
}

impl Values {
    /// The values before anything has happened; takes memory (604).
    pub fn new(alloc: Global, checked: &Checked) -> Result<Values, ExprError>
        ensures values { IfOk result (λ values. values
            ≡ map (start_of checked.now) checked.now.tree.nodes) }
        ensures err { IsOkUnless result ExprError.NoMemory }
    {
        let mut values = Vec::new(alloc);
        for number in 0..checked.design().count() {
            values.push(start_at(checked, ObjectId(number)))?;
        }
        Values::from_vec(alloc, values)
    }

    /// The values of a vector, by object number.
    fn from_vec(alloc: Global, values: Vec<Bits>) -> Result<Values, ExprError>
        ensures values { IfOk result (λ v. v ≡ values.items) }
        ensures err { IsOkUnless result ExprError.NoMemory }
    {
        match TrackedList::from_vec(alloc, values) {
            Ok(values) => Ok(Values { values }),
            Err(_) => Err(ExprError::NoMemory),
        }
    }

    /// The value of an object; one unknown bit for a number that is not there.
    pub fn get(&self, id: ObjectId) -> Bits
        ensures { result ≡ slice_index_or self.now id.0 no_value }
    {
        value_in(self.values.as_slice(), id.0)
    }

    /// The values of an instance and of the objects after it: that of an object of the instance stands at its slot.
    pub fn of_instance(&self, instance: ObjectId) -> &[Bits]
        ensures { result.now ≡ drop instance.0 self.now }
    {
        let from = instance.0 as usize;
        let values = self.values.as_slice();
        if from <= values.len() {
            &values[from..]
        } else {
            &[]
        }
    }

    /// The value of an object; none for a number that is not there.
    pub fn find(&self, id: ObjectId) -> Option<Bits>
        ensures { result ≡ slice_get self.now id.0 }
    {
        self.values.as_slice().get(id.0 as usize).copied()
    }

    /// Sets the value of an object, which has this width; changes nothing for a number that is not there.
    pub fn set(&mut self, id: ObjectId, value: Bits)
        requires { length (slice_index_or self.old id.0 value) ≡ length value }
        ensures { self.new ≡ slice_set self.old id.0 value }
    {
        self.values.set(id.0 as usize, value);
    }

    /// A copy of the values to be kept, which shares what was not set since the last one; takes memory (604).
    pub fn checkpoint(&mut self) -> Result<ValuesCheckpoint, ExprError>
        ensures copy { IfOk result (λ copy. copy ≡ self.old) }
        ensures same { self.new ≡ self.old }
        ensures err { IsOkUnless result ExprError.NoMemory }
    {
        match self.values.checkpoint() {
            Ok(values) => Ok(ValuesCheckpoint::new(values)),
            Err(_) => Err(ExprError::NoMemory),
        }
    }

    /// The values of a copy, to be set; takes memory for all of them (604).
    pub fn of_kept(alloc: Global, kept: &ValuesCheckpoint) -> Result<Values, ExprError>
        ensures values { IfOk result (λ values. values ≡ kept.now) }
        ensures err { IsOkUnless result ExprError.NoMemory }
    {
        match TrackedList::of_kept(alloc, kept.list()) {
            Ok(values) => Ok(Values { values }),
            Err(_) => Err(ExprError::NoMemory),
        }
    }
}

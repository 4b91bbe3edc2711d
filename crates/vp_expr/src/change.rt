ghost use Rattle.std.specs.Prelude.{◌≡◌, length, IfSome, IsSomeAnd};
ghost use Rattle.vp_expr.specs.Changes.{change_of};

use vp_bits::Bits;
use vp_elab::ObjectId;

/// A change of an object's value.
#[derive(Clone, Copy)]
pub struct Change {
    pub object: ObjectId,
    /// Its new value.
    pub value: Bits,
}

/// What changes where an object that has a value is given another.
pub fn change_of(object: ObjectId, old: Option<Bits>, value: Bits) -> Option<Change>
    ensures change { result ≡ change_of object.0 old value }
    ensures fits { IfSome result (λ c. IsSomeAnd old (λ o. length o ≡ length c.value)) }
    ensures of { IfSome result (λ c. c.object ≡ object) }
{
    let old = old?;
    let value = value.resize(old.width());
    if old == value {
        return None;
    }
    Some(Change { object, value })
}

ghost use Rattle.std.specs.Prelude.{◌≡◌};
ghost use Rattle.vp_bits.specs.Vector.{IsWidth};

use std::marker::Model;

/// An expression by its place in the list of operands, with the size of its context in bits, 1 to 64. A contract sees
/// both.
#[derive(Clone, Copy, Debug)]
pub struct ExprId {
    place: u32,
    size: u8,
}

impl Model for ExprId {
    ghost use Rattle.vp_bits.specs.Vector.{IsWidth};
    ghost use Rattle.vp_operand.specs.Ids.{Sized};
    ghost use Rattle.vp_operand.specs.laws.Ids.{inverse_of_view};

    ghost Value = { Sized };

    ghost view = { λ e. record { place = e.place; size = e.size } };

    ghost invariant = { λ e. IsWidth e.size };

    ghost inverse = { λ e. record { place = e.place; size = e.size } };

    ghost inverse_ok = { inverse_of_view };
}

impl ExprId {
    /// The expression at a place, in a context of a size in bits.
    pub fn new(place: u32, size: u8) -> ExprId
        requires { IsWidth size }
        ensures { result ≡ record { place = place; size = size } }
    {
        ExprId { place, size }
    }

    /// Its place in the list of operands.
    pub fn place(&self) -> u32
        ensures { result ≡ self.now.place }
    {
        self.place
    }

    /// The size of its context, in bits.
    pub fn size(&self) -> u8
        ensures size { result ≡ self.now.size }
        ensures fits { IsWidth result }
    {
        self.size
    }
}

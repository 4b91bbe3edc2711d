// The constants of a design, which its localparams have.
ghost use Rattle.std.specs.Prelude.{◌≡◌};
ghost use Rattle.vp_bits.specs.Vector.{IsWidth};
ghost use Rattle.vp_resolve.specs.Constants.{constant_at, item_constant, literal_constant};

use vp_bits::Bits;
use vp_elab::{Design, ObjectId};
use vp_operand::literal_bits;
use vp_source::{Expression, Item, Source};

/// So many bits of the value of a literal with a size; of any other expression so many unknown ones.
fn literal_constant(source: &Source, width: u8, expression: Expression) -> Bits
    requires { IsWidth width }
    ensures { result ≡ literal_constant source.now width expression }
{
    match expression {
        Expression::Literal { size, digits, .. } => {
            literal_bits(size, source.word(digits)).resize(width)
        }
        _ => Bits::unknown(width),
    }
}

/// The constant of an item of so many bits, which a localparam has; all unknown for any other.
fn item_constant(source: &Source, width: u8, item: Item) -> Bits
    requires { IsWidth width }
    ensures { result ≡ item_constant source.now width item }
{
    let Item::LocalParameter { value, .. } = item else {
        return Bits::unknown(width);
    };
    match source.expressions.as_slice().get(value as usize) {
        Some(expression) => literal_constant(source, width, *expression),
        None => Bits::unknown(width),
    }
}

/// The constant of the object of a number, of so many bits, which a localparam has; all unknown for any other.
pub fn constant_at(design: &Design, id: ObjectId, width: u8) -> Bits
    requires { IsWidth width }
    ensures { result ≡ constant_at design.now id.0 width }
{
    match design.item(id) {
        Some(item) => item_constant(design.source(), width, item),
        None => Bits::unknown(width),
    }
}

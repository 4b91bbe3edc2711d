ghost use Rattle.std.specs.Prelude.{◌≡◌, ◌<◌, Some, slice_get, IfSome, MatchOption, OnSome};
ghost use Rattle.vp_operand.specs.Arena.{blank, term_below, term_made};

use vp_bits::Bits;

/// How far an object stands after the object of the module in which it is declared. In each instance of a module its objects
/// stand as far after the instance, so that a slot names one of them for all instances.
#[derive(Clone, Copy, Debug, PartialEq, Eq)]
pub struct Slot(pub u32);

/// An operator of one operand whose value is as wide as its context (IEEE Std 1364-2005, 5.1.5 and 5.1.10).
#[derive(Clone, Copy)]
pub enum Unary {
    /// `+`, which keeps x and z bits.
    Plus,
    /// `-`.
    Minus,
    /// `~`.
    Negation,
}

/// An operator of one operand whose value has one bit (IEEE Std 1364-2005, 5.1.9 and 5.1.11).
#[derive(Clone, Copy)]
pub enum Reduction {
    /// `!`.
    LogicalNegation,
    /// `&`.
    And,
    /// `~&`.
    Nand,
    /// `|`.
    Or,
    /// `~|`.
    Nor,
    /// `^`.
    Xor,
    /// `~^` or `^~`.
    Xnor,
}

/// An operator of two operands that are as wide as its context (IEEE Std 1364-2005, 5.1.5 and 5.1.10).
#[derive(Clone, Copy)]
pub enum Binary {
    /// `+`.
    Add,
    /// `-`.
    Subtract,
    /// `*`.
    Multiply,
    /// `&`.
    And,
    /// `|`.
    Or,
    /// `^`.
    Xor,
    /// `~^` or `^~`.
    Xnor,
}

/// A shift, whose first operand is as wide as its context (IEEE Std 1364-2005, 5.1.12).
#[derive(Clone, Copy)]
pub enum Shift {
    /// `<<`.
    Left,
    /// `>>`.
    Right,
}

/// A relational or equality operator, whose operands have one size (IEEE Std 1364-2005, 5.1.7 and 5.1.8).
#[derive(Clone, Copy)]
pub enum Comparison {
    /// `<`.
    Less,
    /// `<=`.
    LessOrEqual,
    /// `>`.
    Greater,
    /// `>=`.
    GreaterOrEqual,
    /// `==`.
    Equal,
    /// `!=`.
    Unequal,
    /// `===`.
    CaseEqual,
    /// `!==`.
    CaseUnequal,
}

/// A logical operator of two operands that size themselves (IEEE Std 1364-2005, 5.1.9).
#[derive(Clone, Copy)]
pub enum Logical {
    /// `&&`.
    And,
    /// `||`.
    Or,
}

/// An operator between two operands.
#[derive(Clone, Copy)]
pub enum Infix {
    /// `+ - * & | ^ ~^`, as wide as the context.
    Combined(Binary),
    /// `<< >>`, as wide as the context.
    Shifted(Shift),
    /// `< <= > >= == != === !==`, of one bit.
    Compared(Comparison),
    /// `&& ||`, of one bit.
    Joined(Logical),
}

/// An expression (IEEE Std 1364-2005, 5) over the objects of an instance. It names its parts by their places in the list of
/// operands; a part stands before the whole.
#[derive(Clone, Copy)]
pub enum Operand {
    /// The value of an object, which has so many bits.
    Object { slot: Slot, width: u8 },
    /// The value of a literal, and whether it is signed.
    Constant { bits: Bits, is_signed: bool },
    /// The bit of an object at an index, by the place of that, which sizes itself; `lowest` is the index of the least
    /// significant bit.
    BitSelect { slot: Slot, lowest: u32, index: u32 },
    /// So many bits of an object from a place on; the least significant bit has place 0.
    PartSelect { slot: Slot, place: u32, width: u8 },
    /// `+ - ~` before an operand.
    Applied(Unary, u32),
    /// `!` or a reduction before an operand.
    Reduced(Reduction, u32),
    /// An operator between a left and a right operand.
    Paired(Infix, u32, u32),
    /// `?:`: the condition, and the values where it is true and where it is false.
    Conditional(u32, u32, u32),
    /// Braces round one expression.
    Concatenated(u32),
    /// A concatenation so far, and one more expression after it.
    Appended { list: u32, part: u32 },
    /// A concatenation so many times.
    Replicated { count: u32, list: u32 },
}

/// The operand at a place; none past the end.
fn operand_at(operands: &[Operand], place: u32) -> Option<Operand>
    ensures { result ≡ slice_get operands.now place }
{
    operands.get(place as usize).copied()
}

/// The operand at a place before an end; none elsewhere.
pub fn operand_before(operands: &[Operand], end: usize, place: u32) -> Option<Operand>
    ensures below { OnSome result (place < end) }
    ensures found { IfSome result (λ o. Some o ≡ slice_get operands.now place) }
    ensures term { MatchOption result (term_below operands.now end place ≡ blank)
        (λ o. term_below operands.now end place ≡ term_made operands.now place o) }
{
    if place as usize >= end {
        return None;
    }
    operand_at(operands, place)
}

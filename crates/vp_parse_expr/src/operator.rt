ghost use Rattle.std.specs.Prelude.{◌≡◌};
ghost use Rattle.vp_source.specs.Operators.{unary_of as unary_by, binary_of as binary_by, level as level_of};

use vp_lex::Punctuator;
use vp_source::{BinaryOperator, UnaryOperator};

/// The operator of one operand that a punctuator is.
pub fn unary_of(punctuator: Punctuator) -> Option<UnaryOperator>
    ensures { result ≡ unary_by punctuator }
{
    match punctuator {
        Punctuator::Plus => Some(UnaryOperator::Plus),
        Punctuator::Minus => Some(UnaryOperator::Minus),
        Punctuator::LogicalNegation => Some(UnaryOperator::LogicalNegation),
        Punctuator::Negation => Some(UnaryOperator::Negation),
        Punctuator::And => Some(UnaryOperator::ReductionAnd),
        Punctuator::ReductionNand => Some(UnaryOperator::ReductionNand),
        Punctuator::Or => Some(UnaryOperator::ReductionOr),
        Punctuator::ReductionNor => Some(UnaryOperator::ReductionNor),
        Punctuator::Xor => Some(UnaryOperator::ReductionXor),
        Punctuator::ReductionXnor => Some(UnaryOperator::ReductionXnor),
        _ => None,
    }
}

/// The operator of two operands that a punctuator is.
pub fn binary_of(punctuator: Punctuator) -> Option<BinaryOperator>
    ensures { result ≡ binary_by punctuator }
{
    match punctuator {
        Punctuator::Asterisk => Some(BinaryOperator::Multiply),
        Punctuator::Plus => Some(BinaryOperator::Add),
        Punctuator::Minus => Some(BinaryOperator::Subtract),
        Punctuator::ShiftLeft => Some(BinaryOperator::ShiftLeft),
        Punctuator::ShiftRight => Some(BinaryOperator::ShiftRight),
        Punctuator::LessThan => Some(BinaryOperator::Less),
        Punctuator::LessOrEqual => Some(BinaryOperator::LessOrEqual),
        Punctuator::GreaterThan => Some(BinaryOperator::Greater),
        Punctuator::GreaterOrEqual => Some(BinaryOperator::GreaterOrEqual),
        Punctuator::LogicalEquality => Some(BinaryOperator::Equal),
        Punctuator::LogicalInequality => Some(BinaryOperator::Unequal),
        Punctuator::CaseEquality => Some(BinaryOperator::CaseEqual),
        Punctuator::CaseInequality => Some(BinaryOperator::CaseUnequal),
        Punctuator::And => Some(BinaryOperator::And),
        Punctuator::Xor => Some(BinaryOperator::Xor),
        Punctuator::ReductionXnor => Some(BinaryOperator::Xnor),
        Punctuator::Or => Some(BinaryOperator::Or),
        Punctuator::LogicalAnd => Some(BinaryOperator::LogicalAnd),
        Punctuator::LogicalOr => Some(BinaryOperator::LogicalOr),
        _ => None,
    }
}

/// How tightly an operator binds, from 1 (loosest) to 10 (table 5-4).
pub fn level(operator: BinaryOperator) -> u8
    ensures { result ≡ level_of operator }
{
    match operator {
        BinaryOperator::Multiply => 10,
        BinaryOperator::Add | BinaryOperator::Subtract => 9,
        BinaryOperator::ShiftLeft | BinaryOperator::ShiftRight => 8,
        BinaryOperator::Less
        | BinaryOperator::LessOrEqual
        | BinaryOperator::Greater
        | BinaryOperator::GreaterOrEqual => 7,
        BinaryOperator::Equal
        | BinaryOperator::Unequal
        | BinaryOperator::CaseEqual
        | BinaryOperator::CaseUnequal => 6,
        BinaryOperator::And => 5,
        BinaryOperator::Xor | BinaryOperator::Xnor => 4,
        BinaryOperator::Or => 3,
        BinaryOperator::LogicalAnd => 2,
        BinaryOperator::LogicalOr => 1,
    }
}

/// An operator of one operand (5.1).
#[derive(Clone, Copy)]
pub enum UnaryOperator {
    Plus,
    Minus,
    LogicalNegation,
    Negation,
    ReductionAnd,
    ReductionNand,
    ReductionOr,
    ReductionNor,
    ReductionXor,
    ReductionXnor,
}

/// An operator of two operands (5.1).
#[derive(Clone, Copy)]
pub enum BinaryOperator {
    Multiply,
    Add,
    Subtract,
    ShiftLeft,
    ShiftRight,
    Less,
    LessOrEqual,
    Greater,
    GreaterOrEqual,
    Equal,
    Unequal,
    CaseEqual,
    CaseUnequal,
    And,
    Xor,
    Xnor,
    Or,
    LogicalAnd,
    LogicalOr,
}

//! The operators.
/// The operators of one operand.
#[derive(Clone, Copy, Debug, PartialEq, Eq)]
pub enum Unary {
    Minus,
    Plus,
    /// `~`
    Complement,
    /// `!`
    Not,
}

/// The operators of two operands that use both of them.
#[derive(Clone, Copy, Debug, PartialEq, Eq)]
pub enum Binary {
    Multiply,
    Divide,
    Remainder,
    Add,
    Subtract,
    ShiftLeft,
    ShiftRight,
    Less,
    Greater,
    AtMost,
    AtLeast,
    Equal,
    NotEqual,
    /// `eq`
    SameText,
    /// `ne`
    OtherText,
    BitAnd,
    BitXor,
    BitOr,
}

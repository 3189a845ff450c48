// Why there is no value.

use std::alloc::AllocError;

/// Why an expression, a statement or a text with names has no value.
#[derive(Clone, Copy, Debug, PartialEq, Eq)]
pub enum ValueFault {
    /// The text is no expression.
    NotExpression,
    /// No variable of this name is declared.
    UnknownName,
    /// The variable is declared, and nothing was assigned to it since.
    NotAssigned,
    /// The variable has letters, or a text is compared as a number.
    NotNumber,
    /// The text is no literal, and no variable that has letters.
    NotLetters,
    /// The function is not one of those known.
    UnknownFunction,
    /// A division by zero.
    DivisionByZero,
    /// An exponent of `**` is not whole, or past 64.
    BadExponent,
    /// A root of a number below zero.
    NegativeRoot,
    /// A numerator or a denominator is past the bound, what a function is of past its limit, or a text longer than its variable.
    PastBound,
    /// More operations are within one another, or names in one text, than the limit.
    TooDeep,
    /// A value in a text is not whole.
    NotWhole,
    /// Out of memory.
    Memory,
}

impl From<AllocError> for ValueFault {
    ghost use Rattle.std.specs.Prelude.{◌≡◌};
    ghost use Rattle.program_flow.specs.declared.faults.ValueFault.TheVariants.{Memory};

    ghost from_gives = { λ _ e. e ≡ Memory };

    fn from(_: AllocError) -> ValueFault {
        ValueFault::Memory
    }
}

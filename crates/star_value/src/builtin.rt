//! The built-in functions.

/// One variant for each built-in function, in the order in which a snapshot numbers them from 0.
#[derive(Clone, Copy, Debug, PartialEq, Eq)]
pub enum Builtin {
    Abs,
    All,
    Any,
    Bool,
    Dict,
    Enumerate,
    Int,
    Len,
    List,
    Max,
    Min,
    Print,
    Range,
    Repr,
    Reversed,
    Sorted,
    Str,
    Tuple,
    Type,
    Zip,
}

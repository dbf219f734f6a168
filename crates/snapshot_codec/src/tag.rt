//! What a value is, by its first byte.

/// What the first byte of a value says that it is.
#[derive(Clone, Copy, Debug, PartialEq, Eq)]
pub enum Tag {
    None,
    False,
    True,
    Int,
    Text,
    Tuple,
    Range,
    List,
    Dict,
    Function,
    Builtin,
}

//! Why a cell fails.

/// The ways in which a cell can fail while it runs. A failure is no refusal of the program: it is
/// printed with its place, and ends its version only.
#[derive(Clone, Copy, Debug, PartialEq, Eq)]
pub enum Failure {
    NoMethod,
    WrongArguments,
    WrongType,
    Unhashable,
    ChangedWhileIterated,
    Unbound,
    NoInput,
    Recursion,
    TooManyCalls,
    BadUnpack,
    BadIndex,
    NoKey,
    NoElement,
    RepeatedKey,
    ZeroDivisor,
    IntegerTooLarge,
    BadText,
    TooDeep,
    StepLimit,
}

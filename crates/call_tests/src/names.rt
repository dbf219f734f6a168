//! Names that stand for values.

use star_value::Builtin;

/// The built-in functions by name.
const BUILTINS: [(&str, Builtin); 20] = [
    ("abs", Builtin::Abs),
    ("all", Builtin::All),
    ("any", Builtin::Any),
    ("bool", Builtin::Bool),
    ("dict", Builtin::Dict),
    ("enumerate", Builtin::Enumerate),
    ("int", Builtin::Int),
    ("len", Builtin::Len),
    ("list", Builtin::List),
    ("max", Builtin::Max),
    ("min", Builtin::Min),
    ("print", Builtin::Print),
    ("range", Builtin::Range),
    ("repr", Builtin::Repr),
    ("reversed", Builtin::Reversed),
    ("sorted", Builtin::Sorted),
    ("str", Builtin::Str),
    ("tuple", Builtin::Tuple),
    ("type", Builtin::Type),
    ("zip", Builtin::Zip),
];

/// The built-in function of a name.
pub fn builtin_of(name: &str) -> Option<Builtin> {
    for (word, which) in BUILTINS {
        if word == name {
            return Some(which);
        }
    }
    None
}

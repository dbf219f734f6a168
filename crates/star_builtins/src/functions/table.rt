//! The built-in functions by the arguments that they take.
ghost use Rattle.std.specs.Prelude.{◌≡◌, ℕ, List};
ghost use Rattle.star_builtins.specs.Table as tables;
ghost use Rattle.star_meaning.specs.Builtins as spec;
ghost use Rattle.star_meaning.specs.Showing.{Naming};
ghost use Rattle.star_value.specs.declared.value.Value.{Value};

use star_value::Builtin;

/// What a built-in function is: `print`, which writes, or one that writes nothing.
#[derive(Clone, Copy)]
pub enum Row {
    Print,
    Silent(Silent),
}

/// A function that writes nothing: `sorted`, which takes an argument by name, or one of those that
/// take arguments by place alone.
#[derive(Clone, Copy)]
pub enum Silent {
    Sorted,
    OfOne(OfOne),
    OfOptional(OfOptional),
    OfMany(OfMany),
}

/// A function of one argument.
#[derive(Clone, Copy)]
pub enum OfOne {
    Abs,
    All,
    Any,
    Bool,
    Int,
    Len,
    Repr,
    Reversed,
    Str,
    Type,
}

/// A function of one argument or none.
#[derive(Clone, Copy)]
pub enum OfOptional {
    Dict,
    List,
    Tuple,
}

/// A function of several arguments.
#[derive(Clone, Copy)]
pub enum OfMany {
    Enumerate,
    Max,
    Min,
    Range,
    Zip,
}

/// What a built-in function is.
#[tactic(auto, unfolding(star_meaning::specs::Builtins::call_builtin, crate::specs::Table::row, crate::specs::Table::silent_row, crate::specs::Table::one_row, crate::specs::Table::optional_row, crate::specs::Table::many_row))]
pub fn row_of(which: Builtin) -> Row
    ensures { (naming : Naming ℕ) (vs : List Value) (named : spec.ByName) → spec.call_builtin naming which vs named ≡ tables.row naming result vs named }
{
    match which {
        Builtin::Print => Row::Print,
        Builtin::Sorted => Row::Silent(Silent::Sorted),
        Builtin::Abs => Row::Silent(Silent::OfOne(OfOne::Abs)),
        Builtin::All => Row::Silent(Silent::OfOne(OfOne::All)),
        Builtin::Any => Row::Silent(Silent::OfOne(OfOne::Any)),
        Builtin::Bool => Row::Silent(Silent::OfOne(OfOne::Bool)),
        Builtin::Int => Row::Silent(Silent::OfOne(OfOne::Int)),
        Builtin::Len => Row::Silent(Silent::OfOne(OfOne::Len)),
        Builtin::Repr => Row::Silent(Silent::OfOne(OfOne::Repr)),
        Builtin::Reversed => Row::Silent(Silent::OfOne(OfOne::Reversed)),
        Builtin::Str => Row::Silent(Silent::OfOne(OfOne::Str)),
        Builtin::Type => Row::Silent(Silent::OfOne(OfOne::Type)),
        Builtin::Dict => Row::Silent(Silent::OfOptional(OfOptional::Dict)),
        Builtin::List => Row::Silent(Silent::OfOptional(OfOptional::List)),
        Builtin::Tuple => Row::Silent(Silent::OfOptional(OfOptional::Tuple)),
        Builtin::Enumerate => Row::Silent(Silent::OfMany(OfMany::Enumerate)),
        Builtin::Max => Row::Silent(Silent::OfMany(OfMany::Max)),
        Builtin::Min => Row::Silent(Silent::OfMany(OfMany::Min)),
        Builtin::Range => Row::Silent(Silent::OfMany(OfMany::Range)),
        Builtin::Zip => Row::Silent(Silent::OfMany(OfMany::Zip)),
    }
}

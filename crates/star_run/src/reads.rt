//! What `input(TEXT)` is.
ghost use Rattle.std.specs.Prelude.{◌≡◌};
ghost use Rattle.std.specs.Option.{option_copied};
ghost use Rattle.star_syntax.specs.Placement as rules;
ghost use Rattle.star_run.specs.Reads as spec;

use chex_base::Text;
use star_syntax::{Arguments, Expr, Suffix};

/// Whether a tree is the name `input` alone.
#[tactic(auto, using(crate::proofs::SeenLemmas::looks), unfolding(star_syntax::specs::Placement::is_input))]
fn names_input(tree: &Expr) -> bool
    ensures { result ≡ spec.names_input tree.now }
{
    match tree {
        Expr::Name(name) => name.as_str() == "input",
        Expr::Int(_)
        | Expr::Text(_)
        | Expr::None
        | Expr::True
        | Expr::False
        | Expr::Paren(_)
        | Expr::Tuple(_, _)
        | Expr::List(_, _)
        | Expr::ListOver(_, _)
        | Expr::Dict(_, _)
        | Expr::DictOver(_, _, _)
        | Expr::Primary(_, _)
        | Expr::Signed(_, _)
        | Expr::Chain(_, _, _)
        | Expr::Compare(_, _, _)
        | Expr::Not(_, _)
        | Expr::Conditional(_, _) => false,
    }
}

/// The text literal that a tree is.
#[tactic(auto, using(crate::proofs::SeenLemmas::looks))]
fn literal(tree: &Expr) -> Option<&Text>
    ensures { option_copied result ≡ spec.literal tree.now }
{
    match tree {
        Expr::Text(text) => Some(text),
        Expr::Name(_)
        | Expr::Int(_)
        | Expr::None
        | Expr::True
        | Expr::False
        | Expr::Paren(_)
        | Expr::Tuple(_, _)
        | Expr::List(_, _)
        | Expr::ListOver(_, _)
        | Expr::Dict(_, _)
        | Expr::DictOver(_, _, _)
        | Expr::Primary(_, _)
        | Expr::Signed(_, _)
        | Expr::Chain(_, _, _)
        | Expr::Compare(_, _, _)
        | Expr::Not(_, _)
        | Expr::Conditional(_, _) => None,
    }
}

/// The literal of arguments that are one text literal, with nothing beside it.
fn lone_literal(given: &Arguments<Expr>) -> Option<&Text>
    ensures { option_copied result ≡ rules.lone_literal spec.literal given.now.positional given.now.named given.now.comma }
{
    let [only] = given.positional.as_slice() else {
        return None;
    };
    let [] = given.named.as_slice() else {
        return None;
    };
    if given.comma {
        return None;
    }
    literal(only)
}

/// The name that `input(TEXT)` reads, where an operand and its first suffix are that.
pub fn name_read<'a>(head: &Expr, suffixes: &'a [Suffix<Expr>]) -> Option<&'a Text>
    ensures { option_copied result ≡ spec.name_read head.now suffixes.now }
{
    if !names_input(head) {
        return None;
    }
    let [first, ..] = suffixes else {
        return None;
    };
    match first {
        Suffix::Call(given) => lone_literal(given),
        Suffix::Index(_) | Suffix::Slice(_, _, _) | Suffix::Method(_, _) => None,
    }
}

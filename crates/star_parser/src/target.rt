//! Which expressions may stand as targets.
ghost use Rattle.std.specs.Prelude.{◌≡◌, map, None, IfOk, IfErr};
ghost use Rattle.star_syntax.specs.Levels as levels;
ghost use Rattle.star_syntax.specs.declared.expression.Expr.TheVariants as variant;
ghost use Rattle.star_parser.specs.Readers as spec;

use chex_base::Text;
use star_syntax::{Expr, Suffix};

/// Whether the last suffix is an index.
fn ends_in_index(suffixes: &[Suffix<Expr>]) -> bool
    ensures { result ≡ levels.ends_in_index suffixes.now }
{
    matches!(suffixes.last(), Some(Suffix::Index(_)))
}

/// Whether the expression is a name, or what an index ends; that alone is stored in by an augmented
/// assignment.
#[tactic(auto, using(crate::proofs::Targets::places))]
pub fn is_place(tree: &Expr) -> bool
    ensures { result ≡ levels.is_place tree.now }
{
    match tree {
        Expr::Name(_) => true,
        Expr::Primary(_, suffixes) => ends_in_index(suffixes.as_slice()),
        Expr::Int(_)
        | Expr::Text(_)
        | Expr::None
        | Expr::True
        | Expr::False
        | Expr::Paren(_)
        | Expr::Tuple(_, _)
        | Expr::List(_, _)
        | Expr::ListOver(_, _)
        | Expr::Dict(_, _)
        | Expr::DictOver(_, _, _)
        | Expr::Signed(_, _)
        | Expr::Chain(_, _, _)
        | Expr::Compare(_, _, _)
        | Expr::Not(_, _)
        | Expr::Conditional(_, _) => false,
    }
}

/// Whether the expression is a place, or targets in round or square brackets.
#[cycle(target)]
#[tactic(auto, using(crate::proofs::Targets::targets))]
pub fn is_target(tree: &Expr) -> bool
    ensures { result ≡ levels.is_target tree.now }
{
    match tree {
        Expr::Name(_) => true,
        Expr::Paren(inner) => is_target(inner.get()),
        Expr::Tuple(items, _) | Expr::List(items, _) => {
            !items.is_empty() && are_targets(items.as_slice())
        }
        Expr::Primary(_, suffixes) => ends_in_index(suffixes.as_slice()),
        Expr::Int(_)
        | Expr::Text(_)
        | Expr::None
        | Expr::True
        | Expr::False
        | Expr::ListOver(_, _)
        | Expr::Dict(_, _)
        | Expr::DictOver(_, _, _)
        | Expr::Signed(_, _)
        | Expr::Chain(_, _, _)
        | Expr::Compare(_, _, _)
        | Expr::Not(_, _)
        | Expr::Conditional(_, _) => false,
    }
}

/// Whether each is a target.
#[cycle(target)]
pub fn are_targets(trees: &[Expr]) -> bool
    ensures { result ≡ levels.both (map levels.is_target trees.now) }
{
    for tree in trees {
        if !is_target(tree) {
            return false;
        }
    }
    true
}

/// The name that the expression is, or else the expression.
#[tactic(auto, using(crate::proofs::Targets::names))]
pub fn name_or_self(tree: Expr) -> Result<Text, Expr>
    ensures name { IfOk result (λ name. tree ≡ variant.Name name) }
    ensures other { IfErr result (λ x. (x ≡ tree) × (spec.name_of tree ≡ None)) }
{
    match tree {
        Expr::Name(name) => Ok(name),
        Expr::Int(_)
        | Expr::Text(_)
        | Expr::None
        | Expr::True
        | Expr::False
        | Expr::Paren(_)
        | Expr::Tuple(_, _)
        | Expr::List(_, _)
        | Expr::ListOver(_, _)
        | Expr::Dict(_, _)
        | Expr::DictOver(_, _, _)
        | Expr::Primary(_, _)
        | Expr::Signed(_, _)
        | Expr::Chain(_, _, _)
        | Expr::Compare(_, _, _)
        | Expr::Not(_, _)
        | Expr::Conditional(_, _) => Err(tree),
    }
}

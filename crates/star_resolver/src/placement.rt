//! The cell of a tree that breaks no rule.
ghost use Rattle.std.specs.Prelude.{◌≡◌, IfOk, OnOk, IfErr};
ghost use Rattle.star_syntax.specs.Placement.{IsPlaced, AreInputNames};
ghost use Rattle.star_resolver.specs.Resolved.{IsFirstBreach};

use crate::error::ResolveFault;
use crate::place::Place;
use crate::statement::statements;
use crate::texts::Texts;
use chex_base::Text;
use star_syntax::{Cell, Module};
use std::alloc::Global;

/// The cell of a source and its tree, with the names of its `input` literals, where the tree breaks
/// no rule of placement; else the first breach in text order. Both arguments are dropped where
/// there is no cell. The rules stand in docs/LANGUAGE.md; the time is linear in the tree but for the
/// look-ups of names, which grow with the logarithm of their count.
pub fn resolve(alloc: Global, source: Text, module: Module) -> Result<Cell, ResolveFault>
    ensures cell { IfOk result (λ cell. cell ≡ record { source = source; «module» = «module»; inputs = cell.inputs }) }
    ensures placed { OnOk result (IsPlaced «module») }
    ensures names { IfOk result (λ cell. AreInputNames «module» cell.inputs) }
    ensures breach { IfErr result (IsFirstBreach «module») }
{
    let mut found = Texts::new(alloc);
    statements(
        alloc,
        Place::cell(),
        &mut found,
        module.statements.as_slice(),
    )?;
    Ok(Cell::new(source, module, found.into_names(alloc)?))
}

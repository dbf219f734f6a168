//! The headers of functions.
ghost use Rattle.star_syntax.specs.Placement.{parameters};
ghost use Rattle.star_resolver.specs.Outcomes.{Gives};
ghost use Rattle.star_resolver.specs.Scans as spec;

use crate::error::{ResolveFault, ResolveKind};
use crate::expression::{expr, is_input};
use crate::texts::Texts;
use chex_base::Text;
use star_syntax::Def;
use std::alloc::Global;

/// Adds the names that the defaults of a function's parameters read. The name of the function and
/// those of its parameters are not `input`, and no parameter has the name of one before it.
pub fn header(alloc: Global, line: u32, found: &mut Texts, def: &Def) -> Result<(), ResolveFault>
    ensures { Gives (spec.scan_header line def.now.name (parameters def.now.required def.now.defaults) found.old) result found.new }
{
    if is_input(&def.name) {
        return Err(ResolveKind::InputNotLiteral.at(line));
    }
    let mut before = Texts::new(alloc);
    for name in def.required.as_slice() {
        parameter(alloc, line, &mut before, name)?;
    }
    for named in def.defaults.as_slice() {
        parameter(alloc, line, &mut before, &named.name)?;
        expr(alloc, line, found, &named.value)?;
    }
    Ok(())
}

/// Adds the name of a parameter to those before it.
fn parameter(alloc: Global, line: u32, before: &mut Texts, name: &Text) -> Result<(), ResolveFault>
    ensures { Gives (spec.parameter line name.now before.old) result before.new }
{
    if is_input(name) {
        return Err(ResolveKind::InputNotLiteral.at(line));
    }
    if before.contains(name) {
        return Err(ResolveKind::RepeatedParameter.at(line));
    }
    before.insert(name.copy(alloc)?)?;
    Ok(())
}

//! The line before a version's output.
ghost use Rattle.std.specs.Prelude.{◌≡◌, IfOk};
ghost use Rattle.chex_report.specs.Headers.{header_of};

use chex_base::{NoMemory, Text};
use std::alloc::Global;

/// The line `== NAME ==` of a version's name, with a newline at its end.
pub fn header(alloc: Global, name: &Text) -> Result<Text, NoMemory>
    ensures { IfOk result (λ text. text ≡ header_of name.now) }
{
    let mut text = Text::from_str(alloc, "== ")?;
    text.push_text(name)?;
    text.push_str(" ==\n")?;
    Ok(text)
}

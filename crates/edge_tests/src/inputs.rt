//! Inputs and their copies, and the lines before the outputs of versions.

use crate::fault::Fault;
use chex_base::{Input, InputItem, InputList, Inputs, Text};
use chex_report::header;
use std::alloc::Global;

/// A list of an item of each kind.
fn each_kind(alloc: Global) -> Result<InputList, Fault> {
    let mut items = InputList::new(alloc);
    items.add(InputItem::None)?;
    items.add(InputItem::Bool(true))?;
    items.add(InputItem::Int(-7))?;
    let text = Text::from_str(alloc, "x")?;
    items.add(InputItem::Text(text))?;
    Ok(items)
}

/// Inputs of which one was set twice.
fn some(alloc: Global) -> Result<Inputs, Fault> {
    let mut inputs = Inputs::new(alloc);
    let items = each_kind(alloc)?;
    inputs.set(Text::from_str(alloc, "list")?, Input::List(items))?;
    for (name, value) in [("b", 1), ("a", 2), ("é", 3), ("a", 4)] {
        inputs.set(Text::from_str(alloc, name)?, Input::Int(value))?;
    }
    Ok(inputs)
}

/// The value of a name in a copy of those inputs.
pub fn copied(alloc: Global, name: &str) -> Result<String, Fault> {
    let inputs = some(alloc)?;
    let copy = inputs.copy(alloc)?;
    let name = Text::from_str(alloc, name)?;
    Ok(format!(in alloc; "{:?}", copy.get(&name))?)
}

/// The line before the outputs of the version of a name.
pub fn line(alloc: Global, name: &str) -> Result<String, Fault> {
    let name = Text::from_str(alloc, name)?;
    let text = header(alloc, &name)?;
    Ok(String::from_str(alloc, text.as_str())?)
}

//! The value of one input.
ghost use Rattle.std.specs.Prelude.{◌≡◌, ◌∷◌, ◌++◌, [], IfOk, OnErr, OnOk};

use crate::{NoMemory, Text};
use std::alloc::Global;
use std::marker::Model;

/// A value that an input may have.
#[derive(Debug, Drop)]
pub enum Input {
    /// No value, `null` in a file.
    None,
    Bool(bool),
    Int(i128),
    Text(Text),
    /// A list, in which no list stands.
    List(InputList),
}

/// A value that may stand in an input's list.
#[derive(Debug, Drop)]
pub enum InputItem {
    /// No value, `null` in a file.
    None,
    Bool(bool),
    Int(i128),
    Text(Text),
}

/// The items of an input's list, in order, which contracts see as a list.
#[derive(Debug, Drop)]
pub struct InputList {
    items: Vec<InputItem>,
}

impl Model for InputList {
    ghost use Rattle.std.specs.Prelude.{List};
    ghost use Rattle.chex_base.specs.declared.input.InputItem.{InputItem};

    ghost Value = { List InputItem };

    ghost view = { λ l. l.items.items };
}

impl InputList {
    /// The empty list, which takes no memory.
    pub fn new(alloc: Global) -> InputList
        ensures { result ≡ [] }
    {
        InputList {
            items: Vec::new(alloc),
        }
    }

    /// The list of these items. It takes no memory.
    pub fn from_vec(items: Vec<InputItem>) -> InputList
        ensures { result ≡ items.items }
    {
        InputList { items }
    }

    /// The items again. It takes no memory.
    pub fn into_vec(self) -> Vec<InputItem>
        ensures { result.items ≡ self }
    {
        self.items
    }

    /// Adds an item at the end. A refused one is dropped, and the list stays as it was.
    pub fn add(&mut self, item: InputItem) -> Result<(), NoMemory>
        ensures ok { OnOk result (self.new ≡ self.old ++ item ∷ []) }
        ensures err { OnErr result (self.new ≡ self.old) }
    {
        self.items.push(item)?;
        Ok(())
    }

    /// The items, in order. It takes no memory.
    pub fn as_slice(&self) -> &[InputItem]
        ensures { result.now ≡ self.now }
    {
        self.items.as_slice()
    }

    /// An equal list.
    pub fn copy(&self, alloc: Global) -> Result<InputList, NoMemory>
        ensures { IfOk result (λ copy. copy ≡ self.now) }
    {
        let mut copy = InputList::new(alloc);
        for item in self.as_slice() {
            copy.add(item.copy(alloc)?)?;
        }
        Ok(copy)
    }
}

impl InputItem {
    /// An equal item.
    pub fn copy(&self, alloc: Global) -> Result<InputItem, NoMemory>
        ensures { IfOk result (λ copy. copy ≡ self.now) }
    {
        match self {
            InputItem::None => Ok(InputItem::None),
            InputItem::Bool(truth) => Ok(InputItem::Bool(*truth)),
            InputItem::Int(value) => Ok(InputItem::Int(*value)),
            InputItem::Text(text) => Ok(InputItem::Text(text.copy(alloc)?)),
        }
    }
}

impl Input {
    /// An equal value.
    pub fn copy(&self, alloc: Global) -> Result<Input, NoMemory>
        ensures { IfOk result (λ copy. copy ≡ self.now) }
    {
        match self {
            Input::None => Ok(Input::None),
            Input::Bool(truth) => Ok(Input::Bool(*truth)),
            Input::Int(value) => Ok(Input::Int(*value)),
            Input::Text(text) => Ok(Input::Text(text.copy(alloc)?)),
            Input::List(items) => Ok(Input::List(items.copy(alloc)?)),
        }
    }
}

//! Adds the bytes of a cell's key to a list of bytes. What was added is of no use where memory was
//! wanting.
ghost use Rattle.std.specs.Prelude.{◌≡◌, ◌++◌, map, OnOk};
ghost use Rattle.std.specs.Int.{to_be_bytes, w128};
ghost use Rattle.std.specs.Option.{option_copied};
ghost use Rattle.exec_tree.specs.Keys.{key_of, named};
ghost use Rattle.audit_record.specs.Digests.{count_bytes, counted, input_bytes, integer_bytes, item_bytes, key_bytes, named_bytes, text_bytes, value_bytes};

use chex_base::{Input, InputItem, Inputs, NoMemory, Text};
use star_syntax::Cell;

/// Adds the bytes of the key that a cell has under these inputs.
#[tactic(auto, unfolding(crate::specs::Digests::key_bytes))]
pub fn put_key(out: &mut Vec<u8>, cell: &Cell, inputs: &Inputs) -> Result<(), NoMemory>
    ensures { OnOk result (out.new.items ≡ out.old.items ++ key_bytes (key_of inputs.now cell.now)) }
{
    put_text(out, cell.source())?;
    put_names(out, cell.inputs().as_slice(), inputs)?;
    Ok(())
}

/// Adds the count of names, and each name with its value or absence.
fn put_names(out: &mut Vec<u8>, names: &[Text], inputs: &Inputs) -> Result<(), NoMemory>
    ensures { OnOk result (out.new.items ≡ out.old.items ++ counted named_bytes (map (named inputs.now) names.now)) }
{
    put_count(out, names.len())?;
    for name in names {
        put_named(out, name, inputs)?;
    }
    Ok(())
}

/// Adds a name with its value or absence.
fn put_named(out: &mut Vec<u8>, name: &Text, inputs: &Inputs) -> Result<(), NoMemory>
    ensures { OnOk result (out.new.items ≡ out.old.items ++ named_bytes (named inputs.now name.now)) }
{
    put_text(out, name)?;
    put_value(out, inputs.get(name))?;
    Ok(())
}

/// Adds the bytes of a value, or those of its absence.
fn put_value(out: &mut Vec<u8>, value: Option<&Input>) -> Result<(), NoMemory>
    ensures { OnOk result (out.new.items ≡ out.old.items ++ value_bytes (option_copied value.entry)) }
{
    match value {
        None => {
            out.push(11)?;
            Ok(())
        }
        Some(value) => put_input(out, value),
    }
}

fn put_input(out: &mut Vec<u8>, input: &Input) -> Result<(), NoMemory>
    ensures { OnOk result (out.new.items ≡ out.old.items ++ input_bytes input.now) }
{
    match input {
        Input::None => {
            out.push(0)?;
            Ok(())
        }
        Input::Bool(false) => {
            out.push(1)?;
            Ok(())
        }
        Input::Bool(true) => {
            out.push(2)?;
            Ok(())
        }
        Input::Int(number) => {
            out.push(3)?;
            put_integer(out, number)?;
            Ok(())
        }
        Input::Text(text) => {
            out.push(4)?;
            put_text(out, text)?;
            Ok(())
        }
        Input::List(items) => {
            out.push(12)?;
            put_items(out, items.as_slice())?;
            Ok(())
        }
    }
}

/// Adds the count of items and the bytes of each.
fn put_items(out: &mut Vec<u8>, items: &[InputItem]) -> Result<(), NoMemory>
    ensures { OnOk result (out.new.items ≡ out.old.items ++ counted item_bytes items.now) }
{
    put_count(out, items.len())?;
    for item in items {
        put_item(out, item)?;
    }
    Ok(())
}

fn put_item(out: &mut Vec<u8>, item: &InputItem) -> Result<(), NoMemory>
    ensures { OnOk result (out.new.items ≡ out.old.items ++ item_bytes item.now) }
{
    match item {
        InputItem::None => {
            out.push(0)?;
            Ok(())
        }
        InputItem::Bool(false) => {
            out.push(1)?;
            Ok(())
        }
        InputItem::Bool(true) => {
            out.push(2)?;
            Ok(())
        }
        InputItem::Int(number) => {
            out.push(3)?;
            put_integer(out, number)?;
            Ok(())
        }
        InputItem::Text(text) => {
            out.push(4)?;
            put_text(out, text)?;
            Ok(())
        }
    }
}

fn put_count(out: &mut Vec<u8>, count: usize) -> Result<(), NoMemory>
    ensures { OnOk result (out.new.items ≡ out.old.items ++ count_bytes count) }
{
    out.extend_from_slice(&(count as u64).to_be_bytes())?;
    Ok(())
}

fn put_integer(out: &mut Vec<u8>, number: &i128) -> Result<(), NoMemory>
    ensures { OnOk result (out.new.items ≡ out.old.items ++ integer_bytes number.now) }
{
    put_bits(out, number.cast_unsigned())?;
    Ok(())
}

fn put_bits(out: &mut Vec<u8>, bits: u128) -> Result<(), NoMemory>
    ensures { OnOk result (out.new.items ≡ out.old.items ++ to_be_bytes w128 bits) }
{
    out.extend_from_slice(&bits.to_be_bytes())?;
    Ok(())
}

fn put_text(out: &mut Vec<u8>, text: &Text) -> Result<(), NoMemory>
    ensures { OnOk result (out.new.items ≡ out.old.items ++ text_bytes text.now) }
{
    let bytes = text.as_str().as_bytes();
    put_count(out, bytes.len())?;
    out.extend_from_slice(bytes)?;
    Ok(())
}

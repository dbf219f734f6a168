//! The fields of a record, taken out of JSON.
ghost use Rattle.std.specs.Prelude.{◌≡◌, option_map};
ghost use Rattle.std.specs.Char.{is_ascii_uppercase};
ghost use Rattle.std.specs.List.{list_any};
ghost use Rattle.serde_json.specs.View.{items_view, view};
ghost use Rattle.audit_record.specs.Reading.{digest_at, digest_of, end_of, items_at, number_at, text_at};

use hex::FromHex;
use plan_type::Reach;
use serde_json::Value;

/// The integer from 0 on that an object has under a name, if it is one that fits 64 bits.
pub fn number_at(value: &Value, name: &str) -> Option<u64>
    ensures { result ≡ number_at name.now (view value.now) }
{
    value.get(name).and_then(Value::as_u64)
}

/// The text that an object has under a name.
pub fn text_at<'a>(value: &'a Value, name: &str) -> Option<&'a str>
    ensures { option_map (λ text. text.now) result ≡ text_at name.now (view value.now) }
{
    value.get(name).and_then(Value::as_str)
}

/// The list that an object has under a name.
pub fn items_at<'a>(value: &'a Value, name: &str) -> Option<&'a [Value]>
    ensures { option_map (λ items. items_view items.now) result ≡ items_at name.now (view value.now) }
{
    match value.get(name).and_then(Value::as_array) {
        Some(items) => Some(items.as_slice()),
        None => None,
    }
}

/// The digest that an object has under a name, written as 64 lower-case hexadecimal digits.
pub fn digest_at(value: &Value, name: &str) -> Option<[u8; 32]>
    ensures { result ≡ digest_at name.now (view value.now) }
{
    digest_of(text_at(value, name)?)
}

fn digest_of(digits: &str) -> Option<[u8; 32]>
    ensures { result ≡ digest_of digits.now }
{
    if has_capital(digits.as_bytes()) {
        return None;
    }
    <[u8; 32] as FromHex>::from_hex(digits).ok()
}

/// Whether an upper-case letter stands among the bytes.
fn has_capital(bytes: &[u8]) -> bool
    ensures { result ≡ list_any is_ascii_uppercase bytes.now }
{
    bytes.iter().any(|byte| is_capital(*byte))
}

fn is_capital(byte: u8) -> bool
    ensures { result ≡ is_ascii_uppercase byte }
{
    byte.is_ascii_uppercase()
}

/// The end that is written so.
pub fn end_of(text: &str) -> Option<Reach>
    ensures { result ≡ end_of text.now }
{
    match text {
        "done" => Some(Reach::Done),
        "failed" => Some(Reach::Failed),
        "unreached" => Some(Reach::Unreached),
        _ => None,
    }
}

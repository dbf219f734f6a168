//! The names of the methods. A name that a kind of value lacks is none of its methods.
ghost use Rattle.std.specs.Prelude.{◌≡◌, option_map};
ghost use Rattle.star_builtins.specs.MethodNames as names;
ghost use Rattle.star_meaning.specs.Methods as spec;
ghost use Rattle.star_meaning.specs.Values.{named_in};

use chex_base::Text;

/// The methods of lists.
#[derive(Clone, Copy)]
pub enum ListMethod {
    Append,
    Clear,
    Extend,
    Insert,
    Pop,
    Remove,
    Index,
}

/// The methods of dicts.
#[derive(Clone, Copy)]
pub enum DictMethod {
    Get,
    Pop,
    SetDefault,
    Keys,
    Values,
    Items,
    Update,
    Clear,
}

/// The methods of texts.
#[derive(Clone, Copy)]
pub enum TextMethod {
    Find,
    Split,
    Join,
    Replace,
    Strip,
    /// `lstrip`.
    LeftStrip,
    /// `rstrip`.
    RightStrip,
    StartsWith,
    EndsWith,
}

/// The method of lists that has this name.
#[tactic(auto, using(crate::proofs::NameLemmas::named))]
pub fn list_method(name: &Text) -> Option<ListMethod>
    ensures { option_map names.list_method result ≡ named_in spec.list_methods name.now }
{
    list_named(name.as_str())
}

fn list_named(name: &str) -> Option<ListMethod>
    ensures { result ≡ names.list_named name.now }
{
    if name == "append" {
        Some(ListMethod::Append)
    } else if name == "clear" {
        Some(ListMethod::Clear)
    } else if name == "extend" {
        Some(ListMethod::Extend)
    } else if name == "insert" {
        Some(ListMethod::Insert)
    } else if name == "pop" {
        Some(ListMethod::Pop)
    } else if name == "remove" {
        Some(ListMethod::Remove)
    } else if name == "index" {
        Some(ListMethod::Index)
    } else {
        None
    }
}

/// The method of dicts that has this name.
#[tactic(auto, using(crate::proofs::NameLemmas::named))]
pub fn dict_method(name: &Text) -> Option<DictMethod>
    ensures { option_map names.dict_method result ≡ named_in spec.dict_methods name.now }
{
    dict_named(name.as_str())
}

fn dict_named(name: &str) -> Option<DictMethod>
    ensures { result ≡ names.dict_named name.now }
{
    if name == "get" {
        Some(DictMethod::Get)
    } else if name == "pop" {
        Some(DictMethod::Pop)
    } else if name == "setdefault" {
        Some(DictMethod::SetDefault)
    } else if name == "keys" {
        Some(DictMethod::Keys)
    } else if name == "values" {
        Some(DictMethod::Values)
    } else if name == "items" {
        Some(DictMethod::Items)
    } else if name == "update" {
        Some(DictMethod::Update)
    } else if name == "clear" {
        Some(DictMethod::Clear)
    } else {
        None
    }
}

/// The method of texts that has this name.
#[tactic(auto, using(crate::proofs::NameLemmas::named))]
pub fn text_method(name: &Text) -> Option<TextMethod>
    ensures { option_map names.text_method result ≡ named_in spec.text_methods name.now }
{
    text_named(name.as_str())
}

fn text_named(name: &str) -> Option<TextMethod>
    ensures { result ≡ names.text_named name.now }
{
    if name == "find" {
        Some(TextMethod::Find)
    } else if name == "split" {
        Some(TextMethod::Split)
    } else if name == "join" {
        Some(TextMethod::Join)
    } else if name == "replace" {
        Some(TextMethod::Replace)
    } else if name == "strip" {
        Some(TextMethod::Strip)
    } else if name == "lstrip" {
        Some(TextMethod::LeftStrip)
    } else if name == "rstrip" {
        Some(TextMethod::RightStrip)
    } else if name == "startswith" {
        Some(TextMethod::StartsWith)
    } else if name == "endswith" {
        Some(TextMethod::EndsWith)
    } else {
        None
    }
}

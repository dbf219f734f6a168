//! What operators, built-in functions and methods do: each call is one definition of
//! `star_meaning` over the state of a machine and the steps that a meter has left, without the
//! first charge of 1 and the charge of the result's weight, which its caller makes.
#![tactic(auto)]

mod adding;
mod arguments;
mod arithmetic;
mod bounds;
mod call;
mod changes;
mod charges;
mod comparing;
mod dict_methods;
mod dict_walks;
mod dicts;
mod formatting;
mod functions;
mod indexing;
mod integers;
mod joining;
mod list_methods;
mod lists;
mod membership;
mod method_names;
mod methods;
mod operators;
mod order;
mod parts;
mod pieces;
mod places;
mod plain;
mod repeating;
mod showing;
mod signs;
mod slicing;
mod stores;
mod text_arguments;
mod text_methods;
mod texts;
mod truths;
mod tuples;
mod walks;
mod weighing;

pub use bounds::Bounds;
pub use call::{Call, NamedValues, Objects};
pub use charges::{charge_items, charge_weight};
pub use comparing::compare;
pub use dicts::new_dict;
pub use functions::call_builtin;
pub use indexing::index;
pub use lists::new_list;
pub use methods::call_method;
pub use operators::binary;
pub use showing::show;
pub use signs::unary;
pub use slicing::slice;
pub use stores::{augmented, extend, store, unpacked};
pub use truths::is_true;
pub use tuples::new_tuple;

//! Whether the numbers of a machine that was read name something of their kind.
ghost use Rattle.std.specs.Prelude.{◌≡◌, ◌==◌, Some, length, map, slice_get, is_some, option_map, IfOk};
ghost use Rattle.std.specs.List.{list_all, list_any};
ghost use Rattle.star_syntax.specs.Cells.{def_of, functions_of, numbered};
ghost use Rattle.star_meaning.specs.Validity as validity;
ghost use Rattle.snapshot_codec.specs.Contents.{object_of, state_of};
ghost use Rattle.snapshot_codec.specs.Defined.{counts_at, counts_in, has_count, has_function, is_defined_in, table, table_of, tables_of};
ghost use Rattle.snapshot_codec.specs.Reading.{refers};

use crate::content::Content;
use crate::parts::{NamedValue, Parts};
use chex_base::{NoMemory, NodeId, ObjectId};
use heap_store::Pairs;
use sqlite_items::at;
use star_syntax::{Cell, Program, Statement};
use star_value::Value;
use std::alloc::Global;

/// How many defaults each function of a node's cell has, by the function's number.
#[derive(Drop)]
pub struct Defined {
    pub node: NodeId,
    pub counts: Vec<usize>,
}

/// Whether each object that a value refers to is there, and of its kind.
#[cycle(fits)]
#[tactic(auto, using(crate::proofs::Fitting::fits_cases))]
fn fits(value: &Value, objects: &[Content]) -> bool
    ensures { result ≡ validity.fits (map object_of objects.now) value.now }
{
    match value {
        Value::None => true,
        Value::Bool(_) => true,
        Value::Int(_) => true,
        Value::Text(_) => true,
        Value::Tuple(items) => all_fit(items.as_slice(), objects),
        Value::Range(_) => true,
        Value::List(id) => is_list(objects, *id),
        Value::Dict(id) => is_dict(objects, *id),
        Value::Function(id) => is_function(objects, *id),
        Value::Builtin(_) => true,
    }
}

#[cycle(fits)]
fn all_fit(values: &[Value], objects: &[Content]) -> bool
    ensures { result ≡ list_all (validity.fits (map object_of objects.now)) values.now }
{
    for value in values {
        if !fits(value, objects) {
            return false;
        }
    }
    true
}

fn holds_list(content: &Content) -> bool
    ensures { result ≡ validity.is_list (Some (object_of content.now)) }
{
    match content {
        Content::List(_) => true,
        Content::Dict(_) => false,
        Content::Function(_, _, _) => false,
    }
}

fn holds_dict(content: &Content) -> bool
    ensures { result ≡ validity.is_dict (Some (object_of content.now)) }
{
    match content {
        Content::List(_) => false,
        Content::Dict(_) => true,
        Content::Function(_, _, _) => false,
    }
}

fn holds_function(content: &Content) -> bool
    ensures { result ≡ validity.is_function (Some (object_of content.now)) }
{
    match content {
        Content::List(_) => false,
        Content::Dict(_) => false,
        Content::Function(_, _, _) => true,
    }
}

fn place_of(id: ObjectId) -> usize
    ensures { result ≡ id }
{
    id.0 as usize
}

fn is_list(objects: &[Content], id: ObjectId) -> bool
    ensures { result ≡ validity.is_list (slice_get (map object_of objects.now) id) }
{
    let place = place_of(id);
    match at(objects, place) {
        Some(content) => holds_list(content),
        None => false,
    }
}

fn is_dict(objects: &[Content], id: ObjectId) -> bool
    ensures { result ≡ validity.is_dict (slice_get (map object_of objects.now) id) }
{
    let place = place_of(id);
    match at(objects, place) {
        Some(content) => holds_dict(content),
        None => false,
    }
}

fn is_function(objects: &[Content], id: ObjectId) -> bool
    ensures { result ≡ validity.is_function (slice_get (map object_of objects.now) id) }
{
    let place = place_of(id);
    match at(objects, place) {
        Some(content) => holds_function(content),
        None => false,
    }
}

/// Whether the values of a dict refer to objects that are there; its keys refer to none.
fn pairs_fit(pairs: &Pairs, objects: &[Content]) -> bool
    ensures { result ≡ list_all (validity.all_in_pair (validity.fits (map object_of objects.now))) pairs.now }
{
    for place in 0..pairs.len() {
        let (_, value) = pairs.at(place);
        if !fits(value, objects) {
            return false;
        }
    }
    true
}

fn object_fits(object: &Content, objects: &[Content]) -> bool
    ensures { result ≡ validity.all_in_object (validity.fits (map object_of objects.now)) (object_of object.now) }
{
    match object {
        Content::List(items) => all_fit(items.as_slice(), objects),
        Content::Dict(pairs) => pairs_fit(pairs, objects),
        Content::Function(_, _, defaults) => all_fit(defaults.as_slice(), objects),
    }
}

fn objects_fit(objects: &[Content], all: &[Content]) -> bool
    ensures { result ≡ list_all (validity.all_in_object (validity.fits (map object_of all.now))) (map object_of objects.now) }
{
    for object in objects {
        if !object_fits(object, all) {
            return false;
        }
    }
    true
}

fn globals_fit(globals: &[NamedValue], objects: &[Content]) -> bool
    ensures { result ≡ list_all (λ global. validity.fits (map object_of objects.now) global.1) globals.now }
{
    for global in globals {
        if !fits(&global.1, objects) {
            return false;
        }
    }
    true
}

/// Whether each reference of a state names an object of its kind.
fn numbers_fit(parts: &Parts) -> bool
    ensures { result ≡ validity.all_in (validity.fits (state_of parts.now).state.objects) (state_of parts.now).state }
{
    let objects = parts.objects.as_slice();
    let globals = parts.globals.as_slice();
    if !globals_fit(globals, objects) {
        return false;
    }
    objects_fit(objects, objects)
}

/// How many defaults the function has that a statement defines, if it defines one.
#[tactic(auto, unfolding(star_syntax::specs::Cells::def_of))]
fn count_in(statement: &Statement) -> Option<usize>
    ensures { result ≡ option_map (λ def. length def.defaults) (def_of statement.now) }
{
    match statement {
        Statement::Line(_) => None,
        Statement::If(_, _, _, _) => None,
        Statement::For(_, _, _, _) => None,
        Statement::Def(_, def) => Some(def.defaults.len()),
    }
}

fn counts_of(alloc: Global, statements: &[Statement]) -> Result<Vec<usize>, NoMemory>
    ensures { IfOk result (λ counts. counts.items ≡ map (λ def. length def.defaults) (functions_of statements.now)) }
{
    let mut counts = Vec::new(alloc);
    for statement in statements {
        let Some(count) = count_in(statement) else {
            continue;
        };
        counts.push(count)?;
    }
    Ok(counts)
}

fn cell_counts(alloc: Global, cell: &Cell) -> Result<Vec<usize>, NoMemory>
    ensures { IfOk result (λ counts. counts.items ≡ counts_in (Some cell.now)) }
{
    let tree = cell.module();
    let statements = tree.statements.as_slice();
    let counts = counts_of(alloc, statements)?;
    Ok(counts)
}

/// How many defaults each function of a node's cell has.
#[tactic(auto, unfolding(crate::specs::Defined::counts_at))]
fn counts_at(alloc: Global, program: &Program, node: NodeId) -> Result<Vec<usize>, NoMemory>
    ensures { IfOk result (λ counts. counts.items ≡ counts_at program.now node) }
{
    let Some(cell) = program.cell(node) else {
        return Ok(Vec::new(alloc));
    };
    let counts = cell_counts(alloc, cell)?;
    Ok(counts)
}

fn table_at(alloc: Global, program: &Program, node: NodeId) -> Result<Defined, NoMemory>
    ensures { IfOk result (λ made. table_of made ≡ table node (counts_at program.now node)) }
{
    let counts = counts_at(alloc, program, node)?;
    Ok(Defined { node, counts })
}

fn tables_of(alloc: Global, program: &Program, ran: &[NodeId]) -> Result<Vec<Defined>, NoMemory>
    ensures { IfOk result (λ tables. map table_of tables.items ≡ tables_of program.now ran.now) }
{
    let mut tables = Vec::new(alloc);
    for node in ran {
        let made = table_at(alloc, program, *node)?;
        tables.push(made)?;
    }
    Ok(tables)
}

fn has_count(counts: &[usize], number: u32, count: usize) -> bool
    ensures { result ≡ has_count count (slice_get counts.now number) }
{
    match at(counts, number as usize) {
        Some(defaults) => count == *defaults,
        None => false,
    }
}

fn is_same(left: NodeId, right: NodeId) -> bool
    ensures { result ≡ (left == right) }
{
    left.0 == right.0
}

fn has_function(made: &Defined, cell: NodeId, number: u32, count: usize) -> bool
    ensures { result ≡ has_function cell number count (table_of made.now) }
{
    let counts = made.counts.as_slice();
    if !is_same(made.node, cell) {
        return false;
    }
    has_count(counts, number, count)
}

/// Whether some table has this function of a cell, with so many defaults.
fn any_function(tables: &[Defined], cell: NodeId, number: u32, count: usize) -> bool
    ensures { result ≡ list_any (has_function cell number count) (map table_of tables.now) }
{
    for made in tables {
        if has_function(made, cell, number, count) {
            return true;
        }
    }
    false
}

fn object_defined(tables: &[Defined], object: &Content) -> bool
    ensures { result ≡ is_defined_in (map table_of tables.now) (object_of object.now) }
{
    match object {
        Content::List(_) => true,
        Content::Dict(_) => true,
        Content::Function(cell, number, defaults) => {
            let count = defaults.len();
            any_function(tables, *cell, *number, count)
        }
    }
}

fn all_defined(tables: &[Defined], objects: &[Content]) -> bool
    ensures { result ≡ list_all (is_defined_in (map table_of tables.now)) (map object_of objects.now) }
{
    for object in objects {
        if !object_defined(tables, object) {
            return false;
        }
    }
    true
}

/// Whether the cell of each function ran, and has that function with so many defaults. Each cell
/// that ran is walked once.
fn functions_defined(alloc: Global, program: &Program, parts: &Parts) -> Result<bool, NoMemory>
    ensures { IfOk result (λ all. all ≡ list_all (validity.is_defined program.now (state_of parts.now).ran) (state_of parts.now).state.objects) }
{
    let ran = parts.ran.as_slice();
    let objects = parts.objects.as_slice();
    let tables = tables_of(alloc, program, ran)?;
    let made = tables.as_slice();
    let all = all_defined(made, objects);
    Ok(all)
}

fn is_known(program: &Program, node: NodeId) -> bool
    ensures { result ≡ is_some (numbered program.now.cells node) }
{
    match program.cell(node) {
        Some(_) => true,
        None => false,
    }
}

fn all_known(program: &Program, ran: &[NodeId]) -> bool
    ensures { result ≡ list_all (λ node. is_some (numbered program.now.cells node)) ran.now }
{
    for node in ran {
        if !is_known(program, *node) {
            return false;
        }
    }
    true
}

/// Whether every node that ran is in the program.
fn nodes_known(program: &Program, parts: &Parts) -> bool
    ensures { result ≡ list_all (λ node. is_some (numbered program.now.cells node)) (state_of parts.now).ran }
{
    let ran = parts.ran.as_slice();
    all_known(program, ran)
}

/// Whether each number names something of its kind: objects, nodes of the program, and functions of
/// cells that ran, with their numbers of defaults.
pub fn refers(alloc: Global, program: &Program, parts: &Parts) -> Result<bool, NoMemory>
    ensures { IfOk result (λ all. all ≡ refers program.now (state_of parts.now)) }
{
    if !numbers_fit(parts) {
        return Ok(false);
    }
    if !nodes_known(program, parts) {
        return Ok(false);
    }
    let all = functions_defined(alloc, program, parts)?;
    Ok(all)
}

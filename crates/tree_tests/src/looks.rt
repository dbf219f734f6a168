//! What a tree looks like, and cuts of it.
ghost use Rattle.std.specs.Prelude.{◌↔◌, IsTrue, All};
ghost use Rattle.exec_tree.specs.Forests.{IsNode};

use crate::cells::written;
use crate::fault::Fault;
use chex_base::{NodeId, Text};
use exec_tree::Forest;
use std::alloc::Global;

fn number(word: &str) -> Result<u32, Fault> {
    match word.parse::<u32>() {
        Ok(number) => Ok(number),
        Err(_) => Err(Fault::Unread),
    }
}

/// The numbers of nodes, each with a blank behind it.
fn listed(alloc: Global, nodes: &[NodeId]) -> Result<String, Fault> {
    let mut all = String::new(alloc);
    for node in nodes {
        let one = format!(in alloc; "{} ", node.0)?;
        all.push_str(one.as_str())?;
    }
    Ok(all)
}

/// The parent and the source of each node, and the source of its cell in the program.
fn nodes(alloc: Global, forest: &Forest) -> Result<String, Fault> {
    let program = forest.program(alloc)?;
    let mut all = String::new(alloc);
    for place in 0..forest.count() {
        let number = place.saturating_add(1);
        let one = node(alloc, forest, number)?;
        let Some(cell) = program.cell(NodeId(number)) else {
            return Err(Fault::Unread);
        };
        let cell = written(alloc, cell)?;
        let both = format!(in alloc; "{one}, {cell}; ")?;
        all.push_str(both.as_str())?;
    }
    let cells = program.cells.as_slice().len();
    let count = format!(in alloc; "{cells} cells")?;
    all.push_str(count.as_str())?;
    Ok(all)
}

fn node(alloc: Global, forest: &Forest, node: u32) -> Result<String, Fault> {
    if node < 1 || node > forest.count() {
        return Err(Fault::Unread);
    }
    let parent = forest.parent(NodeId(node)).0;
    let source = written(alloc, forest.cell(NodeId(node)))?;
    Ok(format!(in alloc; "{parent} {source}")?)
}

/// The input of a node that has a name.
fn input(alloc: Global, forest: &Forest, rest: &str) -> Result<String, Fault> {
    let Some((node, name)) = rest.split_once(' ') else {
        return Err(Fault::Unread);
    };
    let node = number(node)?;
    if node < 1 || node > forest.count() {
        return Err(Fault::Unread);
    }
    let name = Text::from_str(alloc, name)?;
    Ok(format!(in alloc; "{:?}", forest.inputs(NodeId(node)).get(&name))?)
}

fn children(alloc: Global, forest: &Forest, rest: &str) -> Result<String, Fault> {
    let node = number(rest)?;
    if node > forest.count() {
        return Err(Fault::Unread);
    }
    listed(alloc, forest.children(NodeId(node)))
}

/// Whether these are numbers of nodes.
fn are_nodes(forest: &Forest, nodes: &[NodeId]) -> bool
    ensures { IsTrue result ↔ All (IsNode forest.now) nodes.now }
{
    let count = forest.count();
    nodes.iter().all(|node| 1 <= node.0 && node.0 <= count)
}

fn cut(alloc: Global, forest: &mut Forest, rest: &str) -> Result<String, Fault> {
    let mut failed = Vec::new(alloc);
    for word in rest.split(' ') {
        failed.push(NodeId(number(word)?))?;
    }
    if !are_nodes(forest, &failed) {
        return Err(Fault::Unread);
    }
    forest.cut(&failed);
    Ok(String::from_str(alloc, "done")?)
}

/// What a call over a tree answers.
pub fn answer(alloc: Global, forest: &mut Forest, call: &str) -> Result<String, Fault> {
    let (word, rest) = match call.split_once(' ') {
        Some(parts) => parts,
        None => (call, ""),
    };
    match word {
        "nodes" => nodes(alloc, forest),
        "ends" => listed(alloc, forest.ends()),
        "count" => Ok(format!(in alloc; "{}", forest.count())?),
        "node" => node(alloc, forest, number(rest)?),
        "children" => children(alloc, forest, rest),
        "input" => input(alloc, forest, rest),
        "cut" => cut(alloc, forest, rest),
        _ => Err(Fault::Unread),
    }
}

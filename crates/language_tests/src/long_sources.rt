//! Sources as long as a cell may be, each of one chain, and sources that nest as deep as a cell may.
//!
//! The tokens, the tree, the places of its names and its spelling are found by loops over each
//! chain. A call for each link would take the stack.

ghost use Rattle.star_syntax.specs.Nesting.{IsEnded, IsShallow};

use crate::fault::Fault;
use crate::report::Report;
use crate::{parser, tokens};
use chex_base::{NoMemory, Text};
use star_lexer::lex;
use star_parser::parse;
use star_resolver::resolve;
use star_syntax::{Cell, Spanned, spell};
use std::alloc::Global;

/// A chain: what stands before the piece that is repeated, the piece, and what stands after it.
type Chain = (&'static str, &'static str, &'static str);

const OPERATORS: [Chain; 13] = [
    ("x = a", " or a", "\n"),
    ("x = a", " and a", "\n"),
    ("x = a", " | a", "\n"),
    ("x = a", " ^ a", "\n"),
    ("x = a", " & a", "\n"),
    ("x = a", "+a", "\n"),
    ("x = a", "-a", "\n"),
    ("x = a", "*a", "\n"),
    ("x = a", "//a", "\n"),
    ("x = a", "%a", "\n"),
    ("x = ", "-", "1\n"),
    ("x = ", "~", "1\n"),
    ("x = ", "not ", "a\n"),
];

const CONDITIONALS_AND_SUFFIXES: [Chain; 6] = [
    ("x = ", "()if()else", "()\n"),
    ("x = ", "a if b else ", "c\n"),
    ("a", "()", "\n"),
    ("a", "[0]", "\n"),
    ("a", "[:]", "\n"),
    ("a", ".b()", "\n"),
];

const LISTS: [Chain; 11] = [
    ("x = a", ",a", "\n"),
    ("a", ",a", " = 1\n"),
    ("x = [", "1,", "]\n"),
    ("x = (1,", "1,", ")\n"),
    ("x = {", "1:1,", "}\n"),
    ("f(", "1,", ")\n"),
    ("f(", "a=1,", ")\n"),
    ("f(", "input('a'),", ")\n"),
    ("x = [a", " for a in b", "]\n"),
    ("x = [a for a in b", " if a", "]\n"),
    ("for a", ",a", " in b: pass\n"),
];

const STATEMENTS: [Chain; 6] = [
    ("", "pass\n", ""),
    ("pass", ";pass", "\n"),
    ("if a: pass\n", "elif a: pass\n", "else: pass\n"),
    ("", "def f(): return\n", ""),
    ("", "for a in b:\n  break\n", ""),
    ("", "# a\n", "pass\n"),
];

/// What opens a level, what stands in the last one, and what closes a level. There are 32 levels.
const NESTS: [(&str, &str, &str); 8] = [
    ("(", "1", ")"),
    ("[", "", "]"),
    ("{1:", "1", "}"),
    ("f(", "", ")"),
    ("a[", "0", "]"),
    ("-(not a or ", "b", ")"),
    ("(a if b else ", "c", ",)"),
    ("[a for a in ", "b", "]"),
];

/// What opens a block. The blocks nest 32 deep.
const BLOCKS: [&str; 2] = ["if a:\n", "for a in b:\n"];

/// Adds a piece so many times.
fn add_times(out: &mut String, piece: &str, times: usize) -> Result<(), NoMemory> {
    for _ in 0..times {
        out.push_str(piece)?;
    }
    Ok(())
}

/// A source of about 65,000 bytes.
fn chain(alloc: Global, before: &str, piece: &str, after: &str) -> Result<String, NoMemory> {
    let mut out = String::from_str(alloc, before)?;
    add_times(&mut out, piece, 65_000 / piece.len().max(1))?;
    out.push_str(after)?;
    Ok(out)
}

fn nest(alloc: Global, open: &str, inner: &str, close: &str) -> Result<String, NoMemory> {
    let mut out = String::new(alloc);
    add_times(&mut out, open, 32)?;
    out.push_str(inner)?;
    add_times(&mut out, close, 32)?;
    Ok(out)
}

fn blocks(alloc: Global, header: &str) -> Result<String, NoMemory> {
    let mut out = String::new(alloc);
    for level in 0..32 {
        add_times(&mut out, " ", level)?;
        out.push_str(header)?;
    }
    add_times(&mut out, " ", 32)?;
    out.push_str("pass\n")?;
    Ok(out)
}

/// The cell of tokens of a source.
fn cell_of(alloc: Global, source: &str, tokens: &[Spanned]) -> Result<Cell, Fault>
    requires nested { IsShallow tokens.now }
    requires ended { IsEnded tokens.now }
{
    let text = Text::from_str(alloc, source)?;
    let tree = parse(alloc, tokens)?;
    Ok(resolve(alloc, text, tree)?)
}

/// How many tokens a copy of a cell is spelled with.
fn spelled(alloc: Global, cell: &Cell) -> Result<usize, Fault> {
    let copy = cell.copy(alloc)?;
    let tokens = spell(alloc, copy.module())?;
    Ok(tokens.as_slice().len())
}

/// Whether a source is read, and spelled back with as many tokens.
fn is_spelled_back(alloc: Global, source: &str) -> Result<bool, Fault> {
    if source.len() > 65_536 {
        return Err(Fault::Unread);
    }
    let tokens = lex(alloc, source)?;
    let cell = cell_of(alloc, source, tokens.as_slice())?;
    Ok(spelled(alloc, &cell)? == tokens.as_slice().len())
}

/// The source of a piece is spelled back.
fn note(alloc: Global, report: &mut Report, piece: &str, source: &str) -> Result<(), Fault> {
    let found = is_spelled_back(alloc, source).unwrap_or(false);
    report.note(piece, found)
}

/// Each chain is read and spelled back.
fn check_chains(alloc: Global, report: &mut Report, chains: &[Chain]) -> Result<(), Fault> {
    for (before, piece, after) in chains {
        let source = chain(alloc, before, piece, after)?;
        note(alloc, report, piece, source.as_str())?;
    }
    Ok(())
}

/// Each nest is read and spelled back.
fn check_nests(alloc: Global, report: &mut Report) -> Result<(), Fault> {
    for (open, inner, close) in &NESTS {
        let source = nest(alloc, open, inner, close)?;
        note(alloc, report, open, source.as_str())?;
    }
    Ok(())
}

/// Blocks that nest are read and spelled back.
fn check_blocks(alloc: Global, report: &mut Report) -> Result<(), Fault> {
    for header in &BLOCKS {
        let source = blocks(alloc, header)?;
        note(alloc, report, header, source.as_str())?;
    }
    Ok(())
}

/// The longest sources of one character: what stands before it, the character, how often it
/// stands, and the number of the tokens or the fault.
const LONGEST: [(&str, &str, usize, &str); 6] = [
    ("", " ", 65_536, "1"),
    ("", "\n", 65_536, "1"),
    ("x", "#", 65_535, "3"),
    ("", "+", 65_536, "65538"),
    ("", "x", 65_536, "3"),
    ("'", "a", 65_535, "OpenString at line 1"),
];

/// The longest sources have so many tokens.
fn check_longest(alloc: Global, report: &mut Report) -> Result<(), Fault> {
    for (start, piece, times, wanted) in &LONGEST {
        let mut source = String::from_str(alloc, start)?;
        add_times(&mut source, piece, *times)?;
        let found = tokens::count(alloc, source.as_str())?;
        report.note(piece, found.as_str() == *wanted)?;
    }
    Ok(())
}

/// A text of parts: the second is repeated, and so is the fourth.
type Repeated = [&'static str; 5];

/// Rows of long chains and lists, deep brackets and blocks: the row, how often its parts are
/// repeated, and the nodes.
const SHAPES: [(Repeated, usize, Repeated); 3] = [
    // A long chain is one node.
    (
        ["a ", "+ a ", "", "", "NL END"],
        999,
        ["(Line 1:(Tests (Sum a", " Add a", "", "", ")))"],
    ),
    // A long list is one node.
    (
        ["[ ", "a , ", "", "", "] NL END"],
        3000,
        ["(Line 1:(Tests (List", " a", "", "", " ,)))"],
    ),
    // Deep brackets are one node a bracket.
    (
        ["", "( ", "a ", ") ", "NL END"],
        32,
        ["(Line 1:(Tests", " (Paren", " a", ")", "))"],
    ),
];

/// Deep blocks.
const DEEP_BLOCKS: Repeated = ["", "if a : NL IN ", "b NL ", "DE ", "END"];

fn repeated(alloc: Global, parts: &Repeated, times: usize) -> Result<String, NoMemory> {
    let [start, first, middle, second, end] = parts;
    let mut out = String::from_str(alloc, start)?;
    add_times(&mut out, first, times)?;
    out.push_str(middle)?;
    add_times(&mut out, second, times)?;
    out.push_str(end)?;
    Ok(out)
}

/// Whether a row is read as a tree that it spells.
fn is_tree(alloc: Global, row: &str) -> Result<bool, Fault> {
    let found = parser::answer(alloc, row)?;
    Ok(found.as_str() == "tree")
}

/// Whether a row has these nodes.
fn has_shape(alloc: Global, row: &str, wanted: &str) -> Result<bool, Fault> {
    let found = parser::shape(alloc, row)?;
    Ok(found.as_str() == wanted)
}

/// Each row is read as a tree that it spells, with its nodes.
fn check_shapes(alloc: Global, report: &mut Report) -> Result<(), Fault> {
    for (row, times, nodes) in &SHAPES {
        let row = repeated(alloc, row, *times)?;
        let nodes = repeated(alloc, nodes, *times)?;
        report.note("a long row", is_tree(alloc, row.as_str())?)?;
        report.note(
            "the nodes of a long row",
            has_shape(alloc, row.as_str(), nodes.as_str())?,
        )?;
    }
    let row = repeated(alloc, &DEEP_BLOCKS, 32)?;
    report.note("deep blocks", is_tree(alloc, row.as_str())?)
}

/// Long sources and deep ones are read.
pub fn check(alloc: Global, report: &mut Report) -> Result<(), Fault> {
    check_chains(alloc, report, &OPERATORS)?;
    check_chains(alloc, report, &CONDITIONALS_AND_SUFFIXES)?;
    check_chains(alloc, report, &LISTS)?;
    check_chains(alloc, report, &STATEMENTS)?;
    check_nests(alloc, report)?;
    check_blocks(alloc, report)?;
    check_longest(alloc, report)?;
    check_shapes(alloc, report)
}

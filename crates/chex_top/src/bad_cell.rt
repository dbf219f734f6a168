//! The first cell that is refused.
ghost use Rattle.std.specs.Prelude.{◌≡◌, IfOk, string_bytes};
ghost use Rattle.chex_top.specs.BadCells as spec;

use cell_reader::Reason;
use chex_base::{NoMemory, Text};
use star_lexer::LexKind;
use star_resolver::ResolveKind;
use std::alloc::Global;

/// The first cell that is refused: the name of its version, its number there from 1, what is wrong
/// with it, and on which of its lines, from 1.
#[derive(Drop)]
pub struct BadCell {
    pub name: Text,
    pub cell: usize,
    pub reason: Reason,
    pub line: u32,
}

impl BadCell {
    /// The line that is written for the refusal.
    pub fn line(&self, alloc: Global) -> Result<String, NoMemory>
        ensures { IfOk result (λ text. string_bytes text ≡ spec.line_of self.now) }
    {
        let kind = reason_name(self.reason);
        cell_line(alloc, self.name.as_str(), self.cell, self.line, kind)
    }
}

fn cell_line(
    alloc: Global,
    name: &str,
    cell: usize,
    line: u32,
    kind: &str,
) -> Result<String, NoMemory>
    ensures { IfOk result (λ text. string_bytes text ≡ spec.cell_line name.now cell line kind.now) }
{
    Ok(format!(in alloc; "error: {name} cell {cell} line {line}: {kind}\n")?)
}

/// How what is wrong is named.
fn reason_name(reason: Reason) -> &'static str
    ensures { result.now ≡ spec.reason_name reason }
{
    match reason {
        Reason::Token(kind) => token_name(kind),
        Reason::Unexpected => "Unexpected",
        Reason::Placement(kind) => placement_name(kind),
    }
}

#[tactic(auto, unfolding(crate::specs::BadCells::token_name))]
fn token_name(kind: LexKind) -> &'static str
    ensures { result.now ≡ spec.token_name kind }
{
    match kind {
        LexKind::BadCharacter => "BadCharacter",
        LexKind::BadIndent => "BadIndent",
        LexKind::OpenString => "OpenString",
        LexKind::BadEscape => "BadEscape",
        LexKind::BadNumber => "BadNumber",
        LexKind::WideNumber => "WideNumber",
        LexKind::ReservedWord => "ReservedWord",
        LexKind::TooNested => "TooNested",
    }
}

#[tactic(auto, unfolding(crate::specs::BadCells::placement_name))]
fn placement_name(kind: ResolveKind) -> &'static str
    ensures { result.now ≡ spec.placement_name kind }
{
    match kind {
        ResolveKind::NestedDef => "NestedDef",
        ResolveKind::MisplacedReturn => "MisplacedReturn",
        ResolveKind::MisplacedBreak => "MisplacedBreak",
        ResolveKind::InputNotLiteral => "InputNotLiteral",
        ResolveKind::RepeatedParameter => "RepeatedParameter",
    }
}

//! Rows: how many steps a call charges, the call, its result or failure, and, where a fourth field
//! stands, what the call is over after it, or what it wrote. Tabs stand between the fields.

use crate::calls::{Answer, Terms, run};
use crate::fault::Fault;
use crate::trees::AMPLE;
use star_lexer::lex;
use star_parser::parse;
use star_syntax::{Module, Statement};
use std::alloc::Global;

/// A row of a table.
#[derive(Clone, Copy)]
struct Row<'a> {
    steps: u64,
    call: &'a str,
    result: &'a str,
    after: Option<&'a str>,
}

/// What is expected of a run of a row.
#[derive(Clone, Copy)]
struct Expected<'a> {
    result: &'a str,
    left: u64,
    after: Option<&'a str>,
}

fn row_of(line: &str) -> Option<Row<'_>> {
    let mut fields = line.split('\t');
    let steps = fields.next()?.parse::<u64>().ok()?;
    let call = fields.next()?;
    let result = fields.next()?;
    let after = fields.next();
    Some(Row {
        steps,
        call,
        result,
        after,
    })
}

/// What differs from a row, if anything does. The call is run with as many steps as a cell may
/// take, with just so many as it charges beside the result's weight, and with one step less than it
/// charges, at which it fails with StepLimit. A call that fails leaves what it is over as it was,
/// and writes nothing.
pub fn difference(alloc: Global, line: &str, locked: bool) -> Result<Option<String>, Fault> {
    let Some(row) = row_of(line) else {
        return Err(Fault::Unread);
    };
    let module = module_of(alloc, row.call)?;
    let [statement] = module.statements.as_slice() else {
        return Err(Fault::Unread);
    };
    let ample = run(
        alloc,
        statement,
        Terms {
            left: AMPLE,
            locked,
        },
    )?;
    let expected = Expected {
        result: row.result,
        left: AMPLE.saturating_sub(row.steps),
        after: row.after,
    };
    if let Some(found) = compared(alloc, &ample, &expected)? {
        return Ok(Some(found));
    }
    let spare = ample.weight.saturating_sub(1);
    if let Some(found) = exact(alloc, statement, &row, spare, locked)? {
        return Ok(Some(found));
    }
    if row.steps == 0 {
        return Ok(None);
    }
    short(alloc, statement, row.steps - 1, locked)
}

fn exact(
    alloc: Global,
    statement: &Statement,
    row: &Row<'_>,
    spare: u64,
    locked: bool,
) -> Result<Option<String>, Fault> {
    let left = row.steps.saturating_add(spare);
    let answer = run(alloc, statement, Terms { left, locked })?;
    let expected = Expected {
        result: row.result,
        left: spare,
        after: row.after,
    };
    compared(alloc, &answer, &expected)
}

fn short(
    alloc: Global,
    statement: &Statement,
    left: u64,
    locked: bool,
) -> Result<Option<String>, Fault> {
    let answer = run(alloc, statement, Terms { left, locked })?;
    let expected = Expected {
        result: "StepLimit",
        left: 0,
        after: None,
    };
    compared(alloc, &answer, &expected)
}

/// What differs from what is expected, if anything does.
fn compared(
    alloc: Global,
    answer: &Answer,
    expected: &Expected<'_>,
) -> Result<Option<String>, Fault> {
    let Answer {
        result,
        is_done,
        weight: _,
        left,
        before,
        after,
    } = answer;
    if !agrees(answer, expected) {
        let wanted = expected.result;
        let rest = expected.left;
        return Ok(Some(format!(in alloc;
            "{result} with {left} left, {after} after {before}, where {wanted} with {rest} left is wanted"
        )?));
    }
    if !is_done && before.as_str() != after.as_str() {
        return Ok(Some(format!(in alloc; "{before} became {after}")?));
    }
    Ok(None)
}

fn agrees(answer: &Answer, expected: &Expected<'_>) -> bool {
    if answer.result.as_str() != expected.result || answer.left != expected.left {
        return false;
    }
    match expected.after {
        Some(after) => answer.after.as_str() == after,
        None => true,
    }
}

/// The module that a text spells.
fn module_of(alloc: Global, source: &str) -> Result<Module, Fault> {
    if source.len() > 65_536 {
        return Err(Fault::Unread);
    }
    let tokens = lex(alloc, source)?;
    Ok(parse(alloc, tokens.as_slice())?)
}

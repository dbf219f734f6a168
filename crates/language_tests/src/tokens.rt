//! The tokens of sources.

use crate::fault::Fault;
use star_lexer::{LexFault, lex};
use star_syntax::{SpannedTokens, Token};
use std::alloc::Global;

/// The longest source that is read, in bytes.
const LONGEST: usize = 65_536;

/// The tokens of a source, or its first fault.
fn tokens_of(alloc: Global, source: &str) -> Result<Result<SpannedTokens, LexFault>, Fault> {
    if source.len() > LONGEST {
        return Err(Fault::Unread);
    }
    Ok(lex(alloc, source))
}

/// How a row writes a token.
fn written(alloc: Global, token: &Token) -> Result<String, Fault> {
    match token {
        Token::Name(name) => Ok(String::from_str(alloc, name.as_str())?),
        Token::Int(value) => Ok(format!(in alloc; "{value}")?),
        Token::Text(text) => Ok(format!(in alloc; "«{}»", text.as_str())?),
        Token::Word(keyword) => Ok(format!(in alloc; "<{keyword:?}>")?),
        Token::Mark(mark) => Ok(format!(in alloc; "{mark:?}")?),
        _ => Ok(String::from_str(alloc, layout(token))?),
    }
}

/// How a row writes a token of layout.
fn layout(token: &Token) -> &'static str {
    match token {
        Token::Newline => "NEWLINE",
        Token::Indent => "INDENT",
        Token::Dedent => "DEDENT",
        Token::End => "END",
        _ => "?",
    }
}

/// The tokens of a source as a row writes them, each new line before its first token, or the fault.
pub fn answer(alloc: Global, source: &str) -> Result<String, Fault> {
    match tokens_of(alloc, source)? {
        Ok(tokens) => listed(alloc, &tokens),
        Err(fault) => Ok(format!(in alloc; "{fault}")?),
    }
}

fn listed(alloc: Global, tokens: &SpannedTokens) -> Result<String, Fault> {
    let mut out = String::new(alloc);
    let mut line = 1;
    for spanned in tokens.as_slice() {
        if !out.is_empty() {
            out.push(' ')?;
        }
        if spanned.line != line {
            line = spanned.line;
            push_line(alloc, &mut out, line)?;
        }
        push_token(alloc, &mut out, &spanned.token)?;
    }
    Ok(out)
}

fn push_line(alloc: Global, out: &mut String, line: u32) -> Result<(), Fault> {
    out.push_str(format!(in alloc; "@{line} ")?.as_str())?;
    Ok(())
}

fn push_token(alloc: Global, out: &mut String, token: &Token) -> Result<(), Fault> {
    out.push_str(written(alloc, token)?.as_str())?;
    Ok(())
}

/// The number of tokens of a source, or the fault.
pub fn count(alloc: Global, source: &str) -> Result<String, Fault> {
    match tokens_of(alloc, source)? {
        Ok(tokens) => {
            let count = tokens.as_slice().len();
            Ok(format!(in alloc; "{count}")?)
        }
        Err(fault) => Ok(format!(in alloc; "{fault}")?),
    }
}

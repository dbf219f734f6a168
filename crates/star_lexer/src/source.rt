//! The tokens of a source, read from its start to its end.
ghost use Rattle.std.specs.Prelude.{◌==◌, ◌&&◌, ◌≡◌, ◌+◌, ◌≤◌, ◌<◌, ◌^◌, ◌++◌, length, OnOk, IfOk, IfSome};
ghost use Rattle.std.specs.Str.{chars};
ghost use Rattle.star_lexer.specs.Layout as lines;
ghost use Rattle.star_lexer.specs.Scan as spec;
ghost use Rattle.std.specs.Prelude.{List, ℕ, ◌⊎◌};
ghost use Rattle.star_lexer.specs.Chars.{Chars, newline, newlines, first, passed_over};
ghost use Rattle.star_lexer.specs.Tokens.{Tokens, FirstFault, only_written, written_in};
ghost use Rattle.star_syntax.specs.Nesting.{IsShallow, IsBalanced, IsEnded};
ghost use Rattle.star_lexer.specs.Lexing.{IsSo, Answers, Refuses, HasTokens, HasFault};
ghost use Rattle.star_lexer.specs.declared.error.LexKind.{LexKind};
ghost use Rattle.star_syntax.specs.declared.token.Spanned.{Spanned};

use crate::chars::{first_chars, newlines};
use crate::error::{Fault, LexFault};
use crate::layout::{Layout, push_some};
use crate::pieces::{blank_at, token_at};
use star_syntax::{Spanned, SpannedTokens, Token};
use std::alloc::{AllocError, AllocFailed, Global};

/// The fault of the token at the front, which starts on this line.
fn placed(line: u32, text: &[char], fault: Fault) -> LexFault
    requires { line + length text.now < 2 ^ 32 }
    ensures { result ≡ spec.placed line text.now fault }
{
    match fault {
        Fault::Bad { kind, place } => LexFault::Bad {
            kind,
            line: line + newlines(first_chars(text, place)) as u32,
        },
        Fault::NoMemory => LexFault::NoMemory,
    }
}

/// A newline is a token where a logical line ends.
fn end_line(layout: &Layout, depth: usize, out: &mut Vec<Spanned>) -> Result<(), AllocError>
    ensures { OnOk result (out.new.items ≡ out.old.items ++ lines.line_end (record layout.now { depth = depth })) }
{
    if layout.is_start || depth > 0 {
        return Ok(());
    }
    out.push(Spanned {
        token: Token::Newline,
        line: layout.line,
    })?;
    Ok(())
}

/// Passes the piece at the front, and writes its tokens.
#[tactic(auto, unfolding(crate::specs::Scan::turn))]
fn turn(
    alloc: Global,
    text: &[char],
    layout: &mut Layout,
    out: &mut Vec<Spanned>,
) -> Result<usize, LexFault>
    requires some { 0 < length text.now }
    requires lines { layout.old.line + length text.now < 2 ^ 32 }
    requires columns { layout.old.column < 2 ^ 32 }
    requires nested { lines.IsNested layout.old }
    ensures given { spec.Turns (spec.turn layout.old text.now) result layout.new out.old.items out.new.items }
    ensures within { IfOk result (λ n. (0 < n) × (n ≤ length text.now)) }
    ensures nested { OnOk result (lines.IsNested layout.new) }
    ensures lines { IfOk result (λ n. layout.new.line ≤ layout.old.line + n) }
    ensures columns { IfOk result (λ n. layout.new.column ≤ layout.old.column + n) }
{
    if text[0] == '\n' {
        end_line(layout, layout.depth, out)?;
        layout.end_line();
        return Ok(1);
    }
    let blank = blank_at(text);
    if blank > 0 {
        layout.pass(&text[..blank]);
        return Ok(blank);
    }
    let line = layout.line;
    layout.settle(out)?;
    match token_at(alloc, text) {
        Ok((token, n)) => {
            if let Err(kind) = layout.bracket(&token) {
                return Err(LexFault::Bad { kind, line });
            }
            layout.line += newlines(&text[..n]) as u32;
            out.push(Spanned { token, line })?;
            Ok(n)
        }
        Err(fault) => Err(placed(line, text, fault)),
    }
}

/// What stands at the end of a text.
#[tactic(auto, unfolding(crate::specs::Layout::ends))]
fn end(layout: &Layout, out: &mut Vec<Spanned>) -> Result<(), AllocError>
    ensures { OnOk result (out.new.items ≡ out.old.items ++ lines.ends layout.now) }
{
    end_line(layout, 0, out)?;
    push_some(out, layout.columns.len(), layout.line)?;
    out.push(Spanned {
        token: Token::End,
        line: layout.line,
    })?;
    Ok(())
}

/// The tokens of these characters.
fn lex_chars(alloc: Global, text: &[char]) -> Result<SpannedTokens, LexFault>
    requires { length text.now + 1 < 2 ^ 32 }
    ensures { spec.Lexes result (spec.scan lines.start 0 text.now) }
{
    let mut out = Vec::new(alloc);
    let mut layout = Layout::new(alloc);
    let mut place = 0;
    while place < text.len() {
        let n = turn(alloc, &text[place..], &mut layout, &mut out)?;
        place += n;
    }
    end(&layout, &mut out)?;
    Ok(SpannedTokens::from_vec(out))
}

/// The character is a `\r` just before a newline.
fn is_passed_over(c: char, more: &[char]) -> bool
    ensures { result ≡ (c == 13 && first more.now == newline) }
{
    c == '\r' && matches!(more, ['\n', ..])
}

/// The characters without each `\r` just before a newline.
fn passed_over(alloc: Global, source: &[char]) -> Result<Vec<char>, AllocFailed<char>>
    ensures value { IfOk result (λ v. v.items ≡ passed_over source.now) }
    ensures few { IfOk result (λ v. length v.items ≤ length source.now) }
{
    let mut text = Vec::new(alloc);
    let mut left = source;
    while let [c, more @ ..] = left {
        if !is_passed_over(*c, more) {
            text.push(*c)?;
        }
        left = more;
    }
    Ok(text)
}

/// The tokens of a source, or its first fault, as they are read.
fn lex_source(alloc: Global, source: &str) -> Result<SpannedTokens, LexFault>
    requires { length source.now ≤ 65536 }
    ensures { spec.Lexes result (spec.scan lines.start 0 (passed_over (chars source.now))) }
{
    let source: Vec<char> = source.chars().collect(alloc)?;
    let text = passed_over(alloc, source.as_slice())?;
    lex_chars(alloc, text.as_slice())
}

/// The tokens of a source of at most 65,536 bytes, or its first fault. Takes time in proportion to the source.
pub fn lex(alloc: Global, source: &str) -> Result<SpannedTokens, LexFault>
    requires { length source.now ≤ 65536 }
    // What is answered is so.
    ensures found { IsSo (chars source.now) result }
    // Where the source has tokens, they are answered, unless memory runs out.
    ensures tokens { (list : List Spanned) → Tokens (chars source.now) list → Answers list result }
    // Where it has a first fault, that is answered, unless memory runs out.
    ensures fault { (kind : LexKind) (line : ℕ) → FirstFault (chars source.now) kind line → Refuses line kind result }
    ensures nested { IfOk result IsShallow }
    ensures balanced { IfOk result IsBalanced }
    ensures ended { IfOk result IsEnded }
{
    lex_source(alloc, source)
}

/// The law of the definitions: a source has tokens or a first fault, never both, and not two of either. Does nothing.
pub fn one_answer()
    ensures some { (text : Chars) → HasTokens text ⊎ HasFault text }
    ensures apart { (text : Chars) → HasTokens text → HasFault text → ⊥ }
    ensures one_list { (text : Chars) (a b : List Spanned) → Tokens text a → Tokens text b → a ≡ b }
    // The written tokens are those of the pieces in their order, each with its line.
    ensures written { (text : Chars) (list : List Spanned) (is : Tokens text list) → only_written list ≡ written_in 1 is.pieces }
    // What is passed over leaves the lines as they are.
    ensures lines { (text : Chars) → newlines (passed_over text) ≡ newlines text }
    ensures one_fault { (text : Chars) (j k : LexKind) (m n : ℕ) → FirstFault text j m → FirstFault text k n → (j ≡ k) × (m ≡ n) }
{}

//! Lines, brackets and open columns.
ghost use Rattle.std.specs.Prelude.{◌≡◌, ◌+◌, ◌-◌, ◌≤◌, ◌<◌, ◌^◌, ◌++◌, length, take, nat_le, replicate, OnOk, Ok, Err};
ghost use Rattle.std.specs.List.{prefix_len};
ghost use Rattle.star_lexer.specs.Layout as spec;
ghost use Rattle.star_lexer.specs.Scan.{at};
ghost use Rattle.star_lexer.specs.Settles.{Settles, Brackets};

use crate::chars::newlines;
use crate::error::{LexFault, LexKind};
use sqlite_items::Items;
use star_syntax::{Mark, Spanned, Token};
use std::alloc::{AllocError, Global};

/// Where a place stands in the lines of a source.
#[derive(Drop)]
pub struct Layout {
    /// The columns of the open indentations, from the outermost on.
    pub columns: Items<usize>,
    /// How many brackets are open.
    pub depth: usize,
    /// 1 plus the number of newlines before the place.
    pub line: u32,
    /// No token of the logical line has come yet.
    pub is_start: bool,
    /// A backslash before a newline has come since the line's start: its indentation is over.
    pub is_joined: bool,
    /// The spaces of the line's indentation.
    pub column: usize,
    /// A tab stands in the indentation.
    pub is_tabbed: bool,
    /// The line at which the indentation starts.
    pub start: u32,
}

/// So many brackets and columns past the first may be open at once.
pub const MOST_NESTED: usize = 32;

impl Layout {
    /// Before the first character. Takes no memory.
    pub fn new(alloc: Global) -> Layout
        ensures { result ≡ spec.start }
    {
        Layout {
            columns: Items::new(alloc),
            depth: 0,
            line: 1,
            is_start: true,
            is_joined: false,
            column: 0,
            is_tabbed: false,
            start: 1,
        }
    }

    /// White space or a comment.
    pub fn pass(&mut self, piece: &[char])
        requires some { 0 < length piece.now }
        requires lines { self.old.line + length piece.now < 2 ^ 32 }
        requires columns { self.old.column < 2 ^ 32 }
        ensures { self.new ≡ spec.passed self.old piece.now }
    {
        self.line += newlines(piece) as u32;
        let c = piece[0];
        if self.is_start && !self.is_joined && c == ' ' {
            self.column += 1;
        }
        if self.is_start && !self.is_joined && c == '\t' {
            self.is_tabbed = true;
        }
        if c == '\\' {
            self.is_joined = true;
        }
    }

    /// A newline.
    pub fn end_line(&mut self)
        requires { self.old.line + 1 < 2 ^ 32 }
        ensures { self.new ≡ spec.ended self.old }
    {
        self.line += 1;
        self.is_start = self.depth == 0;
        self.is_joined = false;
        self.column = 0;
        self.is_tabbed = false;
        self.start = self.line;
    }

    /// How many open columns are no deeper than this line.
    fn kept(&self) -> usize
        ensures value { result ≡ spec.kept self.now }
        ensures within { result ≤ length self.now.columns }
    {
        let column = self.column;
        self.columns
            .as_slice()
            .iter()
            .take_while(|c| **c <= column)
            .count()
    }

    /// The last of the first `count` open columns, or 0.
    fn top(&self, count: usize) -> usize
        requires { count ≤ length self.now.columns }
        ensures { result ≡ spec.top self.now.columns count }
    {
        if count == 0 {
            0
        } else {
            self.columns.as_slice()[count - 1]
        }
    }

    /// The indentation is refused.
    fn refusal(&self, kind: LexKind) -> LexFault
        ensures { result ≡ LexFault.Bad kind self.now.start }
    {
        LexFault::Bad {
            kind,
            line: self.start,
        }
    }

    /// Before a token: the first of a logical line opens a column, or closes some.
    #[tactic(auto, unfolding(crate::specs::Layout::settle))]
    pub fn settle(&mut self, out: &mut Vec<Spanned>) -> Result<(), LexFault>
        requires { spec.IsNested self.old }
        ensures given { Settles (at self.old.start (spec.settle self.old)) result self.new out.old.items out.new.items }
        ensures nested { OnOk result (spec.IsNested self.new) }
        ensures placed { OnOk result ((self.new.line ≡ self.old.line) × (self.new.column ≡ self.old.column)) }
    {
        if !self.is_start {
            return Ok(());
        }
        if self.is_tabbed {
            return Err(self.refusal(LexKind::BadIndent));
        }
        let count = self.columns.len();
        let kept = self.kept();
        let line = self.line;
        if self.top(kept) == self.column {
            truncate(&mut self.columns, kept);
            self.is_start = false;
            push_some(out, count - kept, line)?;
            Ok(())
        } else if kept == count {
            if self.depth + count >= MOST_NESTED {
                return Err(self.refusal(LexKind::TooNested));
            }
            self.columns.push(self.column)?;
            self.is_start = false;
            out.push(Spanned {
                token: Token::Indent,
                line,
            })?;
            Ok(())
        } else {
            Err(self.refusal(LexKind::BadIndent))
        }
    }

    /// After a token: a bracket opens, or closes.
    #[tactic(auto, unfolding(crate::specs::Layout::bracket))]
    pub fn bracket(&mut self, token: &Token) -> Result<(), LexKind>
        requires { spec.IsNested self.old }
        ensures given { Brackets (spec.bracket self.old token.now) result self.new }
        ensures nested { OnOk result (spec.IsNested self.new) }
        ensures placed { OnOk result ((self.new.line ≡ self.old.line) × (self.new.column ≡ self.old.column)) }
    {
        match token {
            Token::Mark(Mark::OpenRound | Mark::OpenSquare | Mark::OpenCurly) => {
                if self.depth + self.columns.len() >= MOST_NESTED {
                    return Err(LexKind::TooNested);
                }
                self.depth += 1;
                Ok(())
            }
            Token::Mark(Mark::CloseRound | Mark::CloseSquare | Mark::CloseCurly) => {
                self.depth = self.depth.saturating_sub(1);
                Ok(())
            }
            _ => Ok(()),
        }
    }
}

/// Keeps the first of the items.
fn truncate(items: &mut Items<usize>, count: usize)
    requires { count ≤ length items.old }
    ensures { items.new ≡ take count items.old }
{
    for _turn in count..items.len() {
        let _last = items.pop();
    }
}

/// Writes so many Dedents.
pub fn push_some(out: &mut Vec<Spanned>, count: usize, line: u32) -> Result<(), AllocError>
    ensures { OnOk result (out.new.items ≡ out.old.items ++ replicate count (spec.spanned Token.Dedent line)) }
{
    for _turn in 0..count {
        out.push(Spanned {
            token: Token::Dedent,
            line,
        })?;
    }
    Ok(())
}

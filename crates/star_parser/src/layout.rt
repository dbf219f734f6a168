//! The tokens between statements, and the lines of tokens.
ghost use Rattle.std.specs.Prelude.{◌≡◌, Ok};
ghost use Rattle.star_parser.specs.Reading as reading;
ghost use Rattle.star_parser.specs.StatementTables as spec;
ghost use Rattle.star_parser.specs.Verdict.{Reads};

use crate::cursor::Cursor;
use crate::fault::Fault;
use star_syntax::{Mark, Token};

impl<'a> Cursor<'a> {
    /// The line of the next token, or 0 at the end.
    pub fn line(&self) -> u32
        ensures { result ≡ spec.first_line self.now.rest.now }
    {
        match self.rest {
            [] => 0,
            [first, ..] => first.line,
        }
    }

    /// Whether the next token is Newline.
    pub fn sees_newline(&self) -> bool
        ensures { result ≡ spec.is_newline (reading.next self.now.rest.now) }
    {
        matches!(self.peek(), Some(Token::Newline))
    }

    /// Whether a small statement ends before the next token.
    pub fn ends_small(&self) -> bool
        ensures { result ≡ spec.ends_small (reading.next self.now.rest.now) }
    {
        self.sees(Mark::Semicolon) || self.sees_newline()
    }

    /// Passes Newline where it comes next, and says whether it did.
    pub fn eat_newline(&mut self) -> bool
        ensures { spec.eat_newline self.old.rest.now ≡ Ok (result, self.new.rest.now) }
    {
        let found = self.sees_newline();
        if found {
            self.skip();
        }
        found
    }

    /// Passes Newline, or refuses the next token.
    pub fn expect_newline(&mut self) -> Result<(), Fault>
        ensures { Reads (spec.expect_newline self.old.rest.now) result self.new.rest.now }
    {
        if self.sees_newline() {
            self.skip();
            Ok(())
        } else {
            Err(Fault::Unexpected)
        }
    }

    /// Passes Indent, or refuses the next token.
    pub fn expect_indent(&mut self) -> Result<(), Fault>
        ensures { Reads (spec.expect_indent self.old.rest.now) result self.new.rest.now }
    {
        match self.peek() {
            Some(Token::Indent) => {
                self.skip();
                Ok(())
            }
            _ => Err(Fault::Unexpected),
        }
    }

    /// Passes Dedent where it comes next, and says whether it did.
    pub fn eat_dedent(&mut self) -> bool
        ensures { spec.eat_dedent self.old.rest.now ≡ Ok (result, self.new.rest.now) }
    {
        match self.peek() {
            Some(Token::Dedent) => {
                self.skip();
                true
            }
            _ => false,
        }
    }

    /// Passes End where it comes next, and says whether it did.
    pub fn eat_end(&mut self) -> bool
        ensures { spec.eat_end self.old.rest.now ≡ Ok (result, self.new.rest.now) }
    {
        match self.peek() {
            Some(Token::End) => {
                self.skip();
                true
            }
            _ => false,
        }
    }

    /// Refuses the next token, if there is one.
    pub fn finish(&mut self) -> Result<(), Fault>
        ensures { Reads (spec.finish self.old.rest.now) result self.new.rest.now }
    {
        match self.rest {
            [] => Ok(()),
            [_, ..] => Err(Fault::Unexpected),
        }
    }
}

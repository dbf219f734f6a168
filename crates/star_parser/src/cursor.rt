//! A cursor over tokens.

ghost use Rattle.std.specs.Prelude.{◌≡◌, length};
ghost use Rattle.std.specs.Option.{option_copied};
ghost use Rattle.star_parser.specs.Reading as reading;
ghost use Rattle.star_parser.specs.Tables as spec;
ghost use Rattle.star_parser.specs.Verdict.{Reads};
ghost use Rattle.star_syntax.specs.Levels as levels;

use crate::fault::Fault;
use chex_base::Text;
use star_syntax::{
    BinaryOp, ChainLevel, ChainOp, CompareOp, Keyword, Mark, Spanned, Token, UnaryOp,
};
use std::alloc::Global;

/// The tokens that are still to read. A function that refuses leaves it at the refused token.
#[derive(Drop)]
pub struct Cursor<'a> {
    pub rest: &'a [Spanned],
}

impl<'a> Cursor<'a> {
    /// How many tokens are left.
    pub fn left(&self) -> usize
        ensures { result ≡ length self.now.rest.now }
    {
        self.rest.len()
    }

    /// The next token, if there is one.
    pub fn peek(&self) -> Option<&'a Token>
        ensures { option_copied result ≡ reading.next self.now.rest.now }
    {
        match self.rest {
            [] => None,
            [first, ..] => Some(&first.token),
        }
    }

    /// Passes the next token; at the end it does nothing.
    pub fn skip(&mut self)
        ensures { self.new.rest.now ≡ reading.rest self.old.rest.now }
    {
        if let [_, rest @ ..] = self.rest {
            self.rest = rest;
        }
    }

    /// Whether the next token is this mark.
    #[tactic(auto, unfolding(crate::specs::Tables::is_mark))]
    pub fn sees(&self, mark: Mark) -> bool
        ensures { result ≡ spec.is_mark mark (reading.next self.now.rest.now) }
    {
        match self.peek() {
            Some(Token::Mark(found)) => *found == mark,
            _ => false,
        }
    }

    /// Passes the next token where it is this mark, and says whether it was.
    pub fn eat(&mut self, mark: Mark) -> bool
        ensures { spec.eat mark self.old.rest.now ≡ Ok (result, self.new.rest.now) }
    {
        let found = self.sees(mark);
        if found {
            self.skip();
        }
        found
    }

    /// Passes this mark, or refuses the next token.
    pub fn expect(&mut self, mark: Mark) -> Result<(), Fault>
        ensures { Reads (spec.expect mark self.old.rest.now) result self.new.rest.now }
    {
        if self.sees(mark) {
            self.skip();
            Ok(())
        } else {
            Err(Fault::Unexpected)
        }
    }

    /// Whether the next token is this keyword.
    #[tactic(auto, unfolding(crate::specs::Tables::is_word))]
    pub fn sees_word(&self, word: Keyword) -> bool
        ensures { result ≡ spec.is_word word (reading.next self.now.rest.now) }
    {
        match self.peek() {
            Some(Token::Word(found)) => *found == word,
            _ => false,
        }
    }

    /// Passes the next token where it is this keyword, and says whether it was.
    pub fn eat_word(&mut self, word: Keyword) -> bool
        ensures { spec.eat_word word self.old.rest.now ≡ Ok (result, self.new.rest.now) }
    {
        let found = self.sees_word(word);
        if found {
            self.skip();
        }
        found
    }

    /// Passes this keyword, or refuses the next token.
    pub fn expect_word(&mut self, word: Keyword) -> Result<(), Fault>
        ensures { Reads (spec.expect_word word self.old.rest.now) result self.new.rest.now }
    {
        if self.sees_word(word) {
            self.skip();
            Ok(())
        } else {
            Err(Fault::Unexpected)
        }
    }

    /// Passes a name and gives a copy of it, or refuses the next token.
    #[tactic(auto, unfolding(crate::specs::Tables::expect_name))]
    pub fn expect_name(&mut self, alloc: Global) -> Result<Text, Fault>
        ensures { Reads (spec.expect_name self.old.rest.now) result self.new.rest.now }
    {
        match self.peek() {
            Some(Token::Name(name)) => {
                let name = name.copy(alloc)?;
                self.skip();
                Ok(name)
            }
            _ => Err(Fault::Unexpected),
        }
    }
}

fn token_op(token: Option<&Token>) -> Option<ChainOp>
    ensures { result ≡ spec.token_op (option_copied token.entry) }
{
    match token {
        Some(Token::Word(Keyword::Or)) => Some(ChainOp::Or),
        Some(Token::Word(Keyword::And)) => Some(ChainOp::And),
        Some(Token::Mark(Mark::Bar)) => Some(ChainOp::Binary(BinaryOp::Or)),
        Some(Token::Mark(Mark::Caret)) => Some(ChainOp::Binary(BinaryOp::Xor)),
        Some(Token::Mark(Mark::Ampersand)) => Some(ChainOp::Binary(BinaryOp::And)),
        Some(Token::Mark(Mark::Plus)) => Some(ChainOp::Binary(BinaryOp::Add)),
        Some(Token::Mark(Mark::Minus)) => Some(ChainOp::Binary(BinaryOp::Sub)),
        Some(Token::Mark(Mark::Star)) => Some(ChainOp::Binary(BinaryOp::Mul)),
        Some(Token::Mark(Mark::FloorDivide)) => Some(ChainOp::Binary(BinaryOp::Floor)),
        Some(Token::Mark(Mark::Percent)) => Some(ChainOp::Binary(BinaryOp::Mod)),
        _ => None,
    }
}

fn op_level(op: ChainOp) -> ChainLevel
    ensures { result ≡ levels.op_level op }
{
    match op {
        ChainOp::Or => ChainLevel::Or,
        ChainOp::And => ChainLevel::And,
        ChainOp::Binary(BinaryOp::Or) => ChainLevel::BitOr,
        ChainOp::Binary(BinaryOp::Xor) => ChainLevel::BitXor,
        ChainOp::Binary(BinaryOp::And) => ChainLevel::BitAnd,
        ChainOp::Binary(BinaryOp::Add | BinaryOp::Sub) => ChainLevel::Sum,
        ChainOp::Binary(BinaryOp::Mul | BinaryOp::Floor | BinaryOp::Mod) => ChainLevel::Product,
    }
}

/// The operator that the token is, if it is one of this line of the grammar.
#[tactic(auto, unfolding(crate::specs::Tables::chain_op))]
pub fn chain_op(level: ChainLevel, token: Option<&Token>) -> Option<ChainOp>
    ensures { result ≡ spec.chain_op level (option_copied token.entry) }
{
    match token_op(token) {
        Some(op) if op_level(op) == level => Some(op),
        _ => None,
    }
}

/// The comparison that begins with the token; after `not` an `in` must follow.
pub fn compare_op(token: Option<&Token>) -> Option<CompareOp>
    ensures { result ≡ spec.compare_op (option_copied token.entry) }
{
    match token {
        Some(Token::Mark(Mark::Equal)) => Some(CompareOp::Equal),
        Some(Token::Mark(Mark::NotEqual)) => Some(CompareOp::NotEqual),
        Some(Token::Mark(Mark::Less)) => Some(CompareOp::Less),
        Some(Token::Mark(Mark::Greater)) => Some(CompareOp::Greater),
        Some(Token::Mark(Mark::AtMost)) => Some(CompareOp::AtMost),
        Some(Token::Mark(Mark::AtLeast)) => Some(CompareOp::AtLeast),
        Some(Token::Word(Keyword::In)) => Some(CompareOp::Within),
        Some(Token::Word(Keyword::Not)) => Some(CompareOp::NotWithin),
        _ => None,
    }
}

/// The sign that the token is, if it is one.
pub fn sign_of(token: Option<&Token>) -> Option<UnaryOp>
    ensures { result ≡ spec.sign_of (option_copied token.entry) }
{
    match token {
        Some(Token::Mark(Mark::Plus)) => Some(UnaryOp::Plus),
        Some(Token::Mark(Mark::Minus)) => Some(UnaryOp::Minus),
        Some(Token::Mark(Mark::Tilde)) => Some(UnaryOp::Invert),
        _ => None,
    }
}

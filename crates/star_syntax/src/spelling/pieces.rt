//! Single tokens, and runs of them that hold no tree.

ghost use Rattle.std.specs.Prelude.{◌≡◌, ◌++◌, [], ◌∷◌, map, replicate, OnOk, IfOk};
ghost use Rattle.star_syntax.specs.Spelling.{sign_token, chain_token, compare_tokens, binary_mark, augmented_mark, if_written, listed};
ghost use Rattle.star_syntax.specs.SpellingOfParts.{after, name_token};

use crate::expression::ChainOp;
use crate::operator::{BinaryOp, CompareOp, UnaryOp};
use crate::token::{Keyword, Mark, Token};
use chex_base::{NoMemory, Text};
use std::alloc::Global;

/// Adds a mark.
pub fn mark(out: &mut Vec<Token>, mark: Mark) -> Result<(), NoMemory>
    ensures { OnOk result (out.new.items ≡ out.old.items ++ Token.Mark mark ∷ []) }
{
    out.push(Token::Mark(mark))?;
    Ok(())
}

/// Adds a keyword.
pub fn word(out: &mut Vec<Token>, word: Keyword) -> Result<(), NoMemory>
    ensures { OnOk result (out.new.items ≡ out.old.items ++ Token.Word word ∷ []) }
{
    out.push(Token::Word(word))?;
    Ok(())
}

/// Adds a name.
pub fn name(alloc: Global, out: &mut Vec<Token>, name: &Text) -> Result<(), NoMemory>
    ensures { OnOk result (out.new.items ≡ out.old.items ++ Token.Name name.now ∷ []) }
{
    out.push(Token::Name(name.copy(alloc)?))?;
    Ok(())
}

/// The mark, if it is written.
pub fn mark_if(out: &mut Vec<Token>, written: bool, mark: Mark) -> Result<(), NoMemory>
    ensures { OnOk result (out.new.items ≡ out.old.items ++ if_written written mark) }
{
    if written {
        out.push(Token::Mark(mark))?;
    }
    Ok(())
}

/// The mark between two phrases, before the phrase at this place.
pub fn mark_before(out: &mut Vec<Token>, place: usize, mark: Mark) -> Result<(), NoMemory>
    ensures { OnOk result (out.new.items ≡ out.old.items ++ after place mark) }
{
    if place > 0 {
        out.push(Token::Mark(mark))?;
    }
    Ok(())
}

/// Names with commas between.
pub fn names(alloc: Global, out: &mut Vec<Token>, all: &[Text]) -> Result<(), NoMemory>
    ensures { OnOk result (out.new.items ≡ out.old.items ++ listed (map name_token all.now)) }
{
    for (place, one) in all.iter().enumerate() {
        mark_before(out, place, Mark::Comma)?;
        name(alloc, out, one)?;
    }
    Ok(())
}

/// Adds the signs of an operand.
pub fn signs(out: &mut Vec<Token>, signs: &[UnaryOp]) -> Result<(), NoMemory>
    ensures { OnOk result (out.new.items ≡ out.old.items ++ map sign_token signs.now) }
{
    for sign in signs {
        out.push(sign_token(*sign))?;
    }
    Ok(())
}

/// Adds `not` so many times.
pub fn nots(out: &mut Vec<Token>, count: usize) -> Result<(), NoMemory>
    ensures { OnOk result (out.new.items ≡ out.old.items ++ replicate count (Token.Word Keyword.Not)) }
{
    for _ in 0..count {
        out.push(Token::Word(Keyword::Not))?;
    }
    Ok(())
}

/// A comparison; `not in` is two words.
pub fn comparison(out: &mut Vec<Token>, op: CompareOp) -> Result<(), NoMemory>
    ensures { OnOk result (out.new.items ≡ out.old.items ++ compare_tokens op) }
{
    match op {
        CompareOp::Equal => mark(out, Mark::Equal),
        CompareOp::NotEqual => mark(out, Mark::NotEqual),
        CompareOp::Less => mark(out, Mark::Less),
        CompareOp::Greater => mark(out, Mark::Greater),
        CompareOp::AtMost => mark(out, Mark::AtMost),
        CompareOp::AtLeast => mark(out, Mark::AtLeast),
        CompareOp::Within => word(out, Keyword::In),
        CompareOp::NotWithin => {
            word(out, Keyword::Not)?;
            word(out, Keyword::In)
        }
    }
}

/// The token of an operator of chains.
pub fn chain_token(op: ChainOp) -> Token
    ensures { result ≡ chain_token op }
{
    match op {
        ChainOp::Or => Token::Word(Keyword::Or),
        ChainOp::And => Token::Word(Keyword::And),
        ChainOp::Binary(op) => Token::Mark(binary_mark(op)),
    }
}

fn sign_token(op: UnaryOp) -> Token
    ensures { result ≡ sign_token op }
{
    match op {
        UnaryOp::Plus => Token::Mark(Mark::Plus),
        UnaryOp::Minus => Token::Mark(Mark::Minus),
        UnaryOp::Invert => Token::Mark(Mark::Tilde),
    }
}

fn binary_mark(op: BinaryOp) -> Mark
    ensures { result ≡ binary_mark op }
{
    match op {
        BinaryOp::Add => Mark::Plus,
        BinaryOp::Sub => Mark::Minus,
        BinaryOp::Mul => Mark::Star,
        BinaryOp::Floor => Mark::FloorDivide,
        BinaryOp::Mod => Mark::Percent,
        BinaryOp::And => Mark::Ampersand,
        BinaryOp::Or => Mark::Bar,
        BinaryOp::Xor => Mark::Caret,
    }
}

/// The mark of an augmented assignment.
pub fn augmented_mark(op: BinaryOp) -> Mark
    ensures { result ≡ augmented_mark op }
{
    match op {
        BinaryOp::Add => Mark::PlusAssign,
        BinaryOp::Sub => Mark::MinusAssign,
        BinaryOp::Mul => Mark::StarAssign,
        BinaryOp::Floor => Mark::FloorAssign,
        BinaryOp::Mod => Mark::PercentAssign,
        BinaryOp::And => Mark::AmpersandAssign,
        BinaryOp::Or => Mark::BarAssign,
        BinaryOp::Xor => Mark::CaretAssign,
    }
}

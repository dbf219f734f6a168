//! The tokens of a cell.

use chex_base::Text;

/// The words that the grammar keeps for itself, each named as it is written.
#[derive(Clone, Copy, Debug, PartialEq, Eq, Drop)]
pub enum Keyword {
    And,
    Or,
    Not,
    In,
    If,
    Elif,
    Else,
    For,
    Def,
    Return,
    Break,
    Continue,
    Pass,
    None,
    True,
    False,
}

/// The marks: operators, brackets and what separates.
#[derive(Clone, Copy, Debug, PartialEq, Eq, Drop)]
pub enum Mark {
    /// `+`
    Plus,
    /// `-`
    Minus,
    /// `*`
    Star,
    /// `//`
    FloorDivide,
    /// `%`
    Percent,
    /// `&`
    Ampersand,
    /// `|`
    Bar,
    /// `^`
    Caret,
    /// `~`
    Tilde,
    /// `==`
    Equal,
    /// `!=`
    NotEqual,
    /// `<`
    Less,
    /// `>`
    Greater,
    /// `<=`
    AtMost,
    /// `>=`
    AtLeast,
    /// `=`
    Assign,
    /// `+=`
    PlusAssign,
    /// `-=`
    MinusAssign,
    /// `*=`
    StarAssign,
    /// `//=`
    FloorAssign,
    /// `%=`
    PercentAssign,
    /// `&=`
    AmpersandAssign,
    /// `|=`
    BarAssign,
    /// `^=`
    CaretAssign,
    /// `(`
    OpenRound,
    /// `)`
    CloseRound,
    /// `[`
    OpenSquare,
    /// `]`
    CloseSquare,
    /// `{`
    OpenCurly,
    /// `}`
    CloseCurly,
    /// `,`
    Comma,
    /// `:`
    Colon,
    /// `;`
    Semicolon,
    /// `.`
    Dot,
}

/// A token. Newline ends a logical line; Indent and Dedent open and close a block; End is last.
#[derive(Drop)]
pub enum Token {
    Name(Text),
    /// A literal from 0 to 2^127 - 1; a sign before it is a token of its own.
    Int(i128),
    /// The value of a text literal, and not how it was spelled.
    Text(Text),
    Word(Keyword),
    Mark(Mark),
    Newline,
    Indent,
    Dedent,
    End,
}

/// A token with its line, which is 1 plus the number of newlines before it.
#[derive(Drop)]
pub struct Spanned {
    pub token: Token,
    pub line: u32,
}

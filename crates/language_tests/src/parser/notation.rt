//! Tokens written as words with blanks between.

use chex_base::{NoMemory, Text};
use star_syntax::{Keyword, Mark, Spanned, Token};
use std::alloc::Global;

/// Each mark with its word.
const MARKS: [(&str, Mark); 34] = [
    ("+", Mark::Plus),
    ("-", Mark::Minus),
    ("*", Mark::Star),
    ("//", Mark::FloorDivide),
    ("%", Mark::Percent),
    ("&", Mark::Ampersand),
    ("|", Mark::Bar),
    ("^", Mark::Caret),
    ("~", Mark::Tilde),
    ("==", Mark::Equal),
    ("!=", Mark::NotEqual),
    ("<", Mark::Less),
    (">", Mark::Greater),
    ("<=", Mark::AtMost),
    (">=", Mark::AtLeast),
    ("=", Mark::Assign),
    ("+=", Mark::PlusAssign),
    ("-=", Mark::MinusAssign),
    ("*=", Mark::StarAssign),
    ("//=", Mark::FloorAssign),
    ("%=", Mark::PercentAssign),
    ("&=", Mark::AmpersandAssign),
    ("|=", Mark::BarAssign),
    ("^=", Mark::CaretAssign),
    ("(", Mark::OpenRound),
    (")", Mark::CloseRound),
    ("[", Mark::OpenSquare),
    ("]", Mark::CloseSquare),
    ("{", Mark::OpenCurly),
    ("}", Mark::CloseCurly),
    (",", Mark::Comma),
    (":", Mark::Colon),
    (";", Mark::Semicolon),
    (".", Mark::Dot),
];

/// Each keyword with its word.
const KEYWORDS: [(&str, Keyword); 16] = [
    ("and", Keyword::And),
    ("or", Keyword::Or),
    ("not", Keyword::Not),
    ("in", Keyword::In),
    ("if", Keyword::If),
    ("elif", Keyword::Elif),
    ("else", Keyword::Else),
    ("for", Keyword::For),
    ("def", Keyword::Def),
    ("return", Keyword::Return),
    ("break", Keyword::Break),
    ("continue", Keyword::Continue),
    ("pass", Keyword::Pass),
    ("None", Keyword::None),
    ("True", Keyword::True),
    ("False", Keyword::False),
];

/// The word of a mark.
fn mark_word(mark: Mark) -> &'static str {
    for (word, found) in &MARKS {
        if *found == mark {
            return word;
        }
    }
    "no mark"
}

/// The word of a keyword.
fn keyword_word(keyword: Keyword) -> &'static str {
    for (word, found) in &KEYWORDS {
        if *found == keyword {
            return word;
        }
    }
    "no keyword"
}

/// The mark that a word writes.
fn mark_of(word: &str) -> Option<Mark> {
    for (written, mark) in &MARKS {
        if *written == word {
            return Some(*mark);
        }
    }
    None
}

/// The keyword that a word writes.
fn keyword_of(word: &str) -> Option<Keyword> {
    for (written, keyword) in &KEYWORDS {
        if *written == word {
            return Some(*keyword);
        }
    }
    None
}

/// The token of layout that a word stands for.
fn layout_of(word: &str) -> Option<Token> {
    match word {
        "NL" => Some(Token::Newline),
        "IN" => Some(Token::Indent),
        "DE" => Some(Token::Dedent),
        "END" => Some(Token::End),
        _ => None,
    }
}

/// The token of a word that is no name, number or text.
fn fixed(word: &str) -> Option<Token> {
    if let Some(mark) = mark_of(word) {
        return Some(Token::Mark(mark));
    }
    match keyword_of(word) {
        Some(keyword) => Some(Token::Word(keyword)),
        None => layout_of(word),
    }
}

/// The value of a word such as `'text'`.
fn quoted(word: &str) -> Option<&str> {
    word.strip_prefix('\'')?.strip_suffix('\'')
}

/// The token of a word.
fn token(alloc: Global, word: &str) -> Result<Token, NoMemory> {
    if let Some(token) = fixed(word) {
        return Ok(token);
    }
    if let Some(value) = quoted(word) {
        return Ok(Token::Text(Text::from_str(alloc, value)?));
    }
    match word.parse::<i128>() {
        Ok(number) => Ok(Token::Int(number)),
        Err(_) => Ok(Token::Name(Text::from_str(alloc, word)?)),
    }
}

/// The tokens of a row: `NL`, `IN`, `DE` and `END` stand for Newline, Indent, Dedent and End. Lines are
/// counted from 1, one more after each `NL`; `BR` is no token, and also begins a line.
pub fn tokens_of(alloc: Global, row: &str) -> Result<Vec<Spanned>, NoMemory> {
    let mut out = Vec::new(alloc);
    let mut line: u32 = 1;
    for word in row.split_whitespace() {
        if word != "BR" {
            let token = token(alloc, word)?;
            out.push(Spanned { token, line })?;
        }
        if word == "NL" || word == "BR" {
            line = line.saturating_add(1);
        }
    }
    Ok(out)
}

/// Adds the word of a token.
fn push_token(alloc: Global, out: &mut Text, token: &Token) -> Result<(), NoMemory> {
    match token {
        Token::Name(name) => out.push_text(name),
        Token::Int(number) => out.push_text(&Text::from_int(alloc, *number)?),
        Token::Text(value) => {
            out.push_str("'")?;
            out.push_text(value)?;
            out.push_str("'")
        }
        Token::Word(keyword) => out.push_str(keyword_word(*keyword)),
        Token::Mark(mark) => out.push_str(mark_word(*mark)),
        Token::Newline => out.push_str("NL"),
        Token::Indent => out.push_str("IN"),
        Token::Dedent => out.push_str("DE"),
        Token::End => out.push_str("END"),
    }
}

/// The row of tokens.
pub fn row_of(alloc: Global, tokens: &[Token]) -> Result<Text, NoMemory> {
    let mut out = Text::new(alloc);
    for (place, token) in tokens.iter().enumerate() {
        if place > 0 {
            out.push_str(" ")?;
        }
        push_token(alloc, &mut out, token)?;
    }
    Ok(out)
}

//! Operators, brackets and what separates.
ghost use Rattle.std.specs.Prelude.{◌≡◌, ◌<◌, length, IfSome};
ghost use Rattle.star_lexer.specs.Words as spec;

use star_syntax::Mark;

/// All marks.
pub const MARKS: [Mark; 34] = [
    Mark::Plus,
    Mark::Minus,
    Mark::Star,
    Mark::FloorDivide,
    Mark::Percent,
    Mark::Ampersand,
    Mark::Bar,
    Mark::Caret,
    Mark::Tilde,
    Mark::Equal,
    Mark::NotEqual,
    Mark::Less,
    Mark::Greater,
    Mark::AtMost,
    Mark::AtLeast,
    Mark::Assign,
    Mark::PlusAssign,
    Mark::MinusAssign,
    Mark::StarAssign,
    Mark::FloorAssign,
    Mark::PercentAssign,
    Mark::AmpersandAssign,
    Mark::BarAssign,
    Mark::CaretAssign,
    Mark::OpenRound,
    Mark::CloseRound,
    Mark::OpenSquare,
    Mark::CloseSquare,
    Mark::OpenCurly,
    Mark::CloseCurly,
    Mark::Comma,
    Mark::Colon,
    Mark::Semicolon,
    Mark::Dot,
];

/// How the mark is written.
pub fn mark_text(mark: Mark) -> &'static [char]
    ensures value { result.now ≡ spec.mark_text mark }
    ensures some { 0 < length result.now }
{
    match mark {
        Mark::Plus => &['+'],
        Mark::Minus => &['-'],
        Mark::Star => &['*'],
        Mark::FloorDivide => &['/', '/'],
        Mark::Percent => &['%'],
        Mark::Ampersand => &['&'],
        Mark::Bar => &['|'],
        Mark::Caret => &['^'],
        Mark::Tilde => &['~'],
        Mark::Equal => &['=', '='],
        Mark::NotEqual => &['!', '='],
        Mark::Less => &['<'],
        Mark::Greater => &['>'],
        Mark::AtMost => &['<', '='],
        Mark::AtLeast => &['>', '='],
        Mark::Assign => &['='],
        Mark::PlusAssign => &['+', '='],
        Mark::MinusAssign => &['-', '='],
        Mark::StarAssign => &['*', '='],
        Mark::FloorAssign => &['/', '/', '='],
        Mark::PercentAssign => &['%', '='],
        Mark::AmpersandAssign => &['&', '='],
        Mark::BarAssign => &['|', '='],
        Mark::CaretAssign => &['^', '='],
        Mark::OpenRound => &['('],
        Mark::CloseRound => &[')'],
        Mark::OpenSquare => &['['],
        Mark::CloseSquare => &[']'],
        Mark::OpenCurly => &['{'],
        Mark::CloseCurly => &['}'],
        Mark::Comma => &[','],
        Mark::Colon => &[':'],
        Mark::Semicolon => &[';'],
        Mark::Dot => &['.'],
    }
}

/// The mark that is written so.
#[tactic(auto, unfolding(crate::specs::Words::mark_of))]
pub fn mark_of(word: &[char]) -> Option<Mark>
    ensures value { result ≡ spec.mark_of word.now }
    ensures spelt { IfSome result (λ m. spec.mark_text m ≡ word.now) }
{
    let mut table: &[Mark] = &MARKS;
    while let [mark, more @ ..] = table {
        if mark_text(*mark) == word {
            return Some(*mark);
        }
        table = more;
    }
    None
}

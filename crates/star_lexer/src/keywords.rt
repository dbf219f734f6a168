//! The words that the grammar keeps for itself.
ghost use Rattle.std.specs.Prelude.{◌≡◌};
ghost use Rattle.star_lexer.specs.Words as spec;

use star_syntax::Keyword;

/// All keywords.
pub const KEYWORDS: [Keyword; 16] = [
    Keyword::And,
    Keyword::Or,
    Keyword::Not,
    Keyword::In,
    Keyword::If,
    Keyword::Elif,
    Keyword::Else,
    Keyword::For,
    Keyword::Def,
    Keyword::Return,
    Keyword::Break,
    Keyword::Continue,
    Keyword::Pass,
    Keyword::None,
    Keyword::True,
    Keyword::False,
];

/// How the keyword is written.
pub fn keyword_text(keyword: Keyword) -> &'static [char]
    ensures { result.now ≡ spec.keyword_text keyword }
{
    match keyword {
        Keyword::And => &['a', 'n', 'd'],
        Keyword::Or => &['o', 'r'],
        Keyword::Not => &['n', 'o', 't'],
        Keyword::In => &['i', 'n'],
        Keyword::If => &['i', 'f'],
        Keyword::Elif => &['e', 'l', 'i', 'f'],
        Keyword::Else => &['e', 'l', 's', 'e'],
        Keyword::For => &['f', 'o', 'r'],
        Keyword::Def => &['d', 'e', 'f'],
        Keyword::Return => &['r', 'e', 't', 'u', 'r', 'n'],
        Keyword::Break => &['b', 'r', 'e', 'a', 'k'],
        Keyword::Continue => &['c', 'o', 'n', 't', 'i', 'n', 'u', 'e'],
        Keyword::Pass => &['p', 'a', 's', 's'],
        Keyword::None => &['N', 'o', 'n', 'e'],
        Keyword::True => &['T', 'r', 'u', 'e'],
        Keyword::False => &['F', 'a', 'l', 's', 'e'],
    }
}

/// The keyword that is written so.
#[tactic(auto, unfolding(crate::specs::Words::keyword_of))]
pub fn keyword_of(word: &[char]) -> Option<Keyword>
    ensures { result ≡ spec.keyword_of word.now }
{
    let mut table: &[Keyword] = &KEYWORDS;
    while let [keyword, more @ ..] = table {
        if keyword_text(*keyword) == word {
            return Some(*keyword);
        }
        table = more;
    }
    None
}

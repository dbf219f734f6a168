//! The words that no source may use.
ghost use Rattle.std.specs.Prelude.{◌≡◌};
ghost use Rattle.star_lexer.specs.Words as spec;

/// The words that the language refuses, each named as it is written.
#[derive(Clone, Copy, Debug, PartialEq, Eq, Drop)]
pub enum Reserved {
    As,
    Assert,
    Class,
    Del,
    Except,
    Finally,
    From,
    Global,
    Import,
    Is,
    Lambda,
    Load,
    Nonlocal,
    Raise,
    Try,
    While,
    With,
    Yield,
}

/// All reserved words.
pub const RESERVED: [Reserved; 18] = [
    Reserved::As,
    Reserved::Assert,
    Reserved::Class,
    Reserved::Del,
    Reserved::Except,
    Reserved::Finally,
    Reserved::From,
    Reserved::Global,
    Reserved::Import,
    Reserved::Is,
    Reserved::Lambda,
    Reserved::Load,
    Reserved::Nonlocal,
    Reserved::Raise,
    Reserved::Try,
    Reserved::While,
    Reserved::With,
    Reserved::Yield,
];

/// How the reserved word is written.
pub fn reserved_text(reserved: Reserved) -> &'static [char]
    ensures { result.now ≡ spec.reserved_text reserved }
{
    match reserved {
        Reserved::As => &['a', 's'],
        Reserved::Assert => &['a', 's', 's', 'e', 'r', 't'],
        Reserved::Class => &['c', 'l', 'a', 's', 's'],
        Reserved::Del => &['d', 'e', 'l'],
        Reserved::Except => &['e', 'x', 'c', 'e', 'p', 't'],
        Reserved::Finally => &['f', 'i', 'n', 'a', 'l', 'l', 'y'],
        Reserved::From => &['f', 'r', 'o', 'm'],
        Reserved::Global => &['g', 'l', 'o', 'b', 'a', 'l'],
        Reserved::Import => &['i', 'm', 'p', 'o', 'r', 't'],
        Reserved::Is => &['i', 's'],
        Reserved::Lambda => &['l', 'a', 'm', 'b', 'd', 'a'],
        Reserved::Load => &['l', 'o', 'a', 'd'],
        Reserved::Nonlocal => &['n', 'o', 'n', 'l', 'o', 'c', 'a', 'l'],
        Reserved::Raise => &['r', 'a', 'i', 's', 'e'],
        Reserved::Try => &['t', 'r', 'y'],
        Reserved::While => &['w', 'h', 'i', 'l', 'e'],
        Reserved::With => &['w', 'i', 't', 'h'],
        Reserved::Yield => &['y', 'i', 'e', 'l', 'd'],
    }
}

/// The reserved word that is written so.
#[tactic(auto, unfolding(crate::specs::Words::reserved_of))]
pub fn reserved_of(word: &[char]) -> Option<Reserved>
    ensures { result ≡ spec.reserved_of word.now }
{
    let mut table: &[Reserved] = &RESERVED;
    while let [reserved, more @ ..] = table {
        if reserved_text(*reserved) == word {
            return Some(*reserved);
        }
        table = more;
    }
    None
}

//! Classes of characters.
ghost use Rattle.std.specs.Prelude.{◌≡◌, ◌≤◌, length, take};
ghost use Rattle.std.specs.List.{prefix_len};
ghost use Rattle.star_lexer.specs.Chars as spec;

/// A class of characters that stand side by side in a piece.
#[derive(Clone, Copy, Debug)]
pub enum Class {
    /// A letter, a digit or `_`.
    Name,
    /// Anything but a newline.
    Line,
    Digit,
    /// A digit up to 7.
    Octal,
    /// A digit, or a letter up to F of either case.
    Hex,
}

/// A name begins with this character: a letter of ASCII or `_`.
pub fn is_name_start(c: char) -> bool
    ensures { result ≡ spec.is_name_start c }
{
    c.is_ascii_alphabetic() || c == '_'
}

/// The character is in the class.
pub fn is_in(class: Class, c: char) -> bool
    ensures { result ≡ spec.is_in class c }
{
    match class {
        Class::Name => c.is_ascii_alphabetic() || c == '_' || c.is_ascii_digit(),
        Class::Line => c != '\n',
        Class::Digit => c.is_ascii_digit(),
        Class::Octal => '0' <= c && c <= '7',
        Class::Hex => c.is_ascii_hexdigit(),
    }
}

/// A text begins and ends with this character.
pub fn is_quote(c: char) -> bool
    ensures { result ≡ spec.is_quote c }
{
    c == '"' || c == '\''
}

/// The first characters, at most so many.
pub fn first_chars(text: &[char], most: usize) -> &[char]
    ensures { result.now ≡ take most text.now }
{
    if most < text.len() {
        &text[..most]
    } else {
        text
    }
}

/// How many characters at the front are in the class.
pub fn run_len(class: Class, text: &[char]) -> usize
    ensures len { result ≡ prefix_len (spec.is_in class) text.now }
    ensures within { result ≤ length text.now }
{
    text.iter().take_while(|c| is_in(class, **c)).count()
}

/// How many newlines there are.
pub fn newlines(text: &[char]) -> usize
    ensures value { result ≡ spec.newlines text.now }
    ensures within { result ≤ length text.now }
{
    text.iter().filter(|c| **c == '\n').count()
}

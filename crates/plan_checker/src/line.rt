//! One line of a plan text.
ghost use Rattle.std.specs.Prelude.{◌≡◌, ◌≢◌, ◌≤◌, ◌<◌, ◌++◌, ◌∷◌, ◌↔◌, ℕ, List, Bool, length, codes, decimal, IsTrue, MatchOption};
ghost use Rattle.std.specs.Prelude.{position, ◌==◌};
ghost use Rattle.std.specs.Str.Parse.{AllDigits, digits_value};
ghost use Rattle.plan_type.specs.PlanText.{flag_of};
ghost use Rattle.plan_checker.specs.declared.line.Line.{Line};
ghost use Rattle.plan_checker.specs.Lines.{IsSmall, Follows, spelled};

use chex_base::NodeId;

/// The most digits of a number.
const MOST_DIGITS: usize = 4;

/// An entry as its line tells it.
#[derive(Clone, Copy, Debug, PartialEq, Eq)]
pub struct Line {
    /// How many entries it stands in, with itself; children of number 0 have depth 1.
    pub depth: u32,
    /// The child.
    pub node: NodeId,
    /// Whether its parent is held while its subtree is computed.
    pub hold: bool,
}

impl Line {
    /// The depth, as a place in a table.
    pub(crate) fn level(&self) -> usize
        ensures { result ≡ self.now.depth }
    {
        self.depth as usize
    }

    /// The child, by its number.
    pub(crate) fn number(&self) -> u32
        ensures { result ≡ self.now.node }
    {
        self.node.0
    }

    /// Whether the line may stand after an entry of this depth, 0 for none.
    pub fn follows(&self, before: u32) -> bool
        requires small { IsSmall self.now }
        requires before { before ≤ 9999 }
        ensures { IsTrue result ↔ Follows before self.now }
    {
        self.depth >= 1 && self.depth <= before + 1 && (self.depth > 1 || !self.hold)
    }
}

/// The number that these digits write, if each is a decimal digit.
fn value(digits: &[u8]) -> Option<u32>
    requires { length digits.now ≤ 4 }
    ensures { MatchOption result
        ((n : ℕ) → n ≤ 9999 → digits.now ≢ decimal n)
        (λ n. AllDigits 10 digits.now × (n ≡ digits_value 10 digits.now) × (n ≤ 9999)) }
{
    let mut value = 0;
    for digit in digits {
        if !digit.is_ascii_digit() {
            return None;
        }
        value = value * 10 + u32::from(*digit - b'0');
    }
    Some(value)
}

#[tactic(auto, using(crate::proofs::Numbers::empty_number, crate::proofs::Numbers::long_number, crate::proofs::Numbers::padded_number, crate::proofs::Numbers::whole_number))]
/// The number that these bytes are, in at most four digits and with no zero in front of others.
fn numeral(digits: &[u8]) -> Option<u32>
    ensures { MatchOption result
        ((n : ℕ) → n ≤ 9999 → digits.now ≢ decimal n)
        (λ n. (n ≤ 9999) × (digits.now ≡ decimal n)) }
{
    if digits.is_empty() {
        return None;
    }
    if digits.len() > MOST_DIGITS {
        return None;
    }
    if digits.len() > 1 && digits[0] == b'0' {
        return None;
    }
    value(digits)
}

/// Where the first blank stands.
fn blank(bytes: &[u8]) -> Option<usize>
    ensures { result ≡ position (λ byte. byte == 32) bytes.now }
{
    bytes.iter().position(|byte| *byte == b' ')
}

#[tactic(auto, using(crate::proofs::Numbers::no_blank, crate::proofs::Numbers::bad_front, crate::proofs::Numbers::cut_blank))]
/// The number at the front, and what stands after the blank that ends it.
fn number(bytes: &[u8]) -> Option<(u32, &[u8])>
    ensures { MatchOption result
        ((n : ℕ) (rest : List ℕ) → n ≤ 9999 → bytes.now ≢ decimal n ++ 32 ∷ rest)
        (λ x. (x.0 ≤ 9999) × (bytes.now ≡ decimal x.0 ++ 32 ∷ x.1.now)) }
{
    let Some(end) = blank(bytes) else {
        return None;
    };
    let Some(number) = numeral(&bytes[..end]) else {
        return None;
    };
    Some((number, &bytes[end + 1..]))
}

/// The flag at the front, and what stands after the newline that ends it.
fn flag(bytes: &[u8]) -> Option<(bool, &[u8])>
    ensures { MatchOption result
        ((hold : Bool) (rest : List ℕ) → bytes.now ≢ flag_of hold ++ 10 ∷ rest)
        (λ x. bytes.now ≡ flag_of x.0 ++ 10 ∷ x.1.now) }
{
    if let Some(rest) = bytes.strip_prefix(b"hold\n") {
        return Some((true, rest));
    }
    let rest = bytes.strip_prefix(b"free\n")?;
    Some((false, rest))
}

/// The line at the front, and what stands after it.
pub fn take_line(bytes: &[u8]) -> Option<(Line, &[u8])>
    ensures { MatchOption result
        ((line : Line) (rest : List ℕ) → IsSmall line → bytes.now ≢ spelled line ++ rest)
        (λ x. IsSmall x.0 × (bytes.now ≡ spelled x.0 ++ x.1.now)) }
{
    let Some((depth, after_depth)) = number(bytes) else {
        return None;
    };
    let Some((node, after_node)) = number(after_depth) else {
        return None;
    };
    let Some((hold, rest)) = flag(after_node) else {
        return None;
    };
    let line = Line {
        depth,
        node: NodeId(node),
        hold,
    };
    Some((line, rest))
}

//! Numbers among the words.
ghost use Rattle.std.specs.Prelude.{◌≡◌, option_map};
ghost use Rattle.chex_words.specs.Numbers as spec;

const MOST_DIGITS: usize = 19;

/// A number of 1 to 19 digits without a sign.
pub fn number(text: &str) -> Option<u64>
    ensures { result ≡ spec.number_of text.now }
{
    if text.len() > MOST_DIGITS {
        return None;
    }
    if text.starts_with('+') {
        return None;
    }
    text.parse::<u64>().ok()
}

/// A number from `least` to `most`.
pub fn number_within(least: u64, most: u64, text: &str) -> Option<u64>
    ensures { result ≡ spec.number_within least most text.now }
{
    let number = number(text)?;
    if number < least {
        return None;
    }
    if number > most {
        return None;
    }
    Some(number)
}

/// The number of an option, or `absent` where the option is not given.
pub fn number_or(absent: u64, least: u64, most: u64, text: Option<&str>) -> Option<u64>
    ensures { result ≡ spec.number_or absent least most (option_map (λ s. s.now) text.entry) }
{
    match text {
        None => Some(absent),
        Some(text) => number_within(least, most, text),
    }
}

/// The number of an option that may be absent.
pub fn optional_number(least: u64, most: u64, text: Option<&str>) -> Option<Option<u64>>
    ensures { result ≡ spec.optional_number least most (option_map (λ s. s.now) text.entry) }
{
    match text {
        None => Some(None),
        Some(text) => Some(Some(number_within(least, most, text)?)),
    }
}

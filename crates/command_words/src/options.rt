//! The options of commands, and the words that give them.

ghost use Rattle.std.specs.Prelude.{◌≡◌, ◌==◌, ◌≤◌, ℕ, List, Some, None, map, position, string_bytes, option_map, option_and_then, IfSome};
ghost use Rattle.std.specs.Char.{is_ascii_digit};
ghost use Rattle.std.specs.List.{list_all};
ghost use Rattle.std.specs.Option.{option_copied};
ghost use Rattle.command_words.specs.Options.{text_of, takes_of, is_required, is_value, number_of, may_have, number_by, named, names, option_named, after_option, after_named, after_word, all_fit, is_given, is_given_again, each_once, has_required, are_options, value_at, value_in, number_in};

use std::str;

/// An option.
#[derive(Clone, Copy, Debug, PartialEq, Eq)]
pub(crate) enum Name {
    /// How many replicas there are.
    Replicas,
    /// The number that a made case is made from, or events are drawn from.
    Number,
    /// How many devices a made case has.
    Devices,
    /// How many rounds a made case has behind the first.
    Rounds,
    /// The made case itself is wanted.
    Text,
    /// The device whose streams are taken.
    Device,
    /// How many events are drawn.
    Events,
    /// How many calls a disk passes before it fails.
    After,
    /// The number of the protocol that a trace is read by.
    Kind,
    /// How many workers there are.
    Workers,
}

/// What an option takes.
#[derive(Clone, Copy, Debug, PartialEq, Eq)]
pub(crate) enum Takes {
    /// A number.
    Number {
        /// The least.
        least: u32,
        /// The greatest.
        most: u32,
        /// The number where no word gives one. With none the option is required.
        default: Option<u32>,
    },
    /// Nothing: it is a flag.
    Nothing,
}

/// The name of an option.
pub(crate) fn text_of(name: Name) -> &'static str
    ensures { result.now ≡ text_of name }
{
    match name {
        Name::Replicas => "replicas",
        Name::Number => "number",
        Name::Devices => "devices",
        Name::Rounds => "rounds",
        Name::Text => "text",
        Name::Device => "device",
        Name::Events => "events",
        Name::After => "after",
        Name::Kind => "kind",
        Name::Workers => "workers",
    }
}

/// What an option takes.
pub(crate) fn takes_of(name: Name) -> Takes
    ensures { result ≡ takes_of name }
{
    let (least, most, default) = match name {
        Name::Replicas => (1, 16, Some(2)),
        Name::Number | Name::After => (0, u32::MAX, None),
        Name::Devices => (1, 800, None),
        Name::Rounds => (0, 799, None),
        Name::Text => return Takes::Nothing,
        Name::Device => (1, 4096, None),
        Name::Events => (0, 100_000, Some(100)),
        Name::Kind => (0, 2, Some(0)),
        Name::Workers => (1, 16, Some(4)),
    };
    Takes::Number {
        least,
        most,
        default,
    }
}

/// Has an option no number where no word gives it one?
fn is_required(takes: Takes) -> bool
    ensures { result ≡ is_required takes }
{
    matches!(takes, Takes::Number { default: None, .. })
}

/// Are all octets decimal digits?
fn are_digits(octets: &[u8]) -> bool
    ensures { result ≡ list_all is_ascii_digit octets.now }
{
    octets.iter().all(|octet| octet.is_ascii_digit())
}

/// Is it one to ten decimal digits?
fn is_value(text: &[u8]) -> bool
    ensures { result ≡ is_value text.now }
{
    1 <= text.len() && text.len() <= 10 && are_digits(text)
}

/// The number from `least` to `most` that one to ten decimal digits are. No other text is one.
#[tactic(auto, unfolding(crate::specs::Options::number_of))]
fn number_of(text: &[u8], least: u32, most: u32) -> Option<u32>
    ensures value { result ≡ number_of least most text.now }
    ensures least { IfSome result (λ n. least ≤ n) }
    ensures most { IfSome result (λ n. n ≤ most) }
{
    if !is_value(text) {
        return None;
    }
    let Ok(text) = str::from_utf8(text) else {
        return None;
    };
    let Ok(number) = text.parse::<u32>() else {
        return None;
    };
    (least <= number && number <= most).then_some(number)
}

/// May an option have that value?
fn may_have(takes: Takes, text: &[u8]) -> bool
    ensures { result ≡ may_have takes text.now }
{
    match takes {
        Takes::Number { least, most, .. } => number_of(text, least, most).is_some(),
        Takes::Nothing => false,
    }
}

/// The number of an option that has that value, or none.
pub(crate) fn number_by(takes: Takes, value: Option<&[u8]>) -> u32
    ensures { result ≡ number_by takes (option_map (λ v. v.now) value.entry) }
{
    match takes {
        Takes::Number {
            least,
            most,
            default,
        } => value
            .and_then(|text| number_of(text, least, most))
            .unwrap_or(default.unwrap_or(least)),
        Takes::Nothing => 0,
    }
}

/// Where the first `=` stands.
fn first_equals(text: &[u8]) -> Option<usize>
    ensures { result ≡ position (λ octet. octet == 61) text.now }
{
    text.iter().position(|octet| *octet == b'=')
}

/// The name that a word has behind two hyphens, and the value where it stands in the same word, behind `=`.
#[tactic(auto, unfolding(crate::specs::Options::named))]
fn named(word: &[u8]) -> Option<(&[u8], Option<&[u8]>)>
    ensures { option_map (λ n. (n.0.now, option_copied n.1)) result ≡ named word.now }
{
    let [b'-', b'-', text @ ..] = word else {
        return None;
    };
    match first_equals(text) {
        None => Some((text, None)),
        Some(at) => Some((&text[..at], Some(&text[at + 1..]))),
    }
}

/// Does the word name the option of that name?
#[tactic(auto, unfolding(crate::specs::Options::names))]
fn names(name: &[u8], word: &[u8]) -> bool
    ensures { result ≡ names name.now word.now }
{
    match named(word) {
        None => false,
        Some((other, _)) => other == name,
    }
}

/// The first of the options that has that name.
fn option_named(options: &[Name], name: &[u8]) -> Option<Name>
    ensures { result ≡ option_named options.now name.now }
{
    options
        .iter()
        .copied()
        .find(|option| text_of(*option).as_bytes() == name)
}

/// What waits for its value behind the word that names an option. None where the word is not right.
fn after_option(option: Name, value: Option<&[u8]>) -> Option<Option<Name>>
    ensures { result ≡ after_option option (takes_of option) (option_map (λ v. v.now) value.entry) }
{
    let takes = takes_of(option);
    match (takes, value) {
        (Takes::Number { .. }, None) => Some(Some(option)),
        (Takes::Number { .. }, Some(value)) => may_have(takes, value).then_some(None),
        (Takes::Nothing, None) => Some(None),
        (Takes::Nothing, Some(_)) => None,
    }
}

/// What waits for its value behind a word, where that option waits, or none. None where the word fits neither.
fn after_word(options: &[Name], waiting: Option<Name>, word: &[u8]) -> Option<Option<Name>>
    ensures { result ≡ after_word options.now waiting word.now }
{
    match waiting {
        Some(option) => may_have(takes_of(option), word).then_some(None),
        None => {
            let (name, value) = named(word)?;
            let option = option_named(options, name)?;
            after_option(option, value)
        }
    }
}

/// Does each word name an option, or is the value of the one before it?
fn all_fit(options: &[Name], words: &[String]) -> bool
    ensures { result ≡ all_fit options.now None (map string_bytes words.now) }
{
    let mut waiting = None;
    for word in words {
        match after_word(options, waiting, word.as_bytes()) {
            Some(next) => waiting = next,
            None => return false,
        }
    }
    waiting.is_none()
}

/// Does a word name the option of that name?
pub(crate) fn is_given(words: &[String], name: &[u8]) -> bool
    ensures { result ≡ is_given (map string_bytes words.now) name.now }
{
    for word in words {
        if names(name, word.as_bytes()) {
            return true;
        }
    }
    false
}

/// Does one of these words name the option that the word names?
fn is_given_again(words: &[String], word: &[u8]) -> bool
    ensures { result ≡ is_given_again (map string_bytes words.now) (named word.now) }
{
    match named(word) {
        None => false,
        Some((name, _)) => is_given(words, name),
    }
}

/// Do no two words name one option?
fn each_once(words: &[String]) -> bool
    ensures { result ≡ each_once (map string_bytes words.now) }
{
    let mut left = words;
    while let [word, others @ ..] = left {
        if is_given_again(others, word.as_bytes()) {
            return false;
        }
        left = others;
    }
    true
}

/// Is each option given that is required?
fn has_required(options: &[Name], words: &[String]) -> bool
    ensures { result ≡ has_required options.now (map string_bytes words.now) }
{
    options.iter().all(|option| {
        !is_required(takes_of(*option)) || is_given(words, text_of(*option).as_bytes())
    })
}

/// Do the words give some of these options, each at most once, and all that are required?
#[tactic(auto, unfolding(crate::specs::Options::are_options))]
pub(crate) fn are_options(options: &[Name], words: &[String]) -> bool
    ensures { result ≡ are_options options.now (map string_bytes words.now) }
{
    all_fit(options, words) && each_once(words) && has_required(options, words)
}

/// The value of the option of that name.
#[tactic(auto, unfolding(crate::specs::Options::names))]
fn value_in<'a>(name: &[u8], words: &'a [String]) -> Option<&'a [u8]>
    ensures { option_map (λ v. v.now) result ≡ value_in name.now (map string_bytes words.now) }
{
    let mut left = words;
    while let [word, others @ ..] = left {
        if let Some((other, value)) = named(word.as_bytes()) {
            if other == name {
                return value.or(others.first().map(String::as_bytes));
            }
        }
        left = others;
    }
    None
}

/// The number of an option.
#[tactic(auto, unfolding(crate::specs::Options::number_in))]
pub(crate) fn number_in(words: &[String], option: Name) -> u32
    ensures { result ≡ number_in (map string_bytes words.now) option }
{
    number_by(
        takes_of(option),
        value_in(text_of(option).as_bytes(), words),
    )
}

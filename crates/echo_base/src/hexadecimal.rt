//! Texts of hexadecimal digits.

ghost use Rattle.std.specs.Prelude.{◌≡◌, ◌*◌, ◌<◌, ℕ, length, true, IfOk, Ok, Err, Some, MatchOption, slice_index_or, string_bytes};
ghost use Rattle.std.specs.List.{list_all};
ghost use Rattle.hex.specs.Hex.{decode_of, decode_pairs, encode_lower, hex_digit_value, is_hex_digit, lower_digits, pair_value};
ghost use Rattle.hex.specs.declared.error.FromHexError.{FromHexError};
ghost use Rattle.echo_base.specs.Hex.{StandsFor};

use crate::OutOfMemory;
use std::alloc::Global;

/// Is it a hexadecimal digit, in either case?
fn is_digit(digit: u8) -> bool
    ensures { result ≡ is_hex_digit digit }
{
    (b'0'..=b'9').contains(&digit) | (b'a'..=b'f').contains(&digit) | (b'A'..=b'F').contains(&digit)
}

/// Are all of them hexadecimal digits? Each is looked at, whatever the others are, so that the machine looks at many at a time.
fn are_digits(text: &[u8]) -> bool
    ensures { result ≡ list_all is_hex_digit text.now }
{
    let mut are = true;
    for digit in text {
        are = are & is_digit(*digit);
    }
    are
}

/// The value of a hexadecimal digit.
fn digit_value(digit: u8) -> u8
    requires { is_hex_digit digit ≡ true }
    ensures value { hex_digit_value digit ≡ Some result }
    ensures small { result < 16 }
{
    if digit <= b'9' {
        digit - b'0'
    } else if digit <= b'F' {
        digit - b'A' + 10
    } else {
        digit - b'a' + 10
    }
}

/// The octet that two digits stand for.
fn octet_of(high: u8, low: u8) -> u8
    requires high { is_hex_digit high ≡ true }
    requires low { is_hex_digit low ≡ true }
    ensures { (place : ℕ) → pair_value high low place ≡ Ok result }
{
    digit_value(high) * 16 + digit_value(low)
}

/// Fills octets with those that the digits of a text stand for, two an octet.
fn fill(octets: &mut [u8], text: &[u8])
    requires digits { list_all is_hex_digit text.now ≡ true }
    requires length { length text.now ≡ 2 * length octets.old }
    ensures { decode_pairs 0 text.now ≡ Ok octets.new }
{
    for i in 0..octets.len() {
        octets[i] = octet_of(text[2 * i], text[2 * i + 1]);
    }
}

/// Puts the octets that a text of hexadecimal digits in either case stands for, two an octet, in place of what the vector holds, and
/// tells whether it is such a text. Of another text, and for want of memory, it is not said what the vector then holds.
pub fn read_hex(octets: &mut Vec<u8>, text: &[u8]) -> Result<bool, OutOfMemory>
    ensures { IfOk result (StandsFor text.now octets.new.items) }
{
    if text.len() % 2 != 0 || !are_digits(text) {
        return Ok(false);
    }
    octets.resize(text.len() / 2, 0)?;
    fill(octets, text);
    Ok(true)
}

/// The octets of a text of hexadecimal digits in either case, two an octet, and None for another text.
pub fn decode_hex(alloc: Global, text: &[u8]) -> Result<Option<Vec<u8>>, OutOfMemory>
    ensures { IfOk result (λ octets. MatchOption octets ((e : FromHexError) × (decode_of text.now ≡ Err e))
        (λ octets. decode_of text.now ≡ Ok octets.items)) }
{
    let mut octets = Vec::new(alloc);
    if read_hex(&mut octets, text)? {
        Ok(Some(octets))
    } else {
        Ok(None)
    }
}

/// The digit of a value below 16, in lower case.
#[tactic(auto, using(crate::proofs::Digits::digit_below_ten, crate::proofs::Digits::digit_from_ten))]
fn digit_of(value: u8) -> u8
    requires { value < 16 }
    ensures { result ≡ slice_index_or lower_digits value 0 }
{
    if value < 10 {
        value + b'0'
    } else {
        value - 10 + b'a'
    }
}

/// Fills digits with those of octets, two an octet, in lower case.
fn fill_digits(digits: &mut [u8], octets: &[u8])
    requires { length digits.old ≡ 2 * length octets.now }
    ensures { digits.new ≡ encode_lower octets.now }
{
    for i in 0..octets.len() {
        digits[2 * i] = digit_of(octets[i] / 16);
        digits[2 * i + 1] = digit_of(octets[i] % 16);
    }
}

/// The hexadecimal digits of octets, two an octet, in lower case. It fails for want of memory alone.
pub fn encode_hex(alloc: Global, octets: &[u8]) -> Result<String, OutOfMemory>
    ensures { IfOk result (λ text. string_bytes text ≡ encode_lower octets.now) }
{
    let mut digits = vec![in alloc; 0u8; 2 * octets.len()]?;
    fill_digits(&mut digits, octets);
    match String::from_utf8(digits) {
        Ok(text) => Ok(text),
        Err(_) => unreachable!(),
    }
}

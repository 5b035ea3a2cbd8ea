//! Numbers as digits of a base, each digit in an octet.

ghost use Rattle.std.specs.Prelude.{◌≡◌, ℕ, ◌^◌, ◌<◌, ◌≤◌, Option, IfSome, length};
ghost use Rattle.tlv_elements.specs.Digits.{number_from};

/// How an octet stands for a digit of a base.
pub trait Digit {
    /// The base.
    ghost base: { ℕ };

    /// The digit of an octet, where it stands for one.
    ghost digit: { ℕ → Option ℕ };

    /// The base.
    fn base() -> u64
        ensures { result ≡ base };

    /// The digit of an octet, where it stands for one.
    fn read(octet: u8) -> Option<u8>
        ensures value { result ≡ digit octet }
        ensures range { IfSome result (λ d. d < base) };
}

/// The number whose digits the octets stand for, the highest first.
pub fn number_of<D: Digit>(octets: &[u8]) -> Option<u64>
    requires { D.base ^ length octets.now ≤ 2 ^ 64 }
    ensures value { result ≡ number_from D.digit D.base 0 octets.now }
    ensures range { IfSome result (λ n. n < D.base ^ length octets.now) }
{
    let mut number: u64 = 0;
    for octet in octets {
        let digit = D::read(*octet)?;
        number = D::base() * number + u64::from(digit);
    }
    Some(number)
}

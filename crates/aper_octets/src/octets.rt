//! Pieces that begin at an octet, read from left to right.

ghost use Rattle.std.specs.Prelude.{◌≡◌, ◌≢◌, ℕ, ◌+◌, ◌*◌, ◌<◌, ◌≤◌, List, ◌∷◌, [], ◌++◌, IfNone, IfSome, length};
ghost use Rattle.protocol_ies.specs.Criticalities.{criticality_number};
ghost use Rattle.aper_octets.specs.Octets.{count_octets, counted, least_octets, number_octets, ie_octets};

use s1ap_ies::Criticality;

/// The first octet, and what stands behind it.
#[inline(always)]
pub fn one(octets: &[u8]) -> Option<(u8, &[u8])>
    ensures octets { IfSome result (λ x. octets.now ≡ x.0 ∷ x.1.now) }
    ensures none { IfNone result (octets.now ≡ []) }
{
    let [a, rest @ ..] = octets else {
        return None;
    };
    Some((*a, rest))
}

/// The first three octets, and what stands behind them.
#[inline(always)]
pub fn three(octets: &[u8]) -> Option<(u8, u8, u8, &[u8])>
    ensures octets { IfSome result (λ x. octets.now ≡ x.0 ∷ x.1 ∷ x.2 ∷ x.3.now) }
    ensures none { IfNone result (length octets.now < 3) }
{
    let [a, b, c, rest @ ..] = octets else {
        return None;
    };
    Some((*a, *b, *c, rest))
}

/// The length that two octets tell, where one would not hold it.
fn long_count(a: u8, b: u8) -> Option<usize>
    ensures octets { IfSome result (λ n. count_octets n ≡ a ∷ b ∷ []) }
    ensures few { IfSome result (λ n. n < 16384) }
    ensures none { IfNone result ((n : ℕ) → n < 16384 → count_octets n ≢ a ∷ b ∷ []) }
{
    if a >= 192 || u16::from(a) * 256 + u16::from(b) < 32896 {
        return None;
    }
    Some(usize::from(a) * 256 + usize::from(b) - 32768)
}

/// A length, and what stands behind it.
#[inline(always)]
#[tactic(auto, using(crate::proofs::Lengths::short_count))]
fn count(octets: &[u8]) -> Option<(usize, &[u8])>
    ensures octets { IfSome result (λ x. octets.now ≡ count_octets x.0 ++ x.1.now) }
    ensures few { IfSome result (λ x. x.0 < 16384) }
    ensures none { IfNone result ((n : ℕ) (rest : List ℕ) → n < 16384 → octets.now ≢ count_octets n ++ rest) }
{
    let (a, rest) = one(octets)?;
    if a < 128 {
        return Some((usize::from(a), rest));
    }
    let (b, rest) = one(rest)?;
    Some((long_count(a, b)?, rest))
}

/// Octets behind their length, and what stands behind them.
#[inline(always)]
pub fn counted(octets: &[u8]) -> Option<(&[u8], &[u8])>
    ensures octets { IfSome result (λ x. octets.now ≡ counted x.0.now ++ x.1.now) }
    ensures few { IfSome result (λ x. length x.0.now < 16384) }
    ensures none { IfNone result ((content rest : List ℕ) → length content < 16384 → octets.now ≢ counted content ++ rest) }
{
    let (n, rest) = count(octets)?;
    if rest.len() < n {
        return None;
    }
    let (front, back) = rest.split_at(n);
    Some((front, back))
}

/// What an IE contains, and what stands behind it. An item of a list has the same form.
#[inline(always)]
pub fn ie(octets: &[u8], id: u16, criticality: Criticality) -> Option<(&[u8], &[u8])>
    ensures octets { IfSome result (λ x. octets.now ≡ ie_octets id (criticality_number criticality) x.0.now ++ x.1.now) }
    ensures few { IfSome result (λ x. length x.0.now < 16384) }
    ensures none { IfNone result ((content rest : List ℕ) → length content < 16384 → octets.now ≢ ie_octets id (criticality_number criticality) content ++ rest) }
{
    let (high, low, third, rest) = three(octets)?;
    if high != 0 || u16::from(low) != id || third != 64 * criticality.number() {
        return None;
    }
    counted(rest)
}

/// A number of at least one octet more than another, which is not 0.
#[tactic(auto, using(crate::proofs::Numbers::least_more))]
fn behind(high: u64, low: u8) -> Option<u64>
    ensures octets { IfSome result (λ n. least_octets n ≡ least_octets high ++ low ∷ []) }
    ensures none { IfNone result (0 < high → 4294967296 ≤ high) }
{
    if high == 0 || high >= 4294967296 {
        return None;
    }
    Some(high * 256 + u64::from(low))
}

/// A number that goes on for so many octets more, and what stands behind it.
fn longer(high: u64, octets: &[u8], more: u8) -> Option<(u64, &[u8])>
    requires { 0 < more }
    ensures octets { IfSome result (λ x. least_octets high ++ octets.now ≡ least_octets x.0 ++ x.1.now) }
    ensures count { IfSome result (λ x. length (least_octets x.0) ≡ length (least_octets high) + more) }
    ensures none { IfNone result ((n : ℕ) (rest : List ℕ) → n < 1099511627776 → length (least_octets n) ≡ length (least_octets high) + more
        → least_octets high ++ octets.now ≢ least_octets n ++ rest) }
{
    let (low, rest) = one(octets)?;
    let n = behind(high, low)?;
    if more == 1 {
        return Some((n, rest));
    }
    longer(n, rest, more - 1)
}

/// A number in so many octets, and what stands behind it.
#[inline(always)]
#[tactic(auto, using(crate::proofs::Numbers::least_one))]
fn least(octets: &[u8], count: u8) -> Option<(u64, &[u8])>
    requires { 0 < count }
    ensures octets { IfSome result (λ x. octets.now ≡ least_octets x.0 ++ x.1.now) }
    ensures count { IfSome result (λ x. length (least_octets x.0) ≡ count) }
    ensures none { IfNone result ((n : ℕ) (rest : List ℕ) → n < 1099511627776 → length (least_octets n) ≡ count → octets.now ≢ least_octets n ++ rest) }
{
    let (first, rest) = one(octets)?;
    if count == 1 {
        return Some((u64::from(first), rest));
    }
    longer(u64::from(first), rest, count - 1)
}

/// The count less one that an octet tells: it counts in units, and some bits stand before it.
#[inline(always)]
#[tactic(auto, using(crate::proofs::Numbers::count_head))]
fn count_in(head: u8, before: u8, unit: u8) -> Option<u8>
    requires { 0 < unit }
    ensures head { IfSome result (λ k. head ≡ before + unit * k) }
    ensures few { IfSome result (λ k. k ≤ 4) }
    ensures none { IfNone result ((k : ℕ) → k ≤ 4 → head ≢ before + unit * k) }
{
    if head < before {
        return None;
    }
    let above = head - before;
    if above % unit != 0 {
        return None;
    }
    let count = above / unit;
    if count > 4 {
        return None;
    }
    Some(count)
}

/// A number behind the octet with the count of its octets less one, and what stands behind it. In that octet the count counts
/// in units, and some bits stand before it.
#[inline(always)]
pub fn number(octets: &[u8], before: u8, unit: u8) -> Option<(u64, &[u8])>
    requires { 0 < unit }
    ensures octets { IfSome result (λ x. octets.now ≡ number_octets before unit x.0 ++ x.1.now) }
    ensures none { IfNone result ((n : ℕ) (rest : List ℕ) → n < 1099511627776 → octets.now ≢ number_octets before unit n ++ rest) }
{
    let (head, rest) = one(octets)?;
    let count = count_in(head, before, unit)?;
    let (n, more) = least(rest, count + 1)?;
    Some((n, more))
}

/// The same, where it is below 2^32.
#[inline(always)]
pub fn id(octets: &[u8], before: u8, unit: u8) -> Option<(u32, &[u8])>
    requires { 0 < unit }
    ensures octets { IfSome result (λ x. octets.now ≡ number_octets before unit x.0 ++ x.1.now) }
    ensures none { IfNone result ((n : ℕ) (rest : List ℕ) → n < 4294967296 → octets.now ≢ number_octets before unit n ++ rest) }
{
    let (n, rest) = number(octets, before, unit)?;
    if n >= 4294967296 {
        return None;
    }
    Some((n as u32, rest))
}

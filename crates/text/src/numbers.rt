// Number fields: decimal digits with no plus and no leading zero, at most eleven of them.
ghost use Rattle.std.specs.Prelude.{◌≡◌, ◌^◌, ◌<◌, ◌≤◌, length, IfSome, if◌then◌else◌, Some, None};
ghost use Rattle.std.specs.Str.Parse.{digits_value};
ghost use Rattle.std.specs.Str.{all_ascii_digits};
ghost use Rattle.text.specs.Numbers.{sized, unpadded, numeral, signed_numeral, plus, minus, NumberLaws};

fn is_sized(s: &[u8]) -> bool
    ensures { result ≡ sized s.now }
{
    (1..=11).contains(&s.len())
}

fn is_unpadded(s: &[u8]) -> bool
    ensures { result ≡ unpadded s.now }
{
    !matches!(s, [b'0', _, ..])
}

// The number that so few digits write, or None where one is no digit. That it is below 10 ^ 11 is a clause here and below: a type
// for it would be taken apart again by each of four short functions.
// A loop and no fold: that the number fits rests on how many digits were read, which the closure of a fold cannot know.
fn digits(s: &[u8]) -> Option<u64>
    requires { length s.now ≤ 11 }
    ensures same { result ≡ (if all_ascii_digits s.now then Some (digits_value 10 s.now) else None) }
    ensures few { IfSome result (λ n. n < 10 ^ 11) }
{
    let mut n: u64 = 0;
    for b in s {
        if !b.is_ascii_digit() {
            return None;
        }
        n = n * 10 + u64::from(*b - b'0');
    }
    Some(n)
}

// The number that a field writes, or None where it is malformed.
#[tactic(auto, unfolding(crate::specs::Numbers::numeral))]
pub fn number(s: &[u8]) -> Option<u64>
    ensures same { result ≡ numeral s.now }
    ensures few { IfSome result (λ n. n < 10 ^ 11) }
{
    if is_sized(s) && is_unpadded(s) {
        digits(s)
    } else {
        None
    }
}

fn positive(n: Option<u64>) -> Option<i64>
    requires { IfSome n (λ k. k < 10 ^ 11) }
    ensures { result ≡ plus n }
{
    n.map(|k| k as i64)
}

fn negative(n: Option<u64>) -> Option<i64>
    requires { IfSome n (λ k. k < 10 ^ 11) }
    ensures { result ≡ minus n }
{
    n.filter(|k| *k > 0).map(|k| -(k as i64))
}

// The signed number that a field writes: a minus stands only before a nonzero number.
#[tactic(auto, using(crate::proofs::Signs::signed_plus, crate::proofs::Signs::signed_minus), unfolding(crate::specs::Numbers::signed_numeral))]
pub fn signed(s: &[u8]) -> Option<i64>
    ensures { result ≡ signed_numeral s.now }
{
    match s {
        [b'-', rest @ ..] => negative(number(rest)),
        _ => positive(number(s)),
    }
}

// Numbers and their texts fix each other.
pub fn numbers_stand() -> bool
    ensures { NumberLaws }
{
    true
}

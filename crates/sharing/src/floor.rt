ghost use Rattle.std.specs.Prelude.{◌≡◌, pos, ◌<ℤ◌};
ghost use Rattle.sharing.specs.Floor.{floor_div, Floored};

// Over a divisor above nil, Euclid's quotient is the one rounded down. A function of its own: a
// division that rounds otherwise is refused right at this contract.
fn quotient(a: i128, b: i128) -> i128
    requires { pos 0 <ℤ b }
    ensures { result ≡ floor_div a b }
{
    a.div_euclid(b)
}

// a / b rounded toward minus infinity; nil where b is not above nil.
pub fn floor_div(a: i128, b: i128) -> i128
    ensures value { result ≡ floor_div a b }
    ensures rounded { pos 0 <ℤ b → Floored a b result }
{
    if b <= 0 {
        return 0;
    }
    quotient(a, b)
}

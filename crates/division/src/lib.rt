// Division by shifts and subtractions, for a processor that has no divide instruction.
#![tactic(auto)]

ghost use Rattle.std.specs.Prelude.{◌*◌, ◌/◌, ◌%◌, ◌^◌, ◌<◌, ◌≡◌};

#[derive(Clone, Copy)]
pub struct Divided {
    pub quotient: u32,
    pub remainder: u32,
}

// Quotient and remainder of a number below d * 2^bits, in one step for each of the quotient's bits, from the highest on.
pub fn divide(n: u32, d: u32, bits: u32) -> Divided
    requires n_bound { n < d * 2 ^ bits }
    requires bits_bound { d * 2 ^ bits < 2 ^ 32 }
    ensures quotient_value { result.quotient ≡ n / d }
    ensures remainder_value { result.remainder ≡ n % d }
{
    let mut quotient = 0;
    let mut remainder = n;
    for k in (0..bits).rev() {
        quotient *= 2;
        let part = d << k;
        if part <= remainder {
            remainder -= part;
            quotient += 1;
        }
    }
    Divided {
        quotient,
        remainder,
    }
}

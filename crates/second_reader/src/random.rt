// Numbers that look random and are the same in every run.
ghost use Rattle.std.specs.Prelude.{◌<◌};

// A number times an odd constant, modulo 2^32, whose upper bits then change the lower ones.
fn scrambled(a: u32) -> u32 {
    let product = a.wrapping_mul(0x9E37_79B1);
    product ^ (product >> 15)
}

// A number for packet n. Each draw has a number of its own, so that a draw does not depend on which others were made.
fn mixed(n: u32, draw: u32) -> u32 {
    let a = scrambled(n.wrapping_add(1));
    scrambled(scrambled(scrambled(a.wrapping_add(draw))))
}

// A draw for packet n, below a limit.
pub(crate) fn drawn(n: u32, draw: u32, limit: u32) -> u32
    requires { 0 < limit }
    ensures { result < limit }
{
    mixed(n, draw) % limit
}

// The integers of the distance test: small numbers, none of which overflows.
ghost use Rattle.std.specs.Prelude.{◌≡◌, ◌-◌, ◌<◌, pos, neg_ℤ, nat_abs, ◌+ℤ◌, ◌*ℤ◌};

// −n
pub(crate) fn minus(n: u32) -> i32
    requires { n < 64 }
    ensures { result ≡ neg_ℤ (pos n) }
{
    -(n as i32)
}

// z + n
pub(crate) fn shifted(z: i32, n: u32) -> i32
    requires { (nat_abs z < 64) × (n < 256) }
    ensures { result ≡ z +ℤ pos n }
{
    z + n as i32
}

// n × z
pub(crate) fn scaled(n: u16, z: i32) -> i32
    requires { nat_abs z < 512 }
    ensures value { result ≡ pos n *ℤ z }
    ensures result_bound { nat_abs result < 33554432 }
{
    n as i32 * z
}

// n − |z|, and 0 where |z| is above n
pub(crate) fn remaining(n: u32, z: i32) -> u32
    requires { nat_abs z < 512 }
    ensures { result ≡ n - nat_abs z }
{
    n.saturating_sub(z.unsigned_abs())
}

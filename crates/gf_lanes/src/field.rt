ghost use Rattle.std.specs.Prelude.{◌≡◌, ◌≢◌, ◌<◌, ℕ};
ghost use Rattle.gf_lanes.specs.Field.{double, product};
ghost use Rattle.gf_lanes.specs.Laws.{IsField};

/// The low byte of the field's polynomial, which takes the place of a carry.
pub const REDUCTION: u8 = 0x1d;

/// Twice a number: shifted left by one, and reduced where bit 7 was set.
fn double(a: u8) -> u8
    ensures { result ≡ double a }
{
    (a << 1) ^ ((a >> 7) * REDUCTION)
}

/// The product of two numbers of the field: the sum of `a` doubled i times, over the set bits i of `b`. With exclusive
/// or as the sum, the bytes are a field.
pub fn gf_mul(a: u8, b: u8) -> u8
    ensures value { result ≡ product a b }
    ensures laws { IsField product }
{
    let mut sum = 0;
    let mut doubled = a;
    for bit in 0..u8::BITS {
        sum ^= (b >> bit & 1) * doubled;
        doubled = double(doubled);
    }
    sum
}

/// The one number whose product with `a` is 1. It is the power 254 of `a`, since the power 255 is 1.
pub fn gf_inv(a: u8) -> u8
    requires { a ≢ 0 }
    ensures inverse { product a result ≡ 1 }
    ensures only { (other : ℕ) → other < 256 → product a other ≡ 1 → other ≡ result }
{
    let mut square = a;
    let mut inverse = 1;
    for _ in 0..u8::BITS - 1 {
        square = gf_mul(square, square);
        inverse = gf_mul(inverse, square);
    }
    inverse
}

#[cfg(test)]
mod tests {
    use super::*;

    // By hand: 2 has the powers 0x1d at 8, 0x3a at 9 and 0x13 at 14, and twice 0x8e is 0x11c, so 1.
    #[test]
    fn products_by_hand(rt: HostRuntime) {
        let cases = [
            (0x80, 2, 0x1d),
            (0x1d, 2, 0x3a),
            (0x87, 1, 0x87),
            (0, 0xff, 0),
            (0x53, 0, 0),
            (0x8e, 2, 1),
            (3, 3, 5),
            (0x10, 0x10, 0x1d),
            (0x80, 0x80, 0x13),
        ];
        for (a, b, product) in cases {
            assert_eq!(rt; gf_mul(a, b), product, "{a} times {b}");
        }
        assert_eq!(rt; gf_inv(1), 1);
        assert_eq!(rt; gf_inv(2), 0x8e);
    }
}

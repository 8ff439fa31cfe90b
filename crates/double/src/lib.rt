// Doubles: what the kernel needs of IEEE 754's binary64 beyond the operators.
#![tactic(auto)]

ghost use Rattle.std.specs.Prelude.{◌≡◌, not, ◌&&◌};
ghost use lib.Ieee.{binary64, lt, of_bits, to_bits};
ghost use Rattle.std.specs.Float.Ieee.Scale.{finite};
ghost use Rattle.double.specs.Double.{greater, magnitude, decoded};

// x - x is 0 where x is finite, and NaN elsewhere, of which no comparison holds. Here and in the next three one comparison tells all;
// std's `is_finite` asks x - x == 0, for which two flags are read.
pub fn is_finite(x: f64) -> bool
    ensures { result ≡ finite x }
{
    0.0 <= x - x
}

pub fn all_finite(x: f64, y: f64, z: f64) -> bool
    ensures { result ≡ (finite x && (finite y && finite z)) }
{
    0.0 <= (x - x) + (y - y) + (z - z)
}

// Finite, and not below zero.
pub fn is_nonnegative(x: f64) -> bool
    ensures { result ≡ (finite x && not (lt x (of_bits binary64 0))) }
{
    x - x <= x
}

// Finite, and above zero.
pub fn is_positive(x: f64) -> bool
    ensures { result ≡ (finite x && lt (of_bits binary64 0) x) }
{
    x - x < x
}

// This and `abs` are std's; their contracts say it by IEEE 754's words, as this crate's other tests do.
pub fn is_nan(x: f64) -> bool
    ensures { result ≡ lib.Ieee.is_nan x }
{
    x.is_nan()
}

// The greater of two, passing over a NaN: Rust's `f64::max`, which leaves open which of two zeros it answers. This one answers the first.
pub fn max(x: f64, y: f64) -> f64
    ensures { result ≡ greater x y }
{
    if x < y {
        return y;
    }
    if x.is_nan() { y } else { x }
}

pub fn abs(x: f64) -> f64
    ensures { result ≡ magnitude x }
{
    x.abs()
}

// The 64 bits of x for printing: every NaN is 7ff8000000000000.
pub fn to_bits(x: f64) -> u64
    ensures { result ≡ to_bits binary64 x }
{
    if x.is_nan() {
        return 0x7ff8_0000_0000_0000;
    }
    f64::to_bits(x)
}

// What 64 bits stand for. (No `Option`: an infinity keeps its sign.)
#[derive(Clone, Copy)]
pub enum Decoded {
    Finite(f64),
    Infinite(bool),
    NotANumber,
}

// (No `From<u64>`: that would be any number's conversion, and what is read here are bits; it pairs with `to_bits`.)
pub fn from_bits(b: u64) -> Decoded
    ensures { result ≡ decoded b }
{
    let exponent = b % 0x8000_0000_0000_0000 / 0x10_0000_0000_0000;
    if exponent < 2047 {
        return Decoded::Finite(f64::from_bits(b));
    }
    if b % 0x10_0000_0000_0000 == 0 {
        return Decoded::Infinite(0x8000_0000_0000_0000 <= b);
    }
    Decoded::NotANumber
}

// What a formula asks of one f64, and its bit pattern both ways: each answer for every f64. Most are the library's own
// functions, whose contracts are said here in the words of this repository's formulas.
#![tactic(auto)]

ghost use Rattle.std.specs.Prelude.{◌≡◌};
ghost use Rattle.std.specs.Float.{binary32, binary64};
ghost use Rattle.std.specs.Float.Ieee.{to_bits};
ghost use Rattle.std.specs.Float.Ieee.Scale.{finite};
ghost use Rattle.exact.specs.F64.{f64, mark, magnitude, is_zero};

// 0.0 where x is finite, and NaN elsewhere. Marks may be added: many numbers share one comparison, of their sum with
// itself, where two comparisons of each number with the infinities cost far more.
pub fn mark(x: f64) -> f64
    ensures { result ≡ mark (finite x) }
{
    x - x
}

// Whether x is a number, and neither a NaN nor an infinity.
#[tactic(auto, using(crate::proofs::Tests::finite_is))]
pub fn is_finite(x: f64) -> bool
    ensures { result ≡ finite x }
{
    x.is_finite()
}

// x without its sign: 0.0 for both zeros.
#[tactic(auto, using(crate::proofs::Tests::size_is))]
pub fn magnitude(x: f64) -> f64
    ensures { result ≡ magnitude x }
{
    x.abs()
}

// Whether x is a zero, of either sign.
pub fn is_zero(x: f64) -> bool
    ensures { result ≡ is_zero x }
{
    x == 0.0
}

// The bit pattern of x, and for every NaN the same one.
pub fn to_bits(x: f64) -> u64
    ensures { result ≡ to_bits binary64 x }
{
    std::num::f64_to_bits_with_nan(x)
}

// The same of an f32.
pub fn to_bits32(x: f32) -> u32
    ensures { result ≡ to_bits binary32 x }
{
    std::num::f32_to_bits_with_nan(x)
}

// The f64 of a bit pattern. Every pattern of a NaN gives a NaN.
pub fn of_bits(bits: u64) -> f64
    ensures { result ≡ f64 bits }
{
    std::num::f64_from_bits_with_nan(bits)
}

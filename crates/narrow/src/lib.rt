// The f32 nearest to an f64, by f64 operations that round where an f32 ends. The last of them gives a number that an
// f32 holds, so that the cast loses nothing. The library's nearest_f64_to_f32_with_nan gives the same, with 67
// instructions for a number of a table where these are 13.
#![tactic(auto)]

ghost use Rattle.std.specs.Prelude.{◌≡◌};
ghost use Rattle.narrow.specs.Narrow.{narrowed};

// 2^-251: the square of a number that is larger than every subnormal f32, and less than 2^-125 in size.
const LEAST_SQUARE: f64 = 2.7635739376302223e-76;

// The square of 2^128 - 2^103, from where on an f64 rounds past the largest f32. The f64 before it has another square.
const LARGE_SQUARE: f64 = 1.1579208233556995e+77;

// 2^29: an f64 has 29 digits more than an f32.
const SCALE: f64 = 536870912.0;

// 2^925: the smallest f32 over the smallest f64. And its inverse.
const UP: f64 = 2.83625966735417e+278;

const DOWN: f64 = 3.5257702653609953e-279;

// The f32 nearest to x, and of two that are as near the even one. A NaN stays a NaN and an infinity an infinity. What
// rounds past the largest f32 gives the infinity of its sign. The square tells sizes apart with no sign to ask for, and
// a NaN's passes no test.
pub fn narrow(x: f64) -> f32
    ensures { result ≡ narrowed x }
{
    let square = x * x;
    if square >= LEAST_SQUARE {
        if square >= LARGE_SQUARE {
            // an f64 doesn't hold this either
            return (x * UP) as f32;
        }
        // The leading digit of x, 29 places up. Beside it the sum has room for 24 digits of x: the addition does the
        // rounding, and what it leaves off is gone when the power is taken away again.
        let power = f64::from_bits(f64::to_bits(x * SCALE) >> 52 << 52);
        return (x + power - power) as f32;
    }
    if x != x {
        return 0.0 / 0.0;
    }
    // Among the smallest f64s, where the smallest f32s have their places among the f32s, the same digits are kept. A
    // zero has x's sign.
    (x * DOWN * UP) as f32
}

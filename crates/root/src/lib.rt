// The square root of an f64, correctly rounded, by shifts, subtractions and comparisons only.
//
// A number above zero is brought to the form n * 4^k with n of 105 or 106 binary digits. The root of
// n has 53 digits. The first is 1, and the other 52 are found one by one, as in finding a root by
// hand: a digit is 1 where the square then still fits. What the digits' square leaves of n says at
// the end whether the root lies nearer to the next number.
#![tactic(auto)]

ghost use Rattle.std.specs.Prelude.{◌≡◌, ◌+◌, ◌*◌, ◌/◌, ◌^◌, ◌<◌};
ghost use Rattle.exact.specs.F64.{f64};
ghost use Rattle.root.specs.Root.{root};
ghost use Rattle.root.specs.Digits.{Digit, Found, Finer, Nearer, Split, Start, number};

const INFINITY: u64 = 0x7ff0_0000_0000_0000;

// The weight of a significand's leading digit, which the pattern leaves out: 2^52.
const LEAD: u64 = 0x10_0000_0000_0000;

// A root on its way. `twice` is two times the digits found so far, and `rest` is what their square
// leaves of n, counted in steps of the last digit's weight, so that both stay below 2^56.
#[derive(Debug, Clone, Copy, PartialEq, Eq)]
pub struct Partial {
    pub rest: u64,
    pub twice: u64,
}

// A number above zero: its significand, less the leading digit, and the power of two that stands
// beside the significand with 52 zeros after it.
#[derive(Debug, Clone, Copy, PartialEq, Eq)]
pub struct Scaled {
    pub tail: u64,
    pub power: u64,
}

// One digit: 1 where `cost` can be taken off the rest.
fn digit(p: Partial, cost: u64, next: u64) -> Partial
    ensures { Digit p cost next result }
{
    if cost <= p.rest {
        Partial {
            rest: p.rest - cost,
            twice: next,
        }
    } else {
        p
    }
}

// Two digits more, from those of weight `from` to those of weight `to`, a quarter of it. With the
// root q so far, the digits of weight 2 * to and to cost what (q + digit)^2 has over q^2, in steps
// of `to`: 4 * q + 4 * to and 2 * q + to.
fn pair(p: Partial, from: u64, to: u64) -> Partial
    requires { (from ≡ 4 * to) × Found from p }
    ensures { Finer to (number from p) result }
{
    let next = p.twice + from;
    let wide = Partial {
        rest: p.rest << 2,
        twice: p.twice,
    };
    let half = digit(wide, next + p.twice, next);
    let cost = half.twice + to;
    digit(half, cost, cost + to)
}

// Four digits more, from those of weight `from` to those of a sixteenth of it.
fn four(p: Partial, from: u64) -> Partial
    requires { (from ≡ 16 * (from / 16)) × Found from p }
    ensures { Finer (from / 16) (number from p) result }
{
    let to = from >> 4;
    let mid = to << 2;
    pair(pair(p, from, mid), mid, to)
}

// All 52 digits after the first. Two rounds of four to a turn leave less to count than one.
fn digits(rest: u64) -> Partial
    requires { rest < 3 * 2 ^ 52 }
    ensures { Finer 1 (rest * 2 ^ 52 + 2 ^ 52 * 2 ^ 52) result }
{
    let mut p = Partial {
        rest,
        twice: 0x20_0000_0000_0000,
    };
    for turn in 0..6u32 {
        let from = LEAD >> (8 * turn);
        let mid = four(p, from);
        p = four(mid, from >> 4);
    }
    four(p, 16)
}

// A number's significand and power, a subnormal's brought up to its leading digit.
fn take_apart(bits: u64) -> Scaled
    requires { (0 < bits) × (bits < 0x7ff0_0000_0000_0000) }
    ensures { Split bits result }
{
    let field = bits >> 52;
    let tail = bits % LEAD;
    if field == 0 {
        let zeros = tail.leading_zeros() as u64;
        Scaled {
            tail: (tail << (zeros - 11)) - LEAD,
            power: 1033 - zeros,
        }
    } else {
        Scaled {
            tail,
            power: field + 1021,
        }
    }
}

// What the root's first digit leaves of the number whose root is sought. An odd power lends one of
// its twos to the significand.
fn first_rest(s: Scaled) -> u64
    requires { s.tail < 2 ^ 52 }
    ensures { Start s result }
{
    if s.power % 2 == 1 {
        (s.tail << 1) + LEAD
    } else {
        s.tail
    }
}

// The root by all its digits, or the next number, whichever is nearer. (q + 1/2)^2 is q^2 + q + 1/4,
// so the rest q is still below the middle and q + 1 is above it: no root lies in the middle.
fn nearer(p: Partial) -> u64
    requires { p.twice < 2 ^ 54 }
    ensures { Nearer p result }
{
    let q = p.twice >> 1;
    if q < p.rest { q + 1 } else { q }
}

// The root of a number above zero, by its bit pattern. The root's power is half of the number's.
fn above_zero(bits: u64) -> f64
    requires { (0 < bits) × (bits < 0x7ff0_0000_0000_0000) }
    ensures { result ≡ root (f64 bits) }
{
    let s = take_apart(bits);
    let q = nearer(digits(first_rest(s)));
    let half = s.power >> 1;
    f64::from_bits((half << 52) + q)
}

// The f64 nearest to the root of x. A zero keeps its sign, a negative number and a NaN give a NaN,
// and infinity gives itself.
pub fn root(x: f64) -> f64
    ensures { result ≡ root x }
{
    if x > 0.0 {
        let bits = x.to_bits();
        if bits < INFINITY {
            return above_zero(bits);
        }
        return x;
    }
    if x < 0.0 {
        return 0.0 / 0.0;
    }
    x
}

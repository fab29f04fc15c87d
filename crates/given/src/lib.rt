// What a call over bytes gives back: a number, and what it was lent, written only if the number is 0.
#![tactic(auto)]

ghost use Rattle.std.specs.Prelude.{◌≡◌};
ghost use Rattle.given.specs.Given.{flag_number, code};

// What a call is answered: the operation's own number, or 7 if the buffer is not of the answer's length, the lower of
// the two where both refuse. It is a number, and no enum, since C is told a byte.
pub fn code(own: u8, right: bool) -> u8
    ensures { result ≡ code own right }
{
    if right {
        return own;
    }
    if own == 0 {
        return 7;
    }
    if own < 7 { own } else { 7 }
}

// A flag as a number: 1 is yes.
pub fn flag_number(flag: bool) -> u64
    ensures { result ≡ flag_number flag }
{
    u64::from(flag)
}

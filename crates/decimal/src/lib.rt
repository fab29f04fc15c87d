// What our texts share: where a byte stands; and a number in decimal, 1 to 4 digits, the first not 0.
#![tactic(auto)]

ghost use Rattle.std.specs.Prelude.{◌≡◌, ◌≤◌, length};
ghost use Rattle.decimal.specs.Text.{all, place};
ghost use Rattle.decimal.specs.Decimal.{digit, number_in, said};

// Where the first b stands, or the length.
pub fn place(text: &[u8], b: u8) -> usize
    ensures { result ≡ place b text.now }
{
    text.iter().position(|x| *x == b).unwrap_or(text.len())
}

// Whether b is one of 0 to 9.
pub fn digit(b: u8) -> bool
    ensures { result ≡ digit b }
{
    b.is_ascii_digit()
}

// The number that at most 4 bytes say, if each is a digit.
fn read(field: &[u8]) -> Option<usize>
    requires { length field.now ≤ 4 }
    ensures { result ≡ said (all digit field.now) field.now }
{
    let mut n = 0;
    for b in field {
        if !digit(*b) {
            return None;
        }
        n = n * 10 + usize::from(*b - b'0');
    }
    Some(n)
}

// The number that a field says.
pub fn number_in(field: &[u8]) -> Option<usize>
    ensures { result ≡ number_in field.now }
{
    if 0 < field.len() && field.len() <= 4 && field[0] != b'0' {
        read(field)
    } else {
        None
    }
}

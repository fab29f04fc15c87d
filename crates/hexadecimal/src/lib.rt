// Reads a number as our texts spell it: 16 hexadecimal digits in lower case, as of an f64's bit pattern.
#![tactic(auto)]

ghost use Rattle.std.specs.Prelude.{◌≡◌, length};
ghost use Rattle.hexadecimal.specs.Hex.{digit, spelled, after, ends, field, fields, every_field};

// A field of a line of numbers: 16 digits and the byte after them.
const FIELD: usize = 17;

// The value of a digit; no other byte has one.
pub fn digit(b: u8) -> Option<u8>
    ensures { result ≡ digit b }
{
    match b {
        b'0'..=b'9' => Some(b - b'0'),
        b'a'..=b'f' => Some(b - b'a' + 10),
        _ => None,
    }
}

// The number that text spells, if it is 16 digits and nothing else.
pub fn spelled(text: &[u8]) -> Option<u64>
    ensures { result ≡ spelled text.now }
{
    if text.len() != 16 {
        return None;
    }
    let mut number = 0;
    for b in text {
        number = number * 16 + u64::from(digit(*b)?);
    }
    Some(number)
}

// The number that line spells after word, if it starts with word.
pub fn after(word: &[u8], line: &[u8]) -> Option<u64>
    ensures { result ≡ after word.now line.now }
{
    spelled(line.strip_prefix(word)?)
}

// Whether what follows a field's digits ends it: a tab and more, or a newline and no more.
fn ends(rest: &[u8]) -> bool
    ensures { result ≡ ends rest.now }
{
    match rest {
        [] => false,
        [last] => *last == b'\n',
        [next, ..] => *next == b'\t',
    }
}

// The number in field k of a line, if the line has so many.
pub fn field(line: &[u8], k: usize) -> Option<u64>
    ensures { result ≡ field line.now k }
{
    if k < line.len() / FIELD {
        let start = k * FIELD;
        let stop = start + 16;
        if ends(&line[stop..]) {
            return spelled(&line[start..stop]);
        }
    }
    None
}

// Reads as many fields of a line as there are places, the first into the first: 0 where there is none. Answers whether
// all are there, and no Option: the places hold the fields that are there even where one is missing.
pub fn fields(line: &[u8], numbers: &mut [u64]) -> bool
    ensures is { result ≡ every_field line.now 0 (length numbers.old) }
    ensures puts { numbers.new ≡ fields line.now 0 (length numbers.old) }
{
    let mut all = true;
    for (i, number) in numbers.iter_mut().enumerate() {
        let read = field(line, i);
        *number = read.unwrap_or(0);
        all &= read.is_some();
    }
    all
}

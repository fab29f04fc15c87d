// A line of bit patterns behind a word of six letters, as the second line of a camera file is, whose word is `params`:
// read, and written. Reading makes no list of patterns: the k-th one stands at a fixed place.
#![tactic(auto)]

ghost use Rattle.std.specs.Prelude.{◌≡◌, ◌+◌, ◌*◌, ◌/◌, ◌≤◌, ◌<◌, ◌∷◌, leb, length, get_or, is_some};
ghost use Rattle.io.specs.Digits.{last_digits};
ghost use Rattle.put_text.specs.Placed.{written, with_text, placed};
ghost use Rattle.decimal.specs.Text.{tab};
ghost use Rattle.params_line.specs.Params.{fields, word_line, field, fielded, many, is_line, params_of, at};

// The line's word has six letters, whichever it is; a field after it is a tab and 16 digits.
const WORD: usize = 6;

const FIELD: usize = 17;

// Whether a part of a line starts with a field.
fn is_field(chunk: &[u8]) -> bool
    requires { length chunk.now ≤ 17 }
    ensures { result ≡ is_some (field chunk.now) }
{
    hexadecimal::after(b"\t", chunk).is_some()
}

// Whether n fields stand there, and then a newline and no more.
fn fielded(line: &[u8], n: usize) -> bool
    requires { n ≡ length line.now / 17 }
    ensures { result ≡ fielded n line.now }
{
    for i in 0..n {
        let start = i * FIELD;
        let end = start + FIELD;
        if !is_field(&line[start..end]) {
            return false;
        }
    }
    let last = n * FIELD;
    &line[last..] == b"\n".as_slice()
}

// How many fields a line has room for.
pub fn many(line: &[u8]) -> usize
    ensures { result ≡ many line.now }
{
    line.len().saturating_sub(WORD) / FIELD
}

// Whether a text is a line of that word, with one field or more.
pub fn is_line(word: &[u8], line: &[u8]) -> bool
    ensures { result ≡ is_line word.now line.now }
{
    let n = many(line);
    0 < n && &line[..WORD] == word && fielded(&line[WORD..], n)
}

// The k-th pattern of a line that has one.
fn field_at(line: &[u8], k: usize) -> u64
    requires { k < many line.now }
    ensures { result ≡ get_or (params_of line.now) k 0 }
{
    let start = k * FIELD + WORD;
    let end = start + FIELD;
    hexadecimal::after(b"\t", &line[start..end]).unwrap_or(0)
}

// The k-th pattern of a line, and 0 if it has none.
pub fn bits_at(line: &[u8], k: usize) -> u64
    ensures { result ≡ get_or (params_of line.now) k 0 }
{
    if k < many(line) { field_at(line, k) } else { 0 }
}

// The k-th parameter of a line, and 0.0 if it has none.
pub fn at(line: &[u8], k: usize) -> f64
    ensures { result ≡ at (params_of line.now) k }
{
    exact::of_bits(bits_at(line, k))
}

// Puts a tab and the 16 digits of a pattern at place at of out, if they fit there. The kit's io writes the digits: std
// says which bytes it prints only to a String, which needs heap.
fn put_field(out: &mut [u8], at: usize, bits: u64) -> usize
    ensures { written out.new result ≡
        placed (written out.old at) (tab ∷ last_digits 16 16 bits) }
{
    let mut digits = [0u8; 16];
    let k = io::hex(bits, 16, &mut digits);
    let mut text = [b'\t'; FIELD];
    let end = put_text::put(&mut text, 1, &digits[..k]);
    put_text::put(out, at, &text[..end])
}

// Puts a field for each number, and the line's end, for which there is room.
fn put_fields(out: &mut [u8], at: usize, numbers: &[u64]) -> usize
    requires { at + length (fields numbers.now) ≤ length out.old }
    ensures { written out.new result ≡
        with_text (written out.old at) (fields numbers.now) }
{
    let mut next = at;
    for bits in numbers {
        next = put_field(out, next, *bits);
    }
    put_text::put(out, next, b"\n")
}

// Whether a word, so many fields and a newline fit between place at and the end of a buffer.
fn has_room(long: usize, at: usize, word: usize, many: usize) -> bool
    ensures { result ≡ leb (at + (word + (many * 17 + 1))) long }
{
    at < long && word < long - at && many <= (long - at - word - 1) / FIELD
}

// Puts the line of a word and its numbers at place at of out, if it fits between there and the end, and answers the
// place behind it. Else out is left as it is, and at is answered.
pub fn put_line(out: &mut [u8], at: usize, word: &[u8], numbers: &[u64]) -> usize
    ensures { written out.new result ≡
        placed (written out.old at) (word_line word.now numbers.now) }
{
    if !has_room(out.len(), at, word.len(), numbers.len()) {
        return at;
    }
    let next = put_text::put(out, at, word);
    put_fields(out, next, numbers)
}

// A camera of ours as OpenCV's camera matrix and list of coefficients, and back: the text of the one in, the text of
// the other out, or one line that says which refusal. The numbers are bit patterns all the way: none is worked out, and
// so the bits that come out are those that went in.
#![tactic(auto)]

ghost use Rattle.std.specs.Prelude.{◌≡◌, ◌≤◌, length, drop};
ghost use Rattle.io.specs.Counts.{IsPrefixLen};
ghost use Rattle.lens.specs.Judgement.{verdict};
ghost use Rattle.lens.specs.Rows.{first};
ghost use Rattle.decimal.specs.Text.{all};
ghost use Rattle.params_line.specs.Params.{params_of};
ghost use Rattle.put_text.specs.Placed.{written, placed};
ghost use Rattle.opencv.specs.Text.{ours, theirs, text_of, are_theirs, LineEnd};
ghost use Rattle.opencv.specs.Moved.{finite_bits, zero_bits, of_ours, of_theirs, our_params, their_matrix};
ghost use Rattle.opencv.specs.Moved.{their_coeffs, fixed, counted, plain, number_rows, rows, moved, answered};
ghost use Rattle.opencv.specs.Moved.{lines_moved, converted};

use lens::Refusal;

// The most bytes that a text has.
pub const LONGEST: usize = 4096;

// Room for all that is answered, whatever the text: the longest is a matrix line of 160 bytes and a coeffs line of 143.
pub const OUTPUT: usize = 303;

// The pattern of 1.0.
const ONE: u64 = 0x3ff0_0000_0000_0000;

// A camera's numbers as bit patterns, by the names that both sides have for them.
#[derive(Clone, Copy, Debug, PartialEq, Eq)]
pub struct Twelve {
    pub fx: u64,
    pub fy: u64,
    pub cx: u64,
    pub cy: u64,
    pub k1: u64,
    pub k2: u64,
    pub p1: u64,
    pub p2: u64,
    pub k3: u64,
    pub k4: u64,
    pub k5: u64,
    pub k6: u64,
}

// Whether a pattern is of a number, and neither of a NaN nor of an infinity.
fn is_finite(bits: u64) -> bool
    ensures { result ≡ finite_bits bits }
{
    exact::is_finite(exact::of_bits(bits))
}

// Whether a pattern is of a zero, of either sign.
fn is_zero(bits: u64) -> bool
    ensures { result ≡ zero_bits bits }
{
    exact::is_zero(exact::of_bits(bits))
}

// Whether every pattern is of a number.
fn all_finite(numbers: &[u64]) -> bool
    ensures { result ≡ all finite_bits numbers.now }
{
    numbers.iter().all(|n| is_finite(*n))
}

// The numbers of a params line: ours.
fn from_params(line: &[u8]) -> Twelve
    ensures { result ≡ of_ours (params_of line.now) }
{
    Twelve {
        fx: params_line::bits_at(line, 0),
        fy: params_line::bits_at(line, 1),
        cx: params_line::bits_at(line, 2),
        cy: params_line::bits_at(line, 3),
        k1: params_line::bits_at(line, 4),
        k2: params_line::bits_at(line, 5),
        p1: params_line::bits_at(line, 6),
        p2: params_line::bits_at(line, 7),
        k3: params_line::bits_at(line, 8),
        k4: params_line::bits_at(line, 9),
        k5: params_line::bits_at(line, 10),
        k6: params_line::bits_at(line, 11),
    }
}

// The numbers of a matrix line and a coeffs line: theirs. A coefficient that is missing is +0.
fn from_matrix(matrix: &[u8], coeffs: &[u8]) -> Twelve
    ensures { result ≡ of_theirs (params_of matrix.now) (params_of coeffs.now) }
{
    Twelve {
        fx: params_line::bits_at(matrix, 0),
        fy: params_line::bits_at(matrix, 4),
        cx: params_line::bits_at(matrix, 2),
        cy: params_line::bits_at(matrix, 5),
        k1: params_line::bits_at(coeffs, 0),
        k2: params_line::bits_at(coeffs, 1),
        p1: params_line::bits_at(coeffs, 2),
        p2: params_line::bits_at(coeffs, 3),
        k3: params_line::bits_at(coeffs, 4),
        k4: params_line::bits_at(coeffs, 5),
        k5: params_line::bits_at(coeffs, 6),
        k6: params_line::bits_at(coeffs, 7),
    }
}

// Our line of these numbers.
fn put_params(out: &mut [u8], n: Twelve) -> usize
    ensures { written out.new result ≡
        placed (written out.old 0) (text_of (ours (our_params n))) }
{
    let params = [
        n.fx, n.fy, n.cx, n.cy, n.k1, n.k2, n.p1, n.p2, n.k3, n.k4, n.k5, n.k6,
    ];
    params_line::put_line(out, 0, b"params", &params)
}

// Their two lines of these numbers, for which there is room.
fn put_matrix(out: &mut [u8], n: Twelve) -> usize
    requires { 303 ≤ length out.old }
    ensures { written out.new result ≡
        placed (written out.old 0) (text_of (theirs (their_matrix n) (their_coeffs n))) }
{
    let matrix = [n.fx, 0, n.cx, 0, n.fy, n.cy, 0, 0, ONE];
    let coeffs = [n.k1, n.k2, n.p1, n.p2, n.k3, n.k4, n.k5, n.k6];
    let next = params_line::put_line(out, 0, b"matrix", &matrix);
    params_line::put_line(out, next, b"coeffs", &coeffs)
}

// 4, 5.
fn judge_numbers(n: Twelve) -> Result<(), Refusal>
    ensures { verdict result ≡ first (number_rows n) }
{
    let params = [
        n.fx, n.fy, n.cx, n.cy, n.k1, n.k2, n.p1, n.p2, n.k3, n.k4, n.k5, n.k6,
    ];
    if !all_finite(&params) {
        return Err(Refusal::NotFinite);
    }
    if is_zero(n.fx) || is_zero(n.fy) {
        return Err(Refusal::ZeroFocalLength);
    }
    Ok(())
}

// Whether a matrix has zeros for its skew and its lower entries, and 1 last.
fn is_fixed(matrix: &[u8]) -> bool
    ensures { result ≡ fixed (params_of matrix.now) }
{
    if !is_zero(params_line::bits_at(matrix, 1))
        || !is_zero(params_line::bits_at(matrix, 3))
        || !is_zero(params_line::bits_at(matrix, 6))
        || !is_zero(params_line::bits_at(matrix, 7))
    {
        return false;
    }
    params_line::bits_at(matrix, 8) == ONE
}

// Whether so many coefficients are taken.
#[tactic(auto, unfolding(crate::specs::Moved::counted))]
fn is_counted(n: usize) -> bool
    ensures { result ≡ counted n }
{
    matches!(n, 4 | 5 | 8 | 12 | 14)
}

// Whether the coefficients past the eighth are zeros.
fn are_zeros(coeffs: &[u8]) -> bool
    ensures { result ≡ all zero_bits (drop 8 (params_of coeffs.now)) }
{
    let n = params_line::many(coeffs);
    for k in 8..n {
        if !is_zero(params_line::bits_at(coeffs, k)) {
            return false;
        }
    }
    true
}

// Whether our parameters can hold a camera of theirs.
fn is_plain(matrix: &[u8], coeffs: &[u8]) -> bool
    ensures { result ≡ plain (params_of matrix.now) (params_of coeffs.now) }
{
    if params_line::many(matrix) != 9
        || !is_fixed(matrix)
        || !is_counted(params_line::many(coeffs))
    {
        return false;
    }
    are_zeros(coeffs)
}

// 3, and then 4 and 5.
fn judge_params(line: &[u8]) -> Result<(), Refusal>
    ensures { verdict result ≡ first (rows (ours (params_of line.now))) }
{
    if params_line::many(line) == 12 {
        judge_numbers(from_params(line))
    } else {
        Err(Refusal::WrongCount)
    }
}

// 17, and then 4 and 5.
fn judge_matrix(matrix: &[u8], coeffs: &[u8]) -> Result<(), Refusal>
    ensures { verdict result ≡
        first (rows (theirs (params_of matrix.now) (params_of coeffs.now))) }
{
    if is_plain(matrix, coeffs) {
        judge_numbers(from_matrix(matrix, coeffs))
    } else {
        Err(Refusal::NotOurs)
    }
}

// Our camera as theirs.
fn move_ours(line: &[u8], out: &mut [u8]) -> usize
    requires { 303 ≤ length out.old }
    ensures { written out.new result ≡
        placed (written out.old 0) (moved (ours (params_of line.now))) }
{
    match judge_params(line) {
        Ok(()) => put_matrix(out, from_params(line)),
        Err(refusal) => listing_lines::refused_line(out, 0, refusal),
    }
}

// Their camera as ours.
fn move_theirs(matrix: &[u8], coeffs: &[u8], out: &mut [u8]) -> usize
    ensures { written out.new result ≡
        placed
        (written out.old 0)
        (moved (theirs (params_of matrix.now) (params_of coeffs.now))) }
{
    match judge_matrix(matrix, coeffs) {
        Ok(()) => put_params(out, from_matrix(matrix, coeffs)),
        Err(refusal) => listing_lines::refused_line(out, 0, refusal),
    }
}

// Whether two lines are a matrix line and a coeffs line.
fn are_theirs(matrix: &[u8], coeffs: &[u8]) -> bool
    ensures { result ≡ are_theirs matrix.now coeffs.now }
{
    params_line::is_line(b"matrix", matrix) && params_line::is_line(b"coeffs", coeffs)
}

// Where the first line ends, behind its newline.
fn line_end(text: &[u8]) -> usize
    ensures { LineEnd text.now result }
{
    let end = decimal::place(text, b'\n');
    if end < text.len() { end + 1 } else { end }
}

// What two lines give: 14, if they aren't theirs.
fn answer_theirs(matrix: &[u8], coeffs: &[u8], out: &mut [u8]) -> usize
    ensures { written out.new result ≡
        placed (written out.old 0) (lines_moved matrix.now coeffs.now) }
{
    if are_theirs(matrix, coeffs) {
        move_theirs(matrix, coeffs, out)
    } else {
        listing_lines::refused_line(out, 0, Refusal::NotTheForm)
    }
}

// 14 for a text that is too long, and then what either text gives.
fn answer(text: &[u8], out: &mut [u8]) -> usize
    requires { 303 ≤ length out.old }
    ensures { written out.new result ≡
        placed (written out.old 0) (answered text.now) }
{
    if LONGEST < text.len() {
        return listing_lines::refused_line(out, 0, Refusal::NotTheForm);
    }
    if params_line::is_line(b"params", text) {
        return move_ours(text, out);
    }
    let end = line_end(text);
    answer_theirs(&text[..end], &text[end..], out)
}

// Writes the other text of a camera, or the line of a refusal, to the start of out, and answers how many bytes that is.
// A buffer of fewer than OUTPUT bytes is left as it is, and 0 is answered.
pub fn convert(text: &[u8], out: &mut [u8]) -> usize
    ensures result_after { written out.new result ≡ converted text.now out.old }
    ensures prefix_len { IsPrefixLen result out.new }
{
    if out.len() < OUTPUT {
        return 0;
    }
    answer(text, out)
}

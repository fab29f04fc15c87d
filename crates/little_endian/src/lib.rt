// Numbers as bytes, the least first: read out of any bytes, and put into a buffer that the caller lends, at any place.
#![tactic(auto)]

ghost use Rattle.std.specs.Prelude.{◌≡◌, ◌+◌, ◌-◌, ◌*◌, ◌^◌, ◌≤◌, ◌<◌, length, get_or, take, drop};
ghost use Rattle.std.proofs.lemmas.List.Edits.{sets};
ghost use Rattle.little_endian.specs.Bytes.{value, bytes, half, word, float, floats, put};

// The number of all bytes from place at on, where they are fewer than eight. It is seldom asked for, and so is kept out
// of its callers' code: one that reads twelve numbers runs 171 instructions, and with this loop laid out in it 320.
#[inline(never)]
fn last(bytes: &[u8], at: usize) -> u64
    requires { (at ≤ length bytes.now) × (length bytes.now < at + 8) }
    ensures { (result ≡ value (drop at bytes.now)) × (result < 256 ^ length (drop at bytes.now)) }
{
    let mut number = 0;
    for byte in bytes[at..].iter().rev() {
        number = number * 256 + *byte as u64;
    }
    number
}

// The number of the four bytes from place at on. Past the end stand zeros.
pub fn half(bytes: &[u8], at: usize) -> u32
    ensures { result ≡ half bytes.now at }
{
    let Some(rest) = bytes.get(at..) else {
        return 0;
    };
    match rest.first_chunk() {
        Some(four) => u32::from_le_bytes(*four),
        None => last(bytes, at) as u32,
    }
}

// The number of the eight bytes from place at on. Past the end stand zeros.
pub fn word(bytes: &[u8], at: usize) -> u64
    ensures { result ≡ word bytes.now at }
{
    let Some(rest) = bytes.get(at..) else {
        return 0;
    };
    match rest.first_chunk() {
        Some(eight) => u64::from_le_bytes(*eight),
        None => last(bytes, at),
    }
}

// The f64 whose bit pattern they are.
pub fn float(bytes: &[u8], at: usize) -> f64
    ensures { result ≡ float bytes.now at }
{
    exact::of_bits(word(bytes, at))
}

// Writes the lowest bytes of a number, as many as there are places.
fn write(places: &mut [u8], number: u64)
    ensures { places.new ≡ bytes (length places.old) number }
{
    let mut rest = number;
    for place in places {
        *place = (rest % 256) as u8;
        rest = rest / 256;
    }
}

// Writes the eight bytes of a number from place at on.
fn write_eight(out: &mut [u8], at: usize, number: u64)
    requires { at + 8 ≤ length out.old }
    ensures { out.new ≡ sets out.old at (bytes 8 number) }
{
    out[at..at + 8].copy_from_slice(&number.to_le_bytes());
}

// Puts the lowest count bytes of a number at place at, if they fit between there and the end; else out is left alone.
// The compiler writes four and eight of them at once.
pub fn put(out: &mut [u8], at: usize, count: usize, number: u64)
    ensures { out.new ≡ put at (bytes count number) out.old }
{
    if at <= out.len() && count <= out.len() - at {
        let places = &mut out[at..at + count];
        match count {
            8 => places.copy_from_slice(&number.to_le_bytes()),
            4 => {
                let [first, second, third, fourth, ..] = number.to_le_bytes();
                places.copy_from_slice(&[first, second, third, fourth]);
            }
            _ => write(places, number),
        }
    }
}

// Puts the bit patterns of numbers at place at, one after the other, if all fit. Every NaN is put as 7ff8000000000000.
pub fn put_floats(out: &mut [u8], at: usize, numbers: &[f64])
    ensures { out.new ≡ put at (floats numbers.now) out.old }
{
    if at <= out.len() && numbers.len() <= (out.len() - at) / 8 {
        for (i, number) in numbers.iter().enumerate() {
            write_eight(out, at + 8 * i, exact::to_bits(*number));
        }
    }
}

// Text put into a buffer that the caller lends: whole where it fits, else not at all. A place stands beside the buffer,
// since no library here may use the heap that a String needs.
#![tactic(auto)]

ghost use Rattle.std.specs.Prelude.{◌≡◌};
ghost use Rattle.put_text.specs.Placed.{written, placed};

// Puts text at place at of out, if it fits between there and the end, and answers the place behind it. Else out is left
// as it is, and at is answered.
pub fn put(out: &mut [u8], at: usize, text: &[u8]) -> usize
    ensures { written out.new result ≡ placed (written out.old at) text.now }
{
    if out.len() < at || out.len() - at < text.len() {
        return at;
    }
    let end = at + text.len();
    out[at..end].copy_from_slice(text);
    end
}

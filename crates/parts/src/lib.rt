// What programs share beside std: the first bytes of a buffer, files by name, and the cases that a program which only
// tests reads and answers.
#![tactic(auto)]

mod cases;
mod files;

ghost use Rattle.std.specs.Prelude.{cond, ◌≡◌, ltb, length};
ghost use Rattle.io.specs.Counts.{IsPrefixLen};

pub use cases::{
    Out, answer_all, answer_cases, answer_lines, answer_text, fill, numbers, read_full, read_part,
    say_floats,
};
pub use files::{Blame, Failure, argument, is_given, open};

// n, where buf has so many bytes, else 0. `&buf[..n]` then needs no proof.
pub fn held(n: usize, buf: &[u8]) -> usize
    ensures value { result ≡ cond (ltb (length buf.now) n) 0 n }
    ensures prefix_len { IsPrefixLen result buf.now }
{
    if buf.len() < n { 0 } else { n }
}

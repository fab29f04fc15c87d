// The table printer: a camera file in, the listing of its table out, or one line that says which refusal.
#![tactic(auto)]

// One byte more than a camera file may have: a longer one is seen to be longer and refused, not cut.
const INPUT: usize = 4097;

// What can't be written is let go: nobody is left to tell.
fn main(rt: HostRuntime) {
    let mut input = [0; INPUT];
    let mut output = [0; printer::OUTPUT];
    let printed = printer::print(parts::read_full(&mut rt.reader(), &mut input), &mut output);
    let _ = rt.write_all(&output[..printed]);
}

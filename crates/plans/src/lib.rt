// The plan of a table: what its units are and what a build of it owes, for any border, any sampler and any kind of
// cell. Nothing runs here: specs/ and proofs/ say it, and the code that builds a table hands this struct from turn to
// turn.
#![tactic(auto)]

use region::Region;

// How far a build has come: the units done, the edges of the points found so far, the region once it is worked out, the
// updates of the samples, how many of the samples had a flag that said no, and which was the first of these: its
// position, counted from 1, and 0 for none.
#[derive(Clone, Copy)]
pub struct Progress {
    pub done: usize,
    pub edges: Region,
    pub region: Region,
    pub updates: u32,
    pub unsettled: usize,
    pub first: usize,
}

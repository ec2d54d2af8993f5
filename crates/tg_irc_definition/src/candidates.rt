/// What is known of a node before a round: in how many places of the code it is used or defined, 0
/// for a register, and whether it is a temporary that spilling has made.
#[derive(Clone, Copy)]
pub struct NodeFacts {
    pub uses: u32,
    pub made: bool,
}

/// A class of temporaries that may be spilled. `temp` is the number of the temporary under which it
/// stands, `degree` counts its neighbours among the remaining nodes, `uses` is the sum over its
/// members, and `made` is true where spilling has made all of them.
#[derive(Clone, Copy)]
pub struct Candidate {
    pub temp: u32,
    pub degree: u32,
    pub uses: u32,
    pub made: bool,
}

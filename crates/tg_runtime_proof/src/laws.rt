// The law of the runtime speaks of any run by steps, so trees, and trees whose static links are
// looked at, share it.

ghost use Rattle.tg_runtime_proof.specs.laws.Serving.{
  LinkedAreServed,
  RuntimeIsCorrect,
  TreesAreServed,
};

/// The runtime serves: each of its functions does what the standard function (or the creation of an
/// object) of its name does, in any code that has it and for frames of any size.
pub fn runtime_is_correct()
    ensures { RuntimeIsCorrect }
{}

/// So its calls are served in a run of trees.
pub fn trees_are_served()
    ensures { TreesAreServed }
{}

/// And in a run with static links.
pub fn linked_are_served()
    ensures { LinkedAreServed }
{}

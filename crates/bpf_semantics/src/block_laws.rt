//! A run on a packet is the same run inside of a block that holds the packet. Each law is the contract of a function.

ghost use Rattle.bpf_semantics.specs.Laws.{StartInside, StepInside, StepsInside, FinishesInside, StateInside, AccessesInside, HeadOfBlock, BlockOfFrame};

/// The start on the packet is the start on the block, with the packet's start and length in r1 and r2.
pub fn start_inside()
    ensures { StartInside }
{}

/// A step on the packet is a step inside of the block.
pub fn step_inside()
    ensures { StepInside }
{}

/// Any number of steps from the start on the packet are as many inside of the block.
pub fn steps_inside()
    ensures { StepsInside }
{}

/// A run that ends on the packet ends inside of the block with the same number.
pub fn finishes_inside()
    ensures { FinishesInside }
{}

/// What stands inside of the block for a state is a state.
pub fn state_inside()
    ensures { StateInside }
{}

/// An access of a step inside of the block lies in the packet or in the cells of a frame in which it lies on the packet.
pub fn accesses_inside()
    ensures { AccessesInside }
{}

/// The first eight bytes of a block tell the packet's length, or more than there is room for, and then the packet stands.
pub fn head_of_block()
    ensures { HeadOfBlock }
{}

/// A frame behind its length is the packet that the block holds, cut to the room that is there.
pub fn block_of_frame()
    ensures { BlockOfFrame }
{}

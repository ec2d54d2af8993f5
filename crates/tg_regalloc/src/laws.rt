ghost use Rattle.tg_regalloc.specs.mirror.InFrame.{StaysShort};

/// The law that code in the frame is at most four instructions, and at most ten words of code, for
/// each instruction.
pub fn in_frame_is_bounded()
    ensures { StaysShort }
{}

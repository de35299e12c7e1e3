ghost use Rattle.qmux_frame.specs.Laws.{WrittenIsRead};

/// The law that what is written is one whole message, whose head and TLVs read as they were written.
pub fn written_is_read()
    ensures { WrittenIsRead }
{}

//! What is proved of digits, numbers and frames as a whole, each as the contract of a function.

ghost use Rattle.frames.specs.Theorems.{WrittenBytesReadBack, WrittenNumbersReadBack};
ghost use Rattle.frames.specs.Theorems.{WrittenFramesReadBack, LinesSayOneThing, LinesAreCutOneWay};

/// The written digits of bytes read back as these bytes.
pub fn written_bytes_read_back()
    ensures { WrittenBytesReadBack }
{}

/// The bytes of a number read back as this number, and the other way round.
pub fn written_numbers_read_back()
    ensures { WrittenNumbersReadBack }
{}

/// The written digits of a frame read back as this frame.
pub fn written_frames_read_back()
    ensures { WrittenFramesReadBack }
{}

/// A line says one thing at most.
pub fn lines_say_one_thing()
    ensures { LinesSayOneThing }
{}

/// A text is cut into lines in one way.
pub fn lines_are_cut_one_way()
    ensures { LinesAreCutOneWay }
{}

// The image of a text is told twice: by two passes, which give the first fault its line, and by
// where items and labels stand (`Placement.antt`). `text_is_placed` ties the second to the
// first; that each image of a text is the one that its readings tell isn't proved.

ghost use Rattle.tg_asm_text.specs.laws.Laws.{LinesHaveImage, ReadingsHaveImage};

/// The law of an assembly text: its image is that of its readings. The code and the statics are the
/// items in order, the statics with their padding, and a label is where the next item of its
/// segment begins.
pub fn text_is_placed()
    ensures image { ReadingsHaveImage }
{}

/// The law of a text that is put together from lines: it has their image and no fault, where their
/// labels differ, the labels that they name stand and are within reach, `main` is in the code, and
/// the segments' limits hold.
pub fn lines_have_image()
    ensures { LinesHaveImage }
{}

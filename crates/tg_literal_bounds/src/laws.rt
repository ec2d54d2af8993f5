ghost use Rattle.tg_literal_bounds.specs.laws.Laws.{
  LiteralsAreFew,
  LiteralsFitText,
  StaticsFitSegment,
  StaticsFitText,
  StringsAreShort,
  StringsAreTokens,
  StringsFitText,
  TreesAreOfWords,
};

use tg_translate_laws::literals_are_strings;

/// The law that the ints of a text's tree are below 2^31, and its strings are bytes. It does
/// nothing.
pub fn trees_are_of_words()
    ensures { TreesAreOfWords }
{}

/// The law that the strings of a program's tree are those of its tokens, in the order of the text.
/// It does nothing.
pub fn strings_are_tokens()
    ensures { StringsAreTokens }
{}

/// Laws of the strings of a text: with two quotes for each and a byte between any two they have at
/// most the bytes of the text. They do nothing.
pub fn strings_fit_text()
    ensures fit { StringsFitText }
    ensures short { StringsAreShort }
{}

/// Laws of the literals that the program of a text of n bytes is translated to: there are at most
/// (n + 1) / 3; together they are at most a byte for each, and one more, longer than the text; and
/// in the statics they take at most 2 n + 2 bytes, so that those of a source fit their segment.
pub fn literals_fit_text()
    ensures few { LiteralsAreFew }
    ensures fit { LiteralsFitText }
    ensures statics { StaticsFitText }
    ensures segment { StaticsFitSegment }
{
    literals_are_strings();
}

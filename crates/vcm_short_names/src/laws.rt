//! Laws of the definitions, each the contract of a function without a body.

ghost use Rattle.vcm_short_names.specs.Laws.{PiecesAreTheText, ShortTextsHaveNoNames, ShortTextsStay, NamesAreApart, NamesAreNoWords, ShortNamesAreNames, OtherWordsStay};

/// The pieces of a text, one behind the other, are the text: no byte is lost.
pub fn pieces_are_the_text()
    ensures { PiecesAreTheText }
{}

/// A text without a long word stays as it is, and has no names.
pub fn short_texts_stay()
    ensures names { ShortTextsHaveNoNames }
    ensures text { ShortTextsStay }
{}

/// No two long names get the same short one, and none gets a word of the text; and each short name is a name of the language.
pub fn short_names_are_new()
    ensures apart { NamesAreApart }
    ensures words { NamesAreNoWords }
    ensures names { ShortNamesAreNames }
{}

/// Where names are written long again, other words stay as they are.
pub fn other_words_stay()
    ensures { OtherWordsStay }
{}

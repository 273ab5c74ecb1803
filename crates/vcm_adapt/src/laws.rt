//! Laws of the definitions, each the contract of a function without a body.

ghost use Rattle.std.specs.Prelude.{◌≡◌, ℕ, List, length};
ghost use Rattle.vcm_adapt.specs.declared.edit.Edit.{Edit};
ghost use Rattle.vcm_num.specs.Lines.{whole_lines};
ghost use Rattle.vcm_adapt.specs.Marks.{restored};
ghost use Rattle.vcm_lines.specs.Statements.{kept_lines, grouped};
ghost use Rattle.std.specs.Str.Lines.{lines};
ghost use Rattle.vcm_adapt.specs.Adapted.{edited_lines, adapted};
ghost use Rattle.vcm_adapt.specs.Read.{AreClosed, seen_lines};
ghost use Rattle.vcm_adapt.specs.Choices.{AreStatements, line_edits, chosen};
ghost use Rattle.vcm_adapt.specs.Laws.{AreNew, KeepNoMark, AllKeep};

/// Line N comes of line N: the lines of the adapted text are those of the text, each as its edit says. So there are as many.
pub fn lines_come_of_lines()
    ensures lines { (edits : List Edit) (text : List ℕ) → AreNew edits → whole_lines (adapted edits text) ≡ edited_lines edits (whole_lines text) }
    ensures count { (edits : List Edit) (text : List ℕ) → AreNew edits → length (whole_lines (adapted edits text)) ≡ length (whole_lines text) }
{}

/// Taking the comments back gives the text, wherever no line with a mark is kept.
pub fn adapted_texts_are_restored()
    ensures { (edits : List Edit) (text : List ℕ) → AreNew edits → KeepNoMark edits (whole_lines text) → restored (adapted edits text) ≡ text }
{}

/// Where all lines are kept, nothing changes, whatever stands in the text.
pub fn kept_texts_stay()
    ensures { (edits : List Edit) (text : List ℕ) → AllKeep edits → adapted edits text ≡ text }
{}

/// The reader of programs sees at each line what the edits say: the line, nothing, or what is put, whose texts are closed and which has no comment.
/// So each statement of the adapted text has the lines that it has in the text.
pub fn programs_are_read_as_the_edits_say()
    ensures { (edits : List Edit) (lines : List (List ℕ)) → AreClosed edits → kept_lines (edited_lines edits lines) ≡ kept_lines (seen_lines edits lines) }
{}

/// What becomes of a statement becomes of all its lines: one that is left out is gone with each of them, and one that is put otherwise stands, alone,
/// on the line of its first.
pub fn statements_become_what_is_chosen()
    ensures { (choices : List Edit) (text : List ℕ) → AreNew choices → AreClosed choices → AreStatements choices
        → grouped (kept_lines (lines (adapted (line_edits choices (lines text)) text))) ≡ chosen choices (grouped (kept_lines (lines text))) }
{}

/// So it is with the lines that a reader of programs takes, which have no endings.
pub fn lines_without_endings_come_of_lines()
    ensures { (edits : List Edit) (text : List ℕ) → AreNew edits → lines (adapted edits text) ≡ edited_lines edits (lines text) }
{}

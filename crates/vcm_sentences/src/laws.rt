//! Laws of the definitions, each the contract of a function without a body.

ghost use Rattle.std.specs.Prelude.{◌≡◌, ◌<◌, ℕ, [], List, length, map, false, Option};
ghost use Rattle.std.specs.List.{filter, flat_map};
ghost use Rattle.vcm_num.specs.Lines.{whole_lines};
ghost use Rattle.vcm_lines.specs.Statements.{lines_of, kept_lines, grouped, bytes_of, first_line};
ghost use Rattle.vcm_lines.specs.declared.fault.SourceFault.{SourceFault};
ghost use Rattle.vcm_sentences.specs.Judged.{IsJudged};
ghost use Rattle.vcm_sentences.specs.Stretches.{text_lines, stretches, raw_of, bytes_in, number_of, is_told, sentences_in, owners_in};
ghost use Rattle.vcm_sentences.specs.Parted.{fields_in};
ghost use Rattle.vcm_sentences.specs.Laws.{kept_in, begun_in, others_in, first_numbers, with_commas};

/// The stretches of a text, one behind the other, are the text: no line is lost, and none is told twice.
pub fn stretches_are_the_text()
    ensures { (text : List ℕ) → flat_map raw_of (stretches false (text_lines text)) ≡ text }
{}

/// The stretches that begin a statement are the statements of the text, one by one and in order: each has their kept lines, and so their line and their bytes, and
/// each is told. The other stretches have no bytes.
pub fn statements_are_told()
    ensures kept { (text : List ℕ) → length (whole_lines text) < 4294967295 → map kept_in (begun_in text) ≡ grouped (kept_lines (lines_of text)) }
    ensures lines { (text : List ℕ) → length (whole_lines text) < 4294967295 → map number_of (begun_in text) ≡ map first_line (grouped (kept_lines (lines_of text))) }
    ensures bytes { (text : List ℕ) → length (whole_lines text) < 4294967295 → map bytes_in (begun_in text) ≡ map bytes_of (grouped (kept_lines (lines_of text))) }
    ensures told { (text : List ℕ) → filter is_told (begun_in text) ≡ begun_in text }
    ensures others { (text : List ℕ) → flat_map bytes_in (others_in text) ≡ [] }
{}

/// Lines are judged in one way: what is told of a sentence is determined by its lines and the number of its first.
pub fn judgements_are_one()
    ensures { (first : ℕ) (text : List ℕ) (x y : Option SourceFault) → IsJudged first text x → IsJudged first text y → x ≡ y }
{}

/// Each line of a text has an owner, and the lines that are the first one of a sentence are those that the sentences begin on, in order.
pub fn lines_have_owners()
    ensures each { (text : List ℕ) → length (owners_in text) ≡ length (whole_lines text) }
    ensures first { (text : List ℕ) → first_numbers (text_lines text) (owners_in text) ≡ map (λ s. s.line) (sentences_in text) }
{}

/// Fields, put together with commas, are what they were read from.
pub fn fields_are_whole()
    ensures { (rest : List ℕ) → with_commas (fields_in rest) ≡ rest }
{}

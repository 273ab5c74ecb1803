//! What becomes of statements about variables of texts: they are put as statements about whole numbers.

ghost use Rattle.std.specs.Prelude.{◌≡◌, ◌++◌, ◌∷◌, [], take, drop, IfOk, OnOk, option_map};
ghost use Rattle.std.specs.List.{flat_map};
ghost use Rattle.std.specs.Vec.Iter.{into_iter_items};
ghost use Rattle.vcm_heads.specs.Heads.{found_or};
ghost use Rattle.vcm_heads.specs.Rows.{words_of};
ghost use Rattle.vcm_compared.specs.Compared.{is_about_texts, has_texts, declares_nothing, put_declared, put_form, from_line, compared_form, on_line, compared_statement, compared_all, compared};

use crate::counted::counted_texts;
use crate::puts::{assignment_of, cases_or, choice_of, declaration_of, is_text_case};
use crate::relations::test_of;
use crate::texts::{Texts, char_at};
use std::alloc::Global;
use std::vec::IntoIter;
use vcm_expr::Expr;
use vcm_forms::{Form, Statement};
use vcm_lines::{Logical, OwnedBytes, Phrase};
use vcm_num::NoMemory;

// Whether a statement declares variables of texts, or is a CASE of texts.
fn is_about_texts(alloc: Global, logical: &Logical) -> Result<bool, NoMemory>
    ensures { IfOk result (λ b. b ≡ is_about_texts logical.now) }
{
    let words = Phrase::of(logical);
    if char_at(&words).is_some() {
        return Ok(true);
    }
    is_text_case(alloc, &words)
}

/// Whether a text declares variables of texts, or has a CASE of texts.
///
/// # Errors
///
/// Out of memory.
pub fn has_texts(alloc: Global, lines: &[Logical]) -> Result<bool, NoMemory>
    ensures { IfOk result (λ b. b ≡ has_texts lines.now) }
{
    for logical in lines {
        if is_about_texts(alloc, logical)? {
            return Ok(true);
        }
    }
    Ok(false)
}

// The statements from the one on a line on.
fn from_line<'a>(line: u32, lines: &'a [Logical]) -> &'a [Logical]
    ensures { result.now ≡ from_line line lines.now }
{
    let mut rest = lines;
    while let Some((logical, behind)) = rest.split_first() {
        if logical.line == line {
            return rest;
        }
        rest = behind;
    }
    rest
}

// An expression that was found, or else this one.
fn found_or(value: Expr, found: Option<Expr>) -> Expr
    ensures { result ≡ found_or value found }
{
    match found {
        Some(other) => other,
        None => value,
    }
}

// One statement.
fn one(alloc: Global, form: Form) -> Result<Vec<Form>, NoMemory>
    ensures { IfOk result (λ fs. fs.items ≡ form ∷ []) }
{
    let mut out = Vec::new(alloc);
    out.push(form)?;
    Ok(out)
}

// What becomes of a declaration.
fn put_declaration(
    alloc: Global,
    texts: &Texts,
    logical: &Logical,
    form: Form,
) -> Result<Vec<Form>, NoMemory>
    ensures { IfOk result (λ fs. fs.items ≡ put_declared texts.now (words_of logical.now) form) }
{
    if is_empty_declaration(&form) {
        declaration_of(alloc, texts, logical)
    } else {
        one(alloc, form)
    }
}

// Whether a statement declares nothing.
fn is_empty_declaration(form: &Form) -> bool
    ensures { result ≡ declares_nothing form.now }
{
    match form {
        Form::Declaration(_, names) => names.is_empty(),
        _ => false,
    }
}

// What becomes of a statement, by its words and the statements behind it.
fn put_form(
    alloc: Global,
    texts: &Texts,
    logical: &Logical,
    below: &[Logical],
    form: Form,
) -> Result<Vec<Form>, NoMemory>
    ensures { IfOk result (λ fs. fs.items ≡ put_form texts.now (words_of logical.now) below.now form) }
{
    let words = Phrase::of(logical);
    match form {
        Form::Assignment(target, value) => {
            let value = found_or(value, assignment_of(texts, &words));
            one(alloc, Form::Assignment(target, value))
        }
        Form::Test(value) => {
            let value = found_or(value, test_of(alloc, texts, &words)?);
            one(alloc, Form::Test(value))
        }
        Form::Choose(value) => {
            let value = found_or(value, choice_of(alloc, texts, &words, below)?);
            one(alloc, Form::Choose(value))
        }
        Form::Case(value) => cases_or(alloc, texts, value, &words),
        form => put_declaration(alloc, texts, logical, form),
    }
}

// What becomes of a statement that the first of these lines says.
fn compared_form(
    alloc: Global,
    texts: &Texts,
    lines: &[Logical],
    form: Form,
) -> Result<Vec<Form>, NoMemory>
    ensures { IfOk result (λ fs. fs.items ≡ compared_form texts.now lines.now form) }
{
    match lines.split_first() {
        Some((logical, below)) => put_form(alloc, texts, logical, below, form),
        None => one(alloc, form),
    }
}

// Forms as statements of a line.
fn add_all(out: &mut Vec<Statement>, line: u32, forms: Vec<Form>) -> Result<(), NoMemory>
    ensures { OnOk result (out.new.items ≡ out.old.items ++ on_line line forms.items) }
{
    for form in forms {
        out.push(Statement { line, form })?;
    }
    Ok(())
}

// What becomes of a statement.
fn put(
    alloc: Global,
    out: &mut Vec<Statement>,
    texts: &Texts,
    lines: &[Logical],
    statement: Statement,
) -> Result<(), NoMemory>
    ensures { OnOk result (out.new.items ≡ out.old.items ++ compared_statement texts.now lines.now statement) }
{
    let Statement { line, form } = statement;
    let forms = compared_form(alloc, texts, from_line(line, lines), form)?;
    add_all(out, line, forms)
}

// What becomes of statements, one behind the other.
fn put_all(
    alloc: Global,
    out: &mut Vec<Statement>,
    texts: &Texts,
    lines: &[Logical],
    said: IntoIter<Statement>,
) -> Result<(), NoMemory>
    ensures { OnOk result (out.new.items ≡ out.old.items ++ flat_map (compared_statement texts.now lines.now) (into_iter_items said)) }
{
    for statement in said {
        put(alloc, out, texts, lines, statement)?;
    }
    Ok(())
}

// The next statement, if there is one.
fn put_next(out: &mut Vec<Statement>, said: &mut IntoIter<Statement>) -> Result<(), NoMemory>
    ensures put { OnOk result (out.new.items ≡ out.old.items ++ take 1 (into_iter_items said.old)) }
    ensures left { OnOk result (into_iter_items said.new ≡ drop 1 (into_iter_items said.old)) }
{
    if let Some(statement) = said.next() {
        out.push(statement)?;
    }
    Ok(())
}

// The first two statements, which open a text.
fn put_opening(out: &mut Vec<Statement>, said: &mut IntoIter<Statement>) -> Result<(), NoMemory>
    ensures put { OnOk result (out.new.items ≡ out.old.items ++ take 2 (into_iter_items said.old)) }
    ensures left { OnOk result (into_iter_items said.new ≡ drop 2 (into_iter_items said.old)) }
{
    put_next(out, said)?;
    put_next(out, said)
}

// What becomes of the statements of a text that speaks of texts.
fn compare_all(
    alloc: Global,
    texts: &Texts,
    lines: &[Logical],
    statements: Vec<Statement>,
) -> Result<Vec<Statement>, NoMemory>
    ensures { IfOk result (λ ss. ss.items ≡ compared_all texts.now lines.now statements.items) }
{
    let mut out = Vec::new(alloc);
    let mut said = statements.into_iter();
    put_opening(&mut out, &mut said)?;
    put_all(alloc, &mut out, texts, lines, said)?;
    Ok(out)
}

/// The statements that the lines of a text say, where variables of texts that are compared with literals alone are whole numbers; with texts that are given as answers.
///
/// # Errors
///
/// Out of memory.
pub fn compare(
    alloc: Global,
    given: &[OwnedBytes],
    lines: &[Logical],
    statements: Vec<Statement>,
) -> Result<Vec<Statement>, NoMemory>
    ensures { IfOk result (λ ss. ss.items ≡ compared given.now lines.now statements.items) }
{
    if has_texts(alloc, lines)? {
        let texts = counted_texts(alloc, given, lines)?;
        compare_all(alloc, &texts, lines, statements)
    } else {
        Ok(statements)
    }
}

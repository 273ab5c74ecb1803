//! The completions for zsh.

use crate::writing::{put, put_quoted};
use vcm_usage::{Behind, Choice, Files, Rest, Usage, Word, usages};

const HEAD: &str = r#"#compdef vcm
# Completions of vcm for zsh: put this file into a folder of $fpath.
local -a commands
commands=(
"#;

const MIDDLE: &str = r#"  'help:print help'
)
if (( CURRENT == 2 )); then
  _describe command commands
  _arguments '--help[print help]' '--version[print the version]'
  return
fi
case $words[2] in
"#;

const TAIL: &str = r#"  explain) compadd -- ${(f)"$(vcm explain 2>/dev/null | cut -d' ' -f1)"} ;;
  help) _describe command commands ;;
esac
"#;

// What completes files.
fn completer(files: Files) -> &'static str {
    match files {
        Files::None => "",
        Files::Any => ":_files",
        Files::Programs => ":_files -g \"*.(dmi|dmis)(-.)\"",
        Files::Inputs => ":_files -g \"*.(dmi|dmis|vcmi)(-.)\"",
        Files::Tables => ":_files -g \"*.toml(-.)\"",
        Files::Models => ":_files -g \"*.(stl|STL)(-.)\"",
        Files::Points => ":_files -g \"*.csv(-.)\"",
    }
}

// Appends the words that have to be there. The first stands after the program's name and the command's.
fn put_words(text: &mut String, words: &[Word]) -> Option<()> {
    let mut places = ["2", "3", "4"].iter();
    for word in words {
        let place = places.next().copied().unwrap_or("*");
        put(
            text,
            &[" '", place, ":", word.name, completer(word.files), "'"],
        )?;
    }
    Some(())
}

// Appends an option.
fn put_option(text: &mut String, choice: Choice) -> Option<()> {
    let spelled = choice.spelled();
    let many = match spelled.behind {
        Behind::Values => "*",
        _ => "",
    };
    put(text, &[" '", many, "--", spelled.name, "["])?;
    put_quoted(text, spelled.brief)?;
    put(text, &["]"])?;
    if !spelled.value.is_empty() {
        put(text, &[":", spelled.value, completer(spelled.files)])?;
    }
    put(text, &["'"])
}

// Appends what a command takes.
fn put_command(text: &mut String, usage: &Usage) -> Option<()> {
    put(text, &["  ", usage.name, ") _arguments"])?;
    put_words(text, usage.words)?;
    if usage.rest == Rest::Programs {
        put(text, &[" '*:PROGRAM", completer(Files::Programs), "'"])?;
    }
    for choice in usage.choices {
        put_option(text, *choice)?;
    }
    put(text, &[" '--help[print help]' ;;\n"])
}

/// Appends the completions for zsh; none where memory is refused.
pub(crate) fn put_zsh(text: &mut String) -> Option<()> {
    put(text, &[HEAD])?;
    for usage in usages() {
        put(text, &["  '", usage.name, ":"])?;
        put_quoted(text, usage.brief)?;
        put(text, &["'\n"])?;
    }
    put(text, &[MIDDLE])?;
    for usage in usages() {
        if usage.rest != Rest::Words {
            put_command(text, usage)?;
        }
    }
    put(text, &[TAIL])
}

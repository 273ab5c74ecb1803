//! The completions for bash.

use crate::writing::{files_of, is_valued, put};
use vcm_usage::{Choice, Rest, Usage, usages};

const HEAD: &str =
    r#"# Completions of vcm for bash: source this file, or put it into ~/.local/share/bash-completion/completions as vcm.
# Files with one of these ends, and folders; any files where there is no end.
_vcm_files() {
  local word=$1 end
  shift
  if [ $# -eq 0 ]; then
    COMPREPLY=($(compgen -f -- "$word"))
    return
  fi
  COMPREPLY=($(compgen -d -- "$word"))
  for end in "$@"; do
    COMPREPLY+=($(compgen -f -X "!*.$end" -- "$word"))
  done
}
# What a command takes: its options; of those with a value the ends of its files, or a point where it is none; the ends of the files of its words.
_vcm_takes() {
  options= valued= files=() is_many=
  case $1 in
"#;

const COMMANDS: &str = r#"  esac
}
_vcm() {
  local word=${COMP_WORDS[COMP_CWORD]} before=${COMP_WORDS[COMP_CWORD-1]} options valued files is_many i place=0
  local commands="#;

const TAIL: &str = r#"
  COMPREPLY=()
  if [ "$COMP_CWORD" -eq 1 ]; then
    COMPREPLY=($(compgen -W "$commands help --help --version" -- "$word"))
    return
  fi
  _vcm_takes "${COMP_WORDS[1]}"
  for i in $valued; do
    if [ "${i%%:*}" = "$before" ]; then
      [ "${i#*:}" = . ] || _vcm_files "$word" "${i#*:}"
      return
    fi
  done
  if [[ $word == -* ]]; then
    COMPREPLY=($(compgen -W "$options --help" -- "$word"))
    return
  fi
  case ${COMP_WORDS[1]} in
    help)
      COMPREPLY=($(compgen -W "$commands" -- "$word"))
      return
      ;;
    explain)
      COMPREPLY=($(compgen -W "$(vcm explain 2>/dev/null | cut -d' ' -f1)" -- "$word"))
      return
      ;;
  esac
  for ((i = 2; i < COMP_CWORD; i++)); do
    case " $valued" in
      *" ${COMP_WORDS[i]}:"*) ((i++)) ;;
      *) [[ ${COMP_WORDS[i]} == -* ]] || ((place++)) ;;
    esac
  done
  [ -n "$is_many" ] && place=0
  [ "$place" -ge "${#files[@]}" ] || _vcm_files "$word" ${files[place]}
}
complete -o filenames -F _vcm vcm
"#;

// Appends the options of a command.
fn put_options(text: &mut String, choices: &[Choice]) -> Option<()> {
    put(text, &[" options=\""])?;
    let mut gap = "";
    for choice in choices {
        put(text, &[gap, "--", choice.spelled().name])?;
        gap = " ";
    }
    put(text, &["\""])
}

// Appends those of them that have a value, each with the end of its files.
fn put_valued(text: &mut String, choices: &[Choice]) -> Option<()> {
    put(text, &[" valued=\""])?;
    let mut gap = "";
    for choice in choices {
        if is_valued(*choice) {
            let spelled = choice.spelled();
            let ends = spelled.files.ends();
            let ends = if ends.is_empty() { "." } else { ends };
            put(text, &[gap, "--", spelled.name, ":", ends])?;
            gap = " ";
        }
    }
    put(text, &["\""])
}

// Appends the ends of the files of a command's words.
fn put_files(text: &mut String, usage: &Usage) -> Option<()> {
    put(text, &[" files=("])?;
    let mut gap = "";
    for place in 0..4 {
        if let Some(files) = files_of(usage, place) {
            put(text, &[gap, "\"", files.ends(), "\""])?;
            gap = " ";
        }
    }
    put(text, &[")"])
}

// Appends what a command takes.
fn put_command(text: &mut String, usage: &Usage) -> Option<()> {
    put(text, &["    ", usage.name, ")"])?;
    put_options(text, usage.choices)?;
    put_valued(text, usage.choices)?;
    put_files(text, usage)?;
    let many = if usage.rest == Rest::Programs {
        " is_many=1"
    } else {
        ""
    };
    put(text, &[many, " ;;\n"])
}

// Appends the names of all commands.
fn put_names(text: &mut String) -> Option<()> {
    let mut gap = "\"";
    for usage in usages() {
        put(text, &[gap, usage.name])?;
        gap = " ";
    }
    put(text, &["\""])
}

/// Appends the completions for bash; none where memory is refused.
pub(crate) fn put_bash(text: &mut String) -> Option<()> {
    put(text, &[HEAD])?;
    for usage in usages() {
        put_command(text, usage)?;
    }
    put(text, &[COMMANDS])?;
    put_names(text)?;
    put(text, &[TAIL])
}

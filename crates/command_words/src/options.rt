//! The option of a command, read by `clap`.

ghost use Rattle.std.specs.Prelude.{◌≡◌, ◌<◌, ◌≤◌, ◌++◌, IfOk, IsUtf8, false, codes, length, map, option_copied};
ghost use Rattle.std.specs.List.{All};
ghost use Rattle.clap.specs.Lexer.{has_byte};
ghost use Rattle.command_words.specs.Words as spec;
ghost use Rattle.command_words.specs.Options.{IsPlainWord};
ghost use Rattle.command_words.specs.Options as options;

use clap::error::ErrorKind;
use clap::{Arg, ArgAction, Command};
use doc_tree::{NoMemory, Text};
use std::alloc::Global;

/// The value of an option, by its name without hyphens, in the words that follow a command which takes
/// this option alone, and wants it.
pub(crate) fn value_given(
    alloc: Global,
    option: &str,
    words: &[Text],
) -> Result<Option<Text>, NoMemory>
    requires name { (0 < length option.now) × (has_byte 61 option.now ≡ false) }
    ensures { IfOk result (λ value. value ≡ spec.only_value (codes "--" ++ option.now) words.now) }
{
    match words {
        [] => value_in(alloc, option, &[]),
        [word] => value_of_one(alloc, option, word.as_str()),
        [word, value] => value_of_two(alloc, option, word.as_str(), value.as_str()),
        // More words than an option and its value.
        _ => Ok(None),
    }
}

/// The value of an option, by its name without hyphens, in a word `--OPTION=V`.
pub(crate) fn value_of_one(
    alloc: Global,
    option: &str,
    word: &str,
) -> Result<Option<Text>, NoMemory>
    requires name { has_byte 61 option.now ≡ false }
    requires utf8 { IsUtf8 word.now }
    ensures { IfOk result (λ value. value ≡ spec.joined_value (codes "--" ++ option.now) word.now) }
{
    if is_lone(word) {
        return Ok(None);
    }
    value_in(alloc, option, &[word])
}

/// The value of an option, by its name without hyphens, in two words `--OPTION V`.
pub(crate) fn value_of_two(
    alloc: Global,
    option: &str,
    word: &str,
    value: &str,
) -> Result<Option<Text>, NoMemory>
    requires name { (0 < length option.now) × (has_byte 61 option.now ≡ false) }
    requires utf8 { IsUtf8 word.now × IsUtf8 value.now }
    ensures { IfOk result (λ given. given ≡ spec.next_value (codes "--" ++ option.now) word.now value.now) }
{
    if is_lone(word) || is_lone(value) {
        return Ok(None);
    }
    value_in(alloc, option, &[word, value])
}

// `clap` takes `-` as a value and passes over `--`, which the program does with neither.
fn is_lone(word: &str) -> bool
    ensures { result ≡ options.is_lone word.now }
{
    word == "-" || word == "--"
}

// The value that `clap` reads. What it would print isn't looked at.
fn value_in<'a>(
    alloc: Global,
    option: &'a str,
    words: &'a [&'a str],
) -> Result<Option<Text>, NoMemory>
    requires name { has_byte 61 option.now ≡ false }
    requires few { length words.now ≤ 2 }
    requires plain { All (λ word. IsPlainWord word.now) words.now }
    ensures { IfOk result (λ value. value ≡ spec.only_value (codes "--" ++ option.now) (map (λ word. word.now) words.now)) }
{
    let argument = Arg::new(alloc, "value")
        .long(option)
        .required(true)
        .action(ArgAction::Set);
    let command = Command::new(alloc, "chefsite")
        .no_binary_name(true)
        .disable_help_flag(true)
        .arg(argument)?;
    match command.try_get_matches_from(words) {
        Ok(matches) => copied(alloc, matches.get_str("value")),
        Err(error) if error.kind() == ErrorKind::OutOfMemory => Err(NoMemory),
        Err(_) => Ok(None),
    }
}

fn copied(alloc: Global, text: Option<&str>) -> Result<Option<Text>, NoMemory>
    ensures { IfOk result (λ copy. copy ≡ option_copied text.entry) }
{
    match text {
        Some(text) => Ok(Some(Text::from_str(alloc, text)?)),
        None => Ok(None),
    }
}

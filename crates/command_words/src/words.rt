//! The command that words are.

ghost use Rattle.std.specs.Prelude.{◌≡◌, IfOk, option_map};
ghost use Rattle.command_words.specs.Words as spec;
ghost use Rattle.command_words.specs.Reading.{told};

use crate::command::Command;
use crate::knife::knife_words;
use crate::numbers::size_in;
use crate::options::value_given;
use doc_tree::{NoMemory, Text};
use std::alloc::Global;

/// The command that the words behind the program's name are: `answer`, `explain --sources FILE`,
/// `demo --size N` or `knife --server URL --org O --user U WORD..`; an option may also stand as
/// `--sources=FILE`. `None` where they are no command, as with `--help` or `--version`.
pub fn command_of(alloc: Global, words: &[Text]) -> Result<Option<Command>, NoMemory>
    // The one refusal is want of memory.
    ensures { IfOk result (λ command. option_map told command ≡ spec.command_of words.now) }
{
    match words {
        [] => Ok(None),
        [word, words @ ..] => command_with(alloc, word.as_str(), words),
    }
}

fn command_with(alloc: Global, word: &str, words: &[Text]) -> Result<Option<Command>, NoMemory>
    ensures { IfOk result (λ command. option_map told command ≡ spec.command_with word.now words.now) }
{
    if word == "answer" {
        return Ok(answer_with(words));
    }
    if word == "explain" {
        return explain_with(alloc, words);
    }
    if word == "demo" {
        return demo_with(alloc, words);
    }
    if word == "knife" {
        return knife_with(alloc, words);
    }
    Ok(None)
}

// No option, so there is nothing to read.
fn answer_with(words: &[Text]) -> Option<Command>
    ensures { option_map told result ≡ spec.answer_with words.now }
{
    if words.is_empty() {
        Some(Command::Answer)
    } else {
        None
    }
}

fn explain_with(alloc: Global, words: &[Text]) -> Result<Option<Command>, NoMemory>
    ensures { IfOk result (λ command. option_map told command ≡ spec.explain_with words.now) }
{
    match value_given(alloc, "sources", words)? {
        Some(file) => Ok(Some(Command::Explain(file))),
        None => Ok(None),
    }
}

fn demo_with(alloc: Global, words: &[Text]) -> Result<Option<Command>, NoMemory>
    ensures { IfOk result (λ command. option_map told command ≡ spec.demo_with words.now) }
{
    match value_given(alloc, "size", words)? {
        Some(text) => Ok(demo_of(text.as_str())),
        None => Ok(None),
    }
}

fn demo_of(text: &str) -> Option<Command>
    ensures { option_map told result ≡ option_map spec.demo (spec.size_in text.now) }
{
    match size_in(text) {
        Some(size) => Some(Command::Demo(size)),
        None => None,
    }
}

fn knife_with(alloc: Global, words: &[Text]) -> Result<Option<Command>, NoMemory>
    ensures { IfOk result (λ command. option_map told command ≡ spec.knife_with words.now) }
{
    match knife_words(alloc, words)? {
        Some(told) => Ok(Some(Command::Knife(told))),
        None => Ok(None),
    }
}

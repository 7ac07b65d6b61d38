//! What the words behind `knife` give: its options and its WORDs.

ghost use Rattle.std.specs.Prelude.{◌≡◌, ◌≤◌, IfOk, OnOk, IsUtf8, [], ◌∷◌, length, MatchOption, Some, None, cond, codes, bytes_eq, false, option_map};
ghost use Rattle.command_words.specs.Gathering.{part_told, given_told, begun_with, with_left};
ghost use Rattle.command_words.specs.Words as spec;
ghost use Rattle.command_words.specs.Words.{and_more};

use crate::options::{value_of_one, value_of_two};
use doc_tree::{NoMemory, Text};
use std::alloc::Global;

/// What words give: the values of each option, and the WORDs, each in their order.
#[derive(Drop)]
pub(crate) struct Given {
    pub servers: Vec<Text>,
    pub orgs: Vec<Text>,
    pub users: Vec<Text>,
    pub words: Vec<Text>,
}

/// An option with its value, or a WORD.
#[derive(Drop)]
enum Part {
    Server(Text),
    Org(Text),
    User(Text),
    Word(Text),
}

impl Given {
    /// Nothing so far.
    pub(crate) fn new(alloc: Global) -> Given
        ensures { given_told result ≡ spec.words_alone [] }
    {
        Given {
            servers: Vec::new(alloc),
            orgs: Vec::new(alloc),
            users: Vec::new(alloc),
            words: Vec::new(alloc),
        }
    }

    /// Adds what words give. `false` where they aren't read, and then what is given is of no use.
    pub(crate) fn add_all(&mut self, alloc: Global, words: &[Text]) -> Result<bool, NoMemory>
        ensures { IfOk result (λ read. with_left (given_told self.old) words.now ≡ cond read (Some (given_told self.new)) None) }
    {
        let mut left = words;
        while let [word, rest @ ..] = left {
            if word.as_str() == "--" {
                self.add_words(alloc, rest)?;
                return Ok(true);
            }
            match part_before(alloc, word.as_str(), rest)? {
                Some((part, behind)) => {
                    self.add(part)?;
                    left = behind;
                }
                None => return Ok(false),
            }
        }
        Ok(true)
    }

    fn add(&mut self, part: Part) -> Result<(), NoMemory>
        ensures { OnOk result (given_told self.new ≡ and_more (given_told self.old) (spec.given_by (part_told part))) }
    {
        match part {
            Part::Server(url) => self.servers.push(url)?,
            Part::Org(name) => self.orgs.push(name)?,
            Part::User(name) => self.users.push(name)?,
            Part::Word(word) => self.words.push(word)?,
        }
        Ok(())
    }

    fn add_words(&mut self, alloc: Global, words: &[Text]) -> Result<(), NoMemory>
        ensures { OnOk result (given_told self.new ≡ and_more (given_told self.old) (spec.words_alone words.now)) }
    {
        for word in words {
            self.words.push(word.copy(alloc)?)?;
        }
        Ok(())
    }
}

// The part that a word is, or is with the one behind it, and the words behind that.
fn part_before<'a>(
    alloc: Global,
    word: &str,
    rest: &'a [Text],
) -> Result<Option<(Part, &'a [Text])>, NoMemory>
    requires utf8 { IsUtf8 word.now }
    requires goes_on { bytes_eq word.now (codes "--") ≡ false }
    ensures gives { IfOk result (λ found. begun_with found ≡ spec.given_in (word.now ∷ rest.now)) }
    ensures shorter { IfOk result (λ found. MatchOption found (Unit {0}) (λ f. length f.1.now ≤ length rest.now)) }
{
    if let Some(part) = part_in(alloc, word)? {
        return Ok(Some((part, rest)));
    }
    match rest {
        [value, behind @ ..] => match next_option(alloc, word, value.as_str())? {
            Some(part) => Ok(Some((part, behind))),
            None => Ok(None),
        },
        [] => Ok(None),
    }
}

fn part_in(alloc: Global, word: &str) -> Result<Option<Part>, NoMemory>
    requires utf8 { IsUtf8 word.now }
    ensures { IfOk result (λ part. option_map part_told part ≡ spec.part_in word.now) }
{
    if is_dashed(word.as_bytes()) {
        return joined_option(alloc, word);
    }
    Ok(Some(Part::Word(Text::from_str(alloc, word)?)))
}

fn is_dashed(word: &[u8]) -> bool
    ensures { result ≡ spec.is_dashed word.now }
{
    matches!(word, [b'-', ..])
}

fn joined_option(alloc: Global, word: &str) -> Result<Option<Part>, NoMemory>
    requires utf8 { IsUtf8 word.now }
    ensures { IfOk result (λ part. option_map part_told part ≡ spec.joined_option word.now) }
{
    if let Some(url) = value_of_one(alloc, "server", word)? {
        return Ok(Some(Part::Server(url)));
    }
    if let Some(name) = value_of_one(alloc, "org", word)? {
        return Ok(Some(Part::Org(name)));
    }
    match value_of_one(alloc, "user", word)? {
        Some(name) => Ok(Some(Part::User(name))),
        None => Ok(None),
    }
}

fn next_option(alloc: Global, word: &str, value: &str) -> Result<Option<Part>, NoMemory>
    requires utf8 { IsUtf8 word.now × IsUtf8 value.now }
    ensures { IfOk result (λ part. option_map part_told part ≡ spec.next_option word.now value.now) }
{
    if let Some(url) = value_of_two(alloc, "server", word, value)? {
        return Ok(Some(Part::Server(url)));
    }
    if let Some(name) = value_of_two(alloc, "org", word, value)? {
        return Ok(Some(Part::Org(name)));
    }
    match value_of_two(alloc, "user", word, value)? {
        Some(name) => Ok(Some(Part::User(name))),
        None => Ok(None),
    }
}

//! What words ask for.
ghost use Rattle.std.specs.Prelude.{◌≡◌, ◌↔◌, IfOk, IsTrue, MatchOption, None, Some, option_and_then, ℕ};
ghost use Rattle.std.specs.Fmt.{decimal};
ghost use Rattle.std.specs.Str.{bytes_eq};
ghost use Rattle.switch_names.specs.SystemName.{named_system};
ghost use Rattle.generations.specs.Digits.{BearsNumber};
ghost use Rattle.switch_run.specs.Asked.{IsAskedBy};
ghost use Rattle.switch_run.specs.Collecting.{collected_word};
ghost use Rattle.switch_run.specs.Commands.{command_alone, command_for, command_of};
ghost use Rattle.switch_run.specs.Listing.{asks_list};
ghost use Rattle.switch_run.specs.Rehearsing.{IsNumber, asks_jobs, is_rehearsal, rehearsed_word};

use std::alloc::{AllocError, Global};
use switch_engine::Command;
use switch_names::{SystemName, Text};

/// What words ask for.
#[derive(Debug, Drop)]
pub enum Asked {
    /// A command.
    Command(Command),
    /// The list of the generations.
    Generations,
    /// The rehearsal of the machine that is made from this number.
    Rehearsal(u64),
    /// The same on a manager whose jobs end later.
    RehearsalWithJobs(u64),
    /// The collection that keeps the generations with the highest numbers, so many of them, and the current one.
    Collection(u32),
    /// Nothing that the program does.
    Nothing,
}

/// The command that a word gives for a system, or none.
fn command_for(verb: &Text, system: SystemName) -> Option<Command>
    ensures { result ≡ command_for verb.now system }
{
    if verb.as_str() == "switch" {
        return Some(Command::Switch(system));
    }
    if verb.as_str() == "test" {
        return Some(Command::Test(system));
    }
    if verb.as_str() == "boot" {
        return Some(Command::Boot(system));
    }
    if verb.as_str() == "dry-activate" {
        return Some(Command::DryActivate(system));
    }
    None
}

/// The command that a word gives alone, or none.
fn read_alone(verb: &Text) -> Option<Command>
    ensures { result ≡ command_alone verb.now }
{
    if verb.as_str() == "rollback" {
        return Some(Command::Rollback);
    }
    if verb.as_str() == "start-up" {
        return Some(Command::StartUp);
    }
    None
}

/// The command that two words give, or none.
fn read_pair(alloc: Global, verb: &Text, word: &Text) -> Result<Option<Command>, AllocError>
    ensures { IfOk result (λ command. command ≡ option_and_then (command_for verb.now) (named_system word.now)) }
{
    match SystemName::of_text(alloc, word.as_str())? {
        Some(system) => Ok(command_for(verb, system)),
        None => Ok(None),
    }
}

/// The command that words give, or none.
fn read_command(alloc: Global, words: &[Text]) -> Result<Option<Command>, AllocError>
    ensures { IfOk result (λ command. command ≡ command_of words.now) }
{
    match words {
        [verb] => Ok(read_alone(verb)),
        [verb, word] => read_pair(alloc, verb, word),
        _ => Ok(None),
    }
}

/// Whether words ask for the list of the generations.
fn asks_list(words: &[Text]) -> bool
    ensures { result ≡ asks_list words.now }
{
    match words {
        [verb] => verb.as_str() == "generations",
        _ => false,
    }
}

/// Whether a word asks for a rehearsal.
fn is_rehearsal(verb: &Text) -> bool
    ensures { result ≡ is_rehearsal verb.now }
{
    verb.as_str() == "rehearse" || verb.as_str() == "rehearse-jobs"
}

/// What stands behind a word that asks for a rehearsal, or none.
fn rehearsed_word(words: &[Text]) -> Option<&Text>
    ensures { MatchOption result (rehearsed_word words.now ≡ None) (λ word. rehearsed_word words.now ≡ Some word.now) }
{
    match words {
        [verb, word] if is_rehearsal(verb) => Some(word),
        _ => None,
    }
}

/// Whether the first of some words asks for a manager whose jobs end later.
fn asks_jobs(words: &[Text]) -> bool
    ensures { result ≡ asks_jobs words.now }
{
    match words {
        [verb, ..] => verb.as_str() == "rehearse-jobs",
        _ => false,
    }
}

/// Whether a text is the digits of a number.
fn is_written(alloc: Global, number: u64, text: &str) -> Result<bool, AllocError>
    ensures { IfOk result (λ is. is ≡ bytes_eq (decimal number) text.now) }
{
    let digits = format!(in alloc; "{number}")?;
    Ok(digits.as_str() == text)
}

/// The number of which a text is the digits, without leading zeros, or none.
fn read_number(alloc: Global, text: &str) -> Result<Option<u64>, AllocError>
    ensures { IfOk result (λ number. MatchOption number ((n : ℕ) → IsNumber text.now n → ⊥) (IsNumber text.now)) }
{
    let Ok(number) = text.parse::<u64>() else {
        return Ok(None);
    };
    let is_written = is_written(alloc, number, text)?;
    Ok(is_written.then_some(number))
}

/// What stands behind the word that asks for a collection, or none.
fn collected_word(words: &[Text]) -> Option<&Text>
    ensures { MatchOption result (collected_word words.now ≡ None) (λ word. collected_word words.now ≡ Some word.now) }
{
    match words {
        [verb, word] if verb.as_str() == "collect" => Some(word),
        _ => None,
    }
}

/// The number below 2^32 of which a text is the digits, without leading zeros, or none.
fn read_small_number(alloc: Global, text: &str) -> Result<Option<u32>, AllocError>
    ensures { IfOk result (BearsNumber decimal text.now) }
{
    match read_number(alloc, text)? {
        Some(number) => Ok(u32::try_from(number).ok()),
        None => Ok(None),
    }
}

impl Asked {
    /// What words ask for: the words behind the root folder on the command line.
    ///
    /// Source: NixOS manual, "Upgrading NixOS"; nix-env(1), "--list-generations"; nix-collect-garbage(1).
    pub fn read(alloc: Global, words: &[Text]) -> Result<Asked, AllocError>
        ensures { IfOk result (IsAskedBy words.now) }
    {
        if asks_list(words) {
            return Ok(Asked::Generations);
        }
        if let Some(word) = rehearsed_word(words) {
            let number = read_number(alloc, word.as_str())?;
            return Ok(match number {
                Some(number) if asks_jobs(words) => Asked::RehearsalWithJobs(number),
                Some(number) => Asked::Rehearsal(number),
                None => Asked::Nothing,
            });
        }
        if let Some(word) = collected_word(words) {
            let keep = read_small_number(alloc, word.as_str())?;
            return Ok(match keep {
                Some(keep) => Asked::Collection(keep),
                None => Asked::Nothing,
            });
        }
        Ok(match read_command(alloc, words)? {
            Some(command) => Asked::Command(command),
            None => Asked::Nothing,
        })
    }
}

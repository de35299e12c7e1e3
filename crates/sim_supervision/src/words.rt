ghost use Rattle.std.specs.Prelude.{◌≡◌, [], ◌∷◌, ◌++◌, IfOk, OnOk, map, string_bytes};
ghost use Rattle.std.specs.Option.{option_copied};
ghost use Rattle.sim_supervision.specs.Words.{default_words, kind_word, profile_words, start_words};

use itoa::Buffer;
use kit_bytes::{Kind, PathText};
use sim_task::SimTask;
use std::alloc::{AllocError, Global};

// The name of a kind of modem.
fn kind_word(kind: Kind) -> &'static str
    ensures { result.now ≡ kind_word kind }
{
    match kind {
        Kind::Qmi => "qmi",
        Kind::Mbim => "mbim",
    }
}

// The word that gives an option its value.
fn option_word(alloc: Global, option: &str, value: &str) -> Result<String, AllocError>
    ensures { IfOk result (λ word. string_bytes word ≡ option.now ++ value.now) }
{
    let mut word = String::from_str(alloc, option)?;
    word.push_str(value)?;
    Ok(word)
}

fn add(words: &mut Vec<String>, word: String) -> Result<(), AllocError>
    ensures { OnOk result (map string_bytes words.new.items ≡ map string_bytes words.old.items ++ string_bytes word ∷ []) }
{
    words.push(word)?;
    Ok(())
}

// The words that start a simulated modem with the default profile.
fn default_words(alloc: Global, task: &SimTask) -> Result<Vec<String>, AllocError>
    ensures { IfOk result (λ words. map string_bytes words.items ≡ default_words task.now.kind task.now.socket task.now.turns) }
{
    let mut words = Vec::new(alloc);
    add(&mut words, String::from_str(alloc, "modem-sim")?)?;
    add(
        &mut words,
        option_word(alloc, "--kind=", kind_word(task.kind))?,
    )?;
    add(
        &mut words,
        option_word(alloc, "--socket=", task.socket.value().as_str())?,
    )?;
    add(
        &mut words,
        option_word(alloc, "--turns=", Buffer::new().format(task.turns))?,
    )?;
    Ok(words)
}

// The words that start a simulated modem that goes by no rules.
fn profile_words(alloc: Global, task: &SimTask) -> Result<Vec<String>, AllocError>
    ensures { IfOk result (λ words. map string_bytes words.items ≡ profile_words task.now.kind task.now.socket task.now.turns task.now.profile) }
{
    let mut words = default_words(alloc, task)?;
    let Some(file) = &task.profile else {
        return Ok(words);
    };
    let word = option_word(alloc, "--profile=", file.value().as_str())?;
    add(&mut words, word)?;
    Ok(words)
}

/// The words that start a simulated modem.
pub fn start_words(
    alloc: Global,
    task: &SimTask,
    rules: Option<&PathText>,
) -> Result<Vec<String>, AllocError>
    ensures { IfOk result (λ words. map string_bytes words.items ≡ start_words task.now.kind task.now.socket task.now.turns task.now.profile (option_copied rules.entry)) }
{
    let mut words = profile_words(alloc, task)?;
    let Some(file) = rules else {
        return Ok(words);
    };
    let word = option_word(alloc, "--rules=", file.value().as_str())?;
    add(&mut words, word)?;
    Ok(words)
}

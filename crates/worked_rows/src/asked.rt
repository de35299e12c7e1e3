use row_text::RowFault;
use std::alloc::Global;
use tool_words::{ToolCommand, WordFault, command_of};

/// What words ask for, as text.
pub fn asked(alloc: Global, words: &[String]) -> Result<String, RowFault> {
    let command = command_of(alloc, words);
    let text = spelled(alloc, &command);
    drop(command);
    text
}

// A command, or why words are none, as text.
fn spelled(alloc: Global, command: &Result<ToolCommand, WordFault>) -> Result<String, RowFault> {
    Ok(format!(in alloc; "{command:?}")?)
}

/// The request that words ask for, as text, where they ask a modem.
pub fn requested(alloc: Global, words: &[String]) -> Result<Option<String>, RowFault> {
    let command = command_of(alloc, words);
    let text = request_in(alloc, &command);
    drop(command);
    text
}

// The request of a command to a modem, as text.
fn request_in(
    alloc: Global,
    command: &Result<ToolCommand, WordFault>,
) -> Result<Option<String>, RowFault> {
    match command {
        Ok(ToolCommand::Qmicli(task)) => Ok(Some(format!(in alloc; "{:?}", task.request)?)),
        Ok(ToolCommand::Mbimcli(task)) => Ok(Some(format!(in alloc; "{:?}", task.request)?)),
        _ => Ok(None),
    }
}

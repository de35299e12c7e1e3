//! The words of a command line, as what they ask the program to do.
#![tactic(auto)]

mod command;
mod defaults;
mod dissect;
mod fault;
mod form;
mod given;
mod keys;
mod link;
mod mbim_commands;
mod mbimcli;
mod modem_tools;
mod options;
mod paths;
mod plain;
mod proxies;
mod proxy;
mod pump;
mod qmi_commands;
mod qmicli;
mod reader;
mod rig;
mod simulator;
mod sole;
mod values;
mod version;

pub use command::{ToolCommand, command_of};
pub use fault::{UsageKind, WordFault};
pub use form::AnswerForm;
pub use link::LinkSettings;
pub use mbim_commands::{MbimCommand, mbimcli_commands};
pub use mbimcli::MbimTask;
pub use paths::PathTexts;
pub use plain::PlainCommand;
pub use proxies::ProxiesTask;
pub use proxy::ProxyTask;
pub use qmi_commands::{QmiCommand, qmicli_commands};
pub use qmicli::{QmiTask, RequestTask};

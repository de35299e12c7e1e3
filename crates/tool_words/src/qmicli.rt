ghost use Rattle.std.specs.Prelude.{◌≡◌, IfOk, option_map};
ghost use Rattle.clap.specs.Words.{app_of, found_of, rows_of};
ghost use Rattle.tool_words.specs.Answers.{Answers};
ghost use Rattle.tool_words.specs.QmiCommands.{qmi_asks};
ghost use Rattle.tool_words.specs.Qmicli.{asked_for, asked_with, described, fits_tables, follow_in, form_given, modem_kind, qmi_asked, qmi_setting_spelling, qmi_settings, qmicli_app, qmicli_asked, qmicli_values, reference_in, requested, submitted};
ghost use Rattle.tool_words.specs.Values.{Gives, number_within, optional};

use crate::form::{AnswerForm, form_of};
use crate::given::{is_given, value_given};
use crate::link::{LinkSettings, device_given, link_given};
use crate::modem_tools::{ModemCommand, modem_tool, modem_tool_asked};
use crate::options::{OptionSpelling, ToolOption, flag, valued};
use crate::qmi_commands::{
    QmiCommand, asks, makes_messages, names_a_message, qmicli_commands, reads_messages, request,
    takes_tables,
};
use crate::values::{
    at_comma, flag_of, number_8, number_within, or_fault, path, short, short_if_given, text_of,
    turns,
};
use crate::{ToolCommand, UsageKind, WordFault};
use clap::{ArgMatches, Command};
use kit_bytes::{Kind, PathText, ShortText, Text};
use qmi_requests::QmiRequest;
use sms_pdu::can_be_sent;
use std::alloc::{AllocError, Global};

/// A request that a QMI modem is asked for.
#[derive(Debug, Drop)]
pub struct QmiTask {
    pub device: PathText,
    /// How the device is reached; a modem of the other kind carries the messages.
    pub link: LinkSettings,
    /// The client id that the request is sent with, in place of an allocated one.
    pub cid: Option<u8>,
    /// Whether an allocated client id is kept.
    pub keep: bool,
    pub request: QmiRequest,
    pub form: AnswerForm,
}

/// A request by the tables of a file that a QMI modem itself is asked for.
#[derive(Debug, Drop)]
pub struct RequestTask {
    pub device: PathText,
    /// How the device is reached.
    pub link: LinkSettings,
    /// The client id that the request is sent with, in place of an allocated one.
    pub cid: Option<u8>,
    /// Whether an allocated client id is kept.
    pub keep: bool,
    /// The file of the messages' descriptions.
    pub tables: PathText,
    /// The message's name.
    pub message: ShortText,
    /// The values of its TLVs, as one JSON object.
    pub input: Text,
    /// Whether the answer is printed as one JSON object, on a line.
    pub json: bool,
    /// For how many turns the indications are followed behind the answer, if they are.
    pub follow: Option<u64>,
}

/// An option of `qmicli` that says how its command is run, beside those of the link.
#[derive(Clone, Copy, PartialEq, Eq)]
pub enum QmiSetting {
    DeviceOpenMbim,
    ClientCid,
    ClientNoReleaseCid,
    DecodeSms,
    Json,
    Reference,
    Request,
    Input,
    Follow,
    Turns,
}

static QMI_SETTINGS: [QmiSetting; 10] = [
    QmiSetting::DeviceOpenMbim,
    QmiSetting::ClientCid,
    QmiSetting::ClientNoReleaseCid,
    QmiSetting::DecodeSms,
    QmiSetting::Json,
    QmiSetting::Reference,
    QmiSetting::Request,
    QmiSetting::Input,
    QmiSetting::Follow,
    QmiSetting::Turns,
];

impl ToolOption for QmiSetting {
    ghost spelling = { qmi_setting_spelling };

    fn spelling(self) -> OptionSpelling {
        match self {
            QmiSetting::DeviceOpenMbim => flag("device-open-mbim"),
            QmiSetting::ClientCid => valued("client-cid"),
            QmiSetting::ClientNoReleaseCid => flag("client-no-release-cid"),
            QmiSetting::DecodeSms => flag("decode-sms"),
            QmiSetting::Json => flag("json"),
            QmiSetting::Reference => valued("reference"),
            QmiSetting::Request => valued("request"),
            QmiSetting::Input => valued("input"),
            QmiSetting::Follow => flag("follow"),
            QmiSetting::Turns => valued("turns"),
        }
    }
}

#[tactic(auto, unfolding(crate::specs::Qmicli::qmi_settings))]
fn settings() -> &'static [QmiSetting]
    ensures { result.now ≡ qmi_settings }
{
    QMI_SETTINGS.as_slice()
}

/// The options of `qmicli`.
pub fn qmicli_reader<'a>(alloc: Global) -> Result<Command<'a>, AllocError>
    ensures { IfOk result (λ tool. app_of tool ≡ qmicli_app) }
{
    modem_tool(alloc, "qmicli", settings(), qmicli_commands())
}

fn cid_if_given(text: Option<&str>) -> Result<Option<u8>, WordFault>
    ensures { Gives (optional (number_within 1 254) (option_map (λ t. t.now) text.entry)) result }
{
    let Some(text) = text else {
        return Ok(None);
    };
    match number_within(1, 254, text) {
        Some(number) => Ok(Some(number as u8)),
        None => Err(WordFault::Usage(UsageKind::Value)),
    }
}

#[tactic(auto, unfolding(crate::specs::Qmicli::described))]
fn description(
    alloc: Global,
    file: Option<&str>,
    name: Option<&str>,
) -> Result<ToolCommand, WordFault>
    ensures { Gives (described (option_map (λ t. t.now) file.entry) (option_map (λ t. t.now) name.entry)) result }
{
    let file = path(alloc, or_fault(file)?)?;
    let message = short_if_given(alloc, name)?;
    Ok(ToolCommand::Describe { file, message })
}

#[tactic(auto, unfolding(crate::specs::Qmicli::requested))]
fn requesting(
    alloc: Global,
    link: LinkSettings,
    cid: Option<u8>,
    file: Option<&str>,
    matches: &ArgMatches<'_>,
) -> Result<ToolCommand, WordFault>
    ensures { Gives (requested link cid (option_map (λ t. t.now) file.entry) (rows_of (found_of matches.now))) result }
{
    let device = or_fault(device_given(alloc, matches)?)?;
    let tables = path(alloc, or_fault(file)?)?;
    let message = short(alloc, or_fault(value_given(matches, QmiSetting::Request))?)?;
    let input = value_given(matches, QmiSetting::Input).unwrap_or("{}");
    let input = text_of(alloc, input)?;
    let keep = is_given(matches, QmiSetting::ClientNoReleaseCid);
    let json = is_given(matches, QmiSetting::Json);
    let follow = follow_in(
        is_given(matches, QmiSetting::Follow),
        value_given(matches, QmiSetting::Turns),
    )?;
    Ok(ToolCommand::Request(RequestTask {
        device,
        link,
        cid,
        keep,
        tables,
        message,
        input,
        json,
        follow,
    }))
}

// For how many turns is followed, which only a command says that follows.
#[tactic(auto, unfolding(crate::specs::Qmicli::follow_in))]
fn follow_in(follows: bool, text: Option<&str>) -> Result<Option<u64>, WordFault>
    ensures { Gives (follow_in follows (option_map (λ t. t.now) text.entry)) result }
{
    if follows {
        Ok(Some(turns(text)?))
    } else {
        match text {
            Some(_) => Err(WordFault::Usage(UsageKind::Value)),
            None => Ok(None),
        }
    }
}

#[tactic(auto, unfolding(crate::specs::Qmicli::submitted))]
fn submission(alloc: Global, reference: u8, value: Option<&str>) -> Result<ToolCommand, WordFault>
    ensures { Gives (submitted reference (option_map (λ t. t.now) value.entry)) result }
{
    let Some((number, text)) = at_comma(or_fault(value)?) else {
        return Err(WordFault::Usage(UsageKind::Value));
    };
    let number = text_of(alloc, number)?;
    let text = text_of(alloc, text)?;
    if !can_be_sent(alloc, &number, &text)? {
        return Err(WordFault::Usage(UsageKind::Value));
    }
    Ok(ToolCommand::PduSubmit {
        number,
        text,
        reference,
    })
}

#[tactic(auto, unfolding(crate::specs::Qmicli::reference_in))]
fn reference_in(makes: bool, text: Option<&str>) -> Result<u8, WordFault>
    ensures { Gives (reference_in makes (option_map (λ t. t.now) text.entry)) result }
{
    match text {
        Some(text) if makes => or_fault(number_8(text)),
        Some(_) => Err(WordFault::Usage(UsageKind::Value)),
        None => Ok(0),
    }
}

#[tactic(auto, unfolding(crate::specs::Qmicli::qmi_asked))]
fn asking(
    alloc: Global,
    link: LinkSettings,
    cid: Option<u8>,
    form: AnswerForm,
    command: QmiCommand,
    matches: &ArgMatches<'_>,
) -> Result<ToolCommand, WordFault>
    ensures { Gives (qmi_asked link cid form command (rows_of (found_of matches.now))) result }
{
    let device = or_fault(device_given(alloc, matches)?)?;
    let request = request(alloc, command, value_given(matches, command))?;
    let keep = is_given(matches, QmiSetting::ClientNoReleaseCid);
    Ok(ToolCommand::Qmicli(QmiTask {
        device,
        link,
        cid,
        keep,
        request,
        form,
    }))
}

// What a command asks for: a request by tables, another one, the messages of a text, or the tables of a file.
#[tactic(auto, unfolding(crate::specs::Qmicli::asked_for))]
fn asked_for(
    alloc: Global,
    link: LinkSettings,
    cid: Option<u8>,
    form: AnswerForm,
    reference: u8,
    command: QmiCommand,
    matches: &ArgMatches<'_>,
) -> Result<ToolCommand, WordFault>
    ensures { Gives (asked_for link cid form reference command (rows_of (found_of matches.now))) result }
{
    if takes_tables(command) {
        requesting(alloc, link, cid, value_given(matches, command), matches)
    } else if asks(command) {
        asking(alloc, link, cid, form, command, matches)
    } else if makes_messages(command) {
        submission(alloc, reference, value_given(matches, command))
    } else {
        let name = value_given(matches, QmiSetting::Request);
        description(alloc, value_given(matches, command), name)
    }
}

// How the answer is printed, by settings that only some commands have.
#[tactic(auto, unfolding(crate::specs::Qmicli::form_given))]
fn form_given(command: QmiCommand, matches: &ArgMatches<'_>) -> Result<AnswerForm, WordFault>
    ensures { Gives (form_given command (rows_of (found_of matches.now))) result }
{
    let decode = is_given(matches, QmiSetting::DecodeSms);
    let decode = flag_of(decode, reads_messages(command))?;
    let json = flag_of(is_given(matches, QmiSetting::Json), asks(command))?;
    form_of(decode, json)
}

// A message is named and has values beside a command that takes them, and a request by tables isn't carried
// inside an MBIM modem.
#[tactic(auto, unfolding(crate::specs::Qmicli::fits_tables))]
fn fits_tables(command: QmiCommand, matches: &ArgMatches<'_>) -> Result<bool, WordFault>
    ensures { Gives (fits_tables command (rows_of (found_of matches.now))) result }
{
    let named = is_given(matches, QmiSetting::Request);
    flag_of(named, names_a_message(command))?;
    let given = is_given(matches, QmiSetting::Input);
    flag_of(given, takes_tables(command))?;
    let follows = is_given(matches, QmiSetting::Follow);
    flag_of(follows, takes_tables(command))?;
    let turns = is_given(matches, QmiSetting::Turns);
    flag_of(turns, takes_tables(command))?;
    let carried = is_given(matches, QmiSetting::DeviceOpenMbim);
    flag_of(carried, !takes_tables(command))
}

// The same, with the settings that only some commands have.
#[tactic(auto, unfolding(crate::specs::Qmicli::asked_with))]
fn asked_with(
    alloc: Global,
    link: LinkSettings,
    cid: Option<u8>,
    command: QmiCommand,
    matches: &ArgMatches<'_>,
) -> Result<ToolCommand, WordFault>
    ensures { Gives (asked_with link cid command (rows_of (found_of matches.now))) result }
{
    let form = form_given(command, matches)?;
    fits_tables(command, matches)?;
    let reference = value_given(matches, QmiSetting::Reference);
    let reference = reference_in(makes_messages(command), reference)?;
    asked_for(alloc, link, cid, form, reference, command, matches)
}

// The kind of the modem, which is MBIM where that is to carry the messages.
#[tactic(auto, unfolding(crate::specs::Qmicli::modem_kind))]
fn modem_kind(matches: &ArgMatches<'_>) -> Kind
    ensures { result ≡ modem_kind (rows_of (found_of matches.now)) }
{
    if is_given(matches, QmiSetting::DeviceOpenMbim) {
        Kind::Mbim
    } else {
        Kind::Qmi
    }
}

impl ModemCommand for QmiCommand {
    ghost asks = { qmi_asks };

    ghost values = { qmicli_values };

    fn asks(self) -> bool {
        asks(self)
    }

    #[tactic(auto, unfolding(crate::specs::Qmicli::qmicli_values))]
    fn values(self, alloc: Global, matches: &ArgMatches<'_>) -> Result<ToolCommand, WordFault> {
        let link = link_given(alloc, modem_kind(matches), matches)?;
        let cid = cid_if_given(value_given(matches, QmiSetting::ClientCid))?;
        asked_with(alloc, link, cid, self, matches)
    }
}

/// What the words of `qmicli` ask for.
#[tactic(auto, unfolding(crate::specs::Qmicli::qmicli_asked))]
pub fn qmicli_asked(alloc: Global, matches: &ArgMatches<'_>) -> Result<ToolCommand, WordFault>
    ensures { Answers (qmicli_asked (rows_of (found_of matches.now))) result }
{
    modem_tool_asked(alloc, qmicli_commands(), matches)
}

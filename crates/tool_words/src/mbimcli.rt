ghost use Rattle.std.specs.Prelude.{◌≡◌, IfOk};
ghost use Rattle.clap.specs.Words.{app_of, found_of, rows_of};
ghost use Rattle.tool_words.specs.Answers.{Answers};
ghost use Rattle.tool_words.specs.Mbimcli.{mbim_asks, mbim_setting_spelling, mbim_settings, mbimcli_app, mbimcli_asked, mbimcli_values};
ghost use Rattle.tool_words.specs.Values.{Gives};

use crate::form::{AnswerForm, form_of};
use crate::given::{is_given, value_given};
use crate::link::{LinkSettings, device_given, link_given};
use crate::mbim_commands::{MbimCommand, mbimcli_commands, reads_messages, request};
use crate::modem_tools::{ModemCommand, modem_tool, modem_tool_asked};
use crate::options::{OptionSpelling, ToolOption, flag};
use crate::values::{flag_of, or_fault};
use crate::{ToolCommand, WordFault};
use clap::{ArgMatches, Command};
use kit_bytes::{Kind, PathText};
use mbim_requests::MbimRequest;
use std::alloc::{AllocError, Global};

/// A request that an MBIM modem is asked for.
#[derive(Debug, Drop)]
pub struct MbimTask {
    pub device: PathText,
    /// How the device is reached.
    pub link: LinkSettings,
    /// Whether the modem is closed afterwards.
    pub close: bool,
    pub request: MbimRequest,
    /// How the answer is printed.
    pub form: AnswerForm,
}

/// An option of `mbimcli` that says how its command is run, beside those of the link.
#[derive(Clone, Copy, PartialEq, Eq)]
pub enum MbimSetting {
    NoClose,
    DecodeSms,
    Json,
}

static MBIM_SETTINGS: [MbimSetting; 3] = [
    MbimSetting::NoClose,
    MbimSetting::DecodeSms,
    MbimSetting::Json,
];

impl ToolOption for MbimSetting {
    ghost spelling = { mbim_setting_spelling };

    fn spelling(self) -> OptionSpelling {
        match self {
            MbimSetting::NoClose => flag("no-close"),
            MbimSetting::DecodeSms => flag("decode-sms"),
            MbimSetting::Json => flag("json"),
        }
    }
}

#[tactic(auto, unfolding(crate::specs::Mbimcli::mbim_settings))]
fn settings() -> &'static [MbimSetting]
    ensures { result.now ≡ mbim_settings }
{
    MBIM_SETTINGS.as_slice()
}

/// The options of `mbimcli`.
pub fn mbimcli_reader<'a>(alloc: Global) -> Result<Command<'a>, AllocError>
    ensures { IfOk result (λ tool. app_of tool ≡ mbimcli_app) }
{
    modem_tool(alloc, "mbimcli", settings(), mbimcli_commands())
}

impl ModemCommand for MbimCommand {
    ghost asks = { mbim_asks };

    ghost values = { mbimcli_values };

    fn asks(self) -> bool {
        true
    }

    #[tactic(auto, unfolding(crate::specs::Mbimcli::mbimcli_values))]
    fn values(self, alloc: Global, matches: &ArgMatches<'_>) -> Result<ToolCommand, WordFault> {
        let link = link_given(alloc, Kind::Mbim, matches)?;
        let device = or_fault(device_given(alloc, matches)?)?;
        let decode = is_given(matches, MbimSetting::DecodeSms);
        let decode = flag_of(decode, reads_messages(self))?;
        let form = form_of(decode, is_given(matches, MbimSetting::Json))?;
        let request = request(alloc, self, value_given(matches, self))?;
        let stays = is_given(matches, MbimSetting::NoClose);
        Ok(ToolCommand::Mbimcli(MbimTask {
            device,
            link,
            close: !stays,
            request,
            form,
        }))
    }
}

/// What the words of `mbimcli` ask for.
#[tactic(auto, unfolding(crate::specs::Mbimcli::mbimcli_asked))]
pub fn mbimcli_asked(alloc: Global, matches: &ArgMatches<'_>) -> Result<ToolCommand, WordFault>
    ensures { Answers (mbimcli_asked (rows_of (found_of matches.now))) result }
{
    modem_tool_asked(alloc, mbimcli_commands(), matches)
}

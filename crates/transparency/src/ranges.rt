ghost use Rattle.std.specs.Prelude.{◌<◌, ◌^◌, IfSome, IsTrue};
ghost use Rattle.std.specs.Str.{all_scalars};
ghost use Rattle.kit_bytes.specs.declared.short.TheConstants as limits;
ghost use Rattle.mbim_services.specs.Requests.{IsIndex, IsInRange, IsText};
ghost use Rattle.mbim_session.specs.Session.{configuration};

use kit_bytes::{PathText, ShortText, Text};
use mbim_requests::MbimRequest;
use mbim_session::MbimPlan;

/// The types of a plan's values keep them in the ranges that their fields have. Nothing is done for it.
pub(crate) fn plan_in_range(plan: &MbimPlan)
    ensures request { IsInRange plan.now.request }
    ensures device { IsInRange (configuration plan.now) }
{
    request_in_range(&plan.request);
    path_in_range(&plan.device);
}

fn request_in_range(request: &MbimRequest)
    ensures { IsInRange request.now }
{
    match request {
        MbimRequest::Connect {
            session_id,
            access_string,
            username,
            password,
            ..
        } => {
            index_in_range(*session_id);
            given_in_range(access_string);
            given_in_range(username);
            given_in_range(password);
        }
        MbimRequest::Disconnect(index)
        | MbimRequest::QueryConnectionState(index)
        | MbimRequest::QueryIpConfiguration(index)
        | MbimRequest::SmsRead(index)
        | MbimRequest::SmsDelete(index)
        | MbimRequest::PhonebookRead(index)
        | MbimRequest::PhonebookDelete(index) => index_in_range(*index),
        MbimRequest::UssdInitiate(scheme, payload) | MbimRequest::UssdContinue(scheme, payload) => {
            coding_in_range(*scheme);
            payload.value();
        }
        MbimRequest::PhonebookWrite {
            name,
            number,
            index,
        } => {
            short_in_range(name);
            short_in_range(number);
            place_in_range(index);
        }
        MbimRequest::ProxyConfiguration(path) => path_in_range(path),
        // The others have no values, or one of two.
        _ => {}
    }
}

fn index_in_range(index: u32)
    ensures { IsIndex index }
{}

fn coding_in_range(scheme: u8)
    ensures { scheme < 2 ^ 8 }
{}

fn place_in_range(index: &Option<u32>)
    ensures { IfSome index.now IsIndex }
{
    match index {
        Some(index) => index_in_range(*index),
        None => {}
    }
}

fn given_in_range(text: &Option<ShortText>)
    ensures { IfSome text.now (IsText limits.LONGEST_SHORT_TEXT) }
{
    match text {
        Some(text) => short_in_range(text),
        None => {}
    }
}

fn short_in_range(text: &ShortText)
    ensures { IsText limits.LONGEST_SHORT_TEXT text.now }
{
    scalars_in(text.value());
}

fn path_in_range(path: &PathText)
    ensures { IsText limits.LONGEST_PATH path.now }
{
    scalars_in(path.value());
}

// A text has the characters that its bytes spell.
fn scalars_in(text: &Text)
    ensures { IsTrue (all_scalars text.now) }
{
    text.as_str();
}

ghost use Rattle.std.specs.Prelude.{◌≡◌, ◌≤◌, true, false, [], ◌∷◌, length, map, Some, None, option_map, option_and_then, IsSome, IsTrue, IfOk, IfSome};
ghost use Rattle.std.specs.Str.{all_scalars};
ghost use Rattle.kit_bytes.specs.declared.short.TheConstants.{LONGEST_SHORT_TEXT, LONGEST_SHORT_OCTETS, LONGEST_PATH};
ghost use Rattle.mbim_fields.specs.Value as field;
ghost use Rattle.mbim_fields.specs.Value.{list_of};
ghost use Rattle.mbim_fields.specs.Canon.{canon};
ghost use Rattle.mbim_fields.specs.View.{shape_view, value_view, val_view};
ghost use Rattle.mbim_services.specs.Requests as spec;
ghost use Rattle.mbim_services.specs.Requests.{IsInRange, IsIndex, IsText, sent_by, buffer_sent};
ghost use Rattle.mbim_services.specs.Table.{layout_sent};

use crate::commands::address_of;
use crate::sent::Command;
use crate::table::{Way, layout};
use kit_bytes::{Octets, PathText, ShortOctets, ShortText, Text};
use mbim_fields::{EncodeFault, FieldShape, FieldVal, FieldValue, encode_fields};
use mbim_requests::{ContextIpType, MbimRequest};
use std::alloc::{AllocError, Global};
use uuid::Uuid;

/// How many bytes the buffer of a command has at most.
pub const LONGEST_BUFFER: usize = 8_204;

// The seconds for which the proxy is to wait for its modem.
const TIMEOUT: u32 = 30;

// The type of a context that leads to the internet.
const INTERNET: [u8; 16] = [
    0x7E, 0x5E, 0x2A, 0x7E, 0x4E, 0x6F, 0x72, 0x72, 0x73, 0x6B, 0x65, 0x6E, 0x7E, 0x5E, 0x2A, 0x7E,
];

/// The command that a request sends.
pub fn command(alloc: Global, body: &MbimRequest) -> Result<Command, AllocError>
    ensures uuid { IfOk result (λ command. command.uuid ≡ (sent_by body.now).row.service) }
    ensures cid { IfOk result (λ command. command.cid ≡ (sent_by body.now).row.cid) }
    ensures set { IfOk result (λ command. command.set ≡ (sent_by body.now).set) }
    ensures buffer { IfOk result (λ command. buffer_sent (sent_by body.now) ≡ Some command.buffer) }
    ensures short { IfOk result (λ command. length command.buffer ≤ LONGEST_BUFFER) }
{
    let (service, cid) = address_of(body);
    let set = sets(body);
    let values = FieldVal::from(values_of(alloc, body)?);
    let buffer = encoded(alloc, layout_sent(body, set), &values)?;
    Ok(Command {
        uuid: service.uuid(),
        cid,
        set,
        buffer,
    })
}

// The encoding of values, which have one in this layout.
fn encoded(
    alloc: Global,
    shape: Option<FieldShape>,
    values: &FieldVal,
) -> Result<Octets, AllocError>
    requires { IsSome (option_and_then (λ layout. canon layout (list_of (val_view values.now))) (option_map shape_view shape)) }
    ensures { IfOk result (λ octets. option_and_then (λ layout. canon layout (list_of (val_view values.now))) (option_map shape_view shape) ≡ Some octets) }
{
    let Some(shape) = shape else { unreachable!() };
    match encode_fields(alloc, &shape, values) {
        Ok(octets) => Ok(octets),
        Err(EncodeFault::OutOfMemory) => Err(AllocError),
        Err(EncodeFault::Misfit) => unreachable!(),
    }
}

// The layout of the buffer of its set, or of its query.
fn layout_sent(body: &MbimRequest, set: bool) -> Option<FieldShape>
    ensures { option_map shape_view result ≡ layout_sent (sent_by body.now).row set }
{
    let (service, cid) = address_of(body);
    if set {
        layout(service.uuid(), cid, Way::Set)
    } else {
        layout(service.uuid(), cid, Way::Query)
    }
}

/// The layout of the buffer of its answer.
pub(crate) fn layout_done(body: &MbimRequest) -> FieldShape
    ensures { shape_view result ≡ (sent_by body.now).row.done }
{
    let (service, cid) = address_of(body);
    layout(service.uuid(), cid, Way::Done).unwrap()
}

// Whether a request's command changes something.
fn sets(body: &MbimRequest) -> bool
    ensures { result ≡ (sent_by body.now).set }
{
    matches!(
        body,
        MbimRequest::SetRadioState(_)
            | MbimRequest::AttachPacketService
            | MbimRequest::DetachPacketService
            | MbimRequest::Connect { .. }
            | MbimRequest::Disconnect(_)
            | MbimRequest::SmsDelete(_)
            | MbimRequest::UssdInitiate(_, _)
            | MbimRequest::UssdContinue(_, _)
            | MbimRequest::UssdCancel
            | MbimRequest::PhonebookDelete(_)
            | MbimRequest::PhonebookWrite { .. }
            | MbimRequest::ProxyConfiguration(_)
    )
}

// The values of the fields of a request's buffer.
fn values_of(alloc: Global, body: &MbimRequest) -> Result<Vec<FieldValue>, AllocError>
    ensures values { IfOk result (λ values. map value_view values.items ≡ (sent_by body.now).values) }
    ensures in_range { IfOk result (λ _. IsInRange body.now) }
{
    match body {
        MbimRequest::SetRadioState(on) => Ok(vec![in alloc; number(u32::from(*on))]?),
        MbimRequest::QueryVisibleProviders | MbimRequest::AttachPacketService => {
            Ok(vec![in alloc; number(0)]?)
        }
        MbimRequest::DetachPacketService => Ok(vec![in alloc; number(1)]?),
        MbimRequest::Connect {
            session_id,
            access_string,
            username,
            password,
            ip_type,
        } => {
            let access_string = text_given(alloc, access_string)?;
            let username = text_given(alloc, username)?;
            let texts = (access_string, username, text_given(alloc, password)?);
            connection(alloc, *session_id, 1, texts, *ip_type)
        }
        MbimRequest::Disconnect(session_id) => disconnection(alloc, *session_id),
        MbimRequest::QueryConnectionState(session_id) => connection_of(alloc, *session_id),
        MbimRequest::QueryIpConfiguration(session_id) => ip_configuration_of(alloc, *session_id),
        MbimRequest::SmsReadAll => Ok(vec![in alloc; number(0), number(0), number(0)]?),
        MbimRequest::SmsRead(index) => Ok(vec![in alloc; number(0), number(1), number(*index)]?),
        MbimRequest::SmsDelete(index)
        | MbimRequest::PhonebookRead(index)
        | MbimRequest::PhonebookDelete(index) => Ok(vec![in alloc; number(1), number(*index)]?),
        MbimRequest::UssdInitiate(scheme, payload) => exchange(alloc, 0, *scheme, payload),
        MbimRequest::UssdContinue(scheme, payload) => exchange(alloc, 1, *scheme, payload),
        MbimRequest::UssdCancel => Ok(vec![in alloc; number(2), number(0), no_octets(alloc)]?),
        MbimRequest::PhonebookReadAll => Ok(vec![in alloc; number(0), number(0)]?),
        MbimRequest::PhonebookWrite {
            name,
            number,
            index,
        } => entry(alloc, name, number, *index),
        MbimRequest::ProxyConfiguration(path) => {
            let path = path_text(alloc, path)?;
            Ok(vec![in alloc; path, number(TIMEOUT)]?)
        }
        // The others have no fields.
        _ => Ok(Vec::new(alloc)),
    }
}

// What is to become of a session: its access string, user name and password are these texts.
fn connection(
    alloc: Global,
    session_id: u32,
    activation: u32,
    texts: (FieldValue, FieldValue, FieldValue),
    ip_type: ContextIpType,
) -> Result<Vec<FieldValue>, AllocError>
    ensures { IfOk result (λ values. map value_view values.items ≡ spec.connection session_id (field.number activation) (value_view texts.0) (value_view texts.1) (value_view texts.2) ip_type) }
{
    let (access_string, username, password) = texts;
    Ok(vec![in alloc;
        number(session_id),
        number(activation),
        access_string,
        username,
        password,
        number(0),
        number(0),
        context_ip_type(ip_type),
        internet(),
    ]?)
}

fn disconnection(alloc: Global, session_id: u32) -> Result<Vec<FieldValue>, AllocError>
    ensures { IfOk result (λ values. map value_view values.items ≡ spec.connection session_id spec.deactivate spec.no_text spec.no_text spec.no_text ContextIpType.Default) }
{
    let texts = (no_text(alloc), no_text(alloc), no_text(alloc));
    connection(alloc, session_id, 0, texts, ContextIpType::Default)
}

// The query for what has become of a session: all but its id and the context's type is empty.
fn connection_of(alloc: Global, session_id: u32) -> Result<Vec<FieldValue>, AllocError>
    ensures { IfOk result (λ values. map value_view values.items ≡ field.number session_id ∷ spec.zero ∷ spec.zero ∷ spec.zero ∷ spec.internet ∷ spec.zero ∷ []) }
{
    Ok(vec![in alloc;
        number(session_id),
        number(0),
        number(0),
        number(0),
        internet(),
        number(0),
    ]?)
}

// A part of a dialogue with the network.
fn exchange(
    alloc: Global,
    action: u32,
    scheme: u8,
    payload: &ShortOctets,
) -> Result<Vec<FieldValue>, AllocError>
    ensures values { IfOk result (λ values. map value_view values.items ≡ field.number action ∷ field.number scheme ∷ field.octets payload.now ∷ []) }
    ensures range { IfOk result (λ _. length payload.now ≤ LONGEST_SHORT_OCTETS) }
{
    let payload = short_octets(alloc, payload)?;
    Ok(vec![in alloc; number(action), number(u32::from(scheme)), payload]?)
}

// What is to stand in the phone book.
fn entry(
    alloc: Global,
    name: &ShortText,
    phone: &ShortText,
    index: Option<u32>,
) -> Result<Vec<FieldValue>, AllocError>
    ensures values { IfOk result (λ values. map value_view values.items ≡ spec.save_flag index ∷ spec.save_index index ∷ field.text_of phone.now ∷ field.text_of name.now ∷ []) }
    ensures name { IfOk result (λ _. IsText LONGEST_SHORT_TEXT name.now) }
    ensures phone { IfOk result (λ _. IsText LONGEST_SHORT_TEXT phone.now) }
    ensures index { IfOk result (λ _. IfSome index IsIndex) }
{
    let phone = short_text(alloc, phone)?;
    let name = short_text(alloc, name)?;
    let (flag, index) = save_place(index);
    Ok(vec![in alloc; number(flag), number(index), phone, name]?)
}

// The query for the addresses of a session: all but its id is empty.
fn ip_configuration_of(alloc: Global, session_id: u32) -> Result<Vec<FieldValue>, AllocError>
    ensures { IfOk result (λ values. map value_view values.items ≡ spec.ip_configuration_of session_id) }
{
    Ok(vec![in alloc;
        number(session_id),
        number(0),
        number(0),
        number(0),
        no_elements(alloc),
        number(0),
        no_elements(alloc),
        absent(),
        absent(),
        number(0),
        no_elements(alloc),
        number(0),
        no_elements(alloc),
        number(0),
        number(0),
    ]?)
}

fn number(number: u32) -> FieldValue
    ensures { value_view result ≡ field.number number }
{
    FieldValue::Number(u64::from(number))
}

fn internet() -> FieldValue
    ensures { value_view result ≡ spec.internet }
{
    FieldValue::Uuid(Uuid::from_bytes(INTERNET))
}

fn absent() -> FieldValue
    ensures { value_view result ≡ field.absent }
{
    FieldValue::Absent
}

fn no_text(alloc: Global) -> FieldValue
    ensures { value_view result ≡ spec.no_text }
{
    FieldValue::Text(Text::from(String::new(alloc)))
}

fn no_octets(alloc: Global) -> FieldValue
    ensures { value_view result ≡ field.octets [] }
{
    FieldValue::Octets(Octets::new(alloc))
}

fn no_elements(alloc: Global) -> FieldValue
    ensures { value_view result ≡ spec.no_elements }
{
    FieldValue::List(FieldVal::from(Vec::new(alloc)))
}

fn text_of(alloc: Global, text: &Text) -> Result<FieldValue, AllocError>
    ensures value { IfOk result (λ value. value_view value ≡ field.text_of text.now) }
    ensures scalars { IfOk result (λ _. IsTrue (all_scalars text.now)) }
{
    Ok(FieldValue::Text(Text::from_str(alloc, text.as_str())?))
}

fn short_text(alloc: Global, text: &ShortText) -> Result<FieldValue, AllocError>
    ensures value { IfOk result (λ value. value_view value ≡ field.text_of text.now) }
    ensures range { IfOk result (λ _. IsText LONGEST_SHORT_TEXT text.now) }
{
    text_of(alloc, text.value())
}

fn path_text(alloc: Global, path: &PathText) -> Result<FieldValue, AllocError>
    ensures value { IfOk result (λ value. value_view value ≡ field.text_of path.now) }
    ensures range { IfOk result (λ _. IsText LONGEST_PATH path.now) }
{
    text_of(alloc, path.value())
}

// What isn't there is empty.
fn text_given(alloc: Global, text: &Option<ShortText>) -> Result<FieldValue, AllocError>
    ensures value { IfOk result (λ value. value_view value ≡ spec.text_given text.now) }
    ensures range { IfOk result (λ _. IfSome text.now (IsText LONGEST_SHORT_TEXT)) }
{
    match text {
        Some(text) => short_text(alloc, text),
        None => Ok(no_text(alloc)),
    }
}

fn short_octets(alloc: Global, octets: &ShortOctets) -> Result<FieldValue, AllocError>
    ensures value { IfOk result (λ value. value_view value ≡ field.octets octets.now) }
    ensures range { IfOk result (λ _. length octets.now ≤ LONGEST_SHORT_OCTETS) }
{
    Ok(FieldValue::Octets(Octets::from_slice(alloc, octets.value().as_slice())?))
}

fn context_ip_type(ip_type: ContextIpType) -> FieldValue
    ensures { value_view result ≡ spec.context_ip_type ip_type }
{
    number(match ip_type {
        ContextIpType::Default => 0,
        ContextIpType::Ipv4 => 1,
        ContextIpType::Ipv6 => 2,
        ContextIpType::Ipv4v6 => 3,
    })
}

// The flag of a place in the phone book, and its index: this one, or one that isn't used.
fn save_place(index: Option<u32>) -> (u32, u32)
    ensures flag { field.number result.0 ≡ spec.save_flag index }
    ensures index { field.number result.1 ≡ spec.save_index index }
{
    match index {
        Some(index) => (1, index),
        None => (0, 0),
    }
}

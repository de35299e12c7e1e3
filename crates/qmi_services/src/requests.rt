ghost use Rattle.std.specs.Prelude.{◌≡◌, ◌+◌, [], ◌∷◌, ◌++◌, ◌≤◌, length, IfOk, OnOk};
ghost use Rattle.std.specs.Str.{encode_utf8_all};
ghost use Rattle.kit_bytes.specs.Numbers.{u16_bytes};
ghost use Rattle.tlv_codec.specs.Tlv.{tlv_text};
ghost use Rattle.qmi_services.specs.Requests.{byte_given, inputs_of, point_to_point, row_of, text_given, tlv};
ghost use Rattle.qmi_services.specs.View.{row_view};

use crate::messages::{address_of, rows};
use crate::modem::row_in;
use crate::table::Row;
use kit_bytes::{Octets, ShortOctets, ShortText, u16_bytes, u32_bytes};
use qmi_requests::QmiRequest;
use std::alloc::{AllocError, Global};
use tlv_codec::write_tlv;

/// The settings that Get Current Settings asks for, one bit for each.
const WANTED_SETTINGS: u32 = 0x2310;

/// The format of 3GPP's point-to-point messages.
const POINT_TO_POINT: u8 = 6;

/// The TLVs of a request's message.
pub fn request(alloc: Global, body: &QmiRequest) -> Result<Octets, AllocError>
    ensures tlvs { IfOk result (λ octets. octets ≡ tlv_text (inputs_of body.now)) }
    // Its texts and bytes are short, so a message has room for them.
    ensures short { IfOk result (λ octets. length octets ≤ 5000) }
{
    let mut out = Octets::new(alloc);
    write_inputs(alloc, &mut out, body)?;
    Ok(out)
}

// Adds the TLVs of a request's message.
fn write_inputs(alloc: Global, out: &mut Octets, body: &QmiRequest) -> Result<(), AllocError>
    ensures tlvs { OnOk result (out.new ≡ out.old ++ tlv_text (inputs_of body.now)) }
    ensures short { OnOk result (length out.new ≤ length out.old + 5000) }
{
    match body {
        QmiRequest::DmsSetOperatingMode(mode) => write_value(out, 0x01, &[*mode]),
        QmiRequest::WdsStartNetwork {
            apn,
            username,
            password,
            ip_type,
        } => {
            write_text(out, 0x14, apn)?;
            write_text(out, 0x17, username)?;
            write_text(out, 0x18, password)?;
            write_byte(out, 0x19, ip_type)
        }
        QmiRequest::WdsStopNetwork(handle) => write_value(out, 0x01, &u32_bytes(*handle)),
        QmiRequest::WdsGetCurrentSettings => write_value(out, 0x10, &u32_bytes(WANTED_SETTINGS)),
        QmiRequest::WmsRawSend(pdu) => write_raw_send(alloc, out, pdu),
        QmiRequest::WmsRawRead { storage, index } => {
            let [a, b, c, d] = u32_bytes(*index);
            write_value(out, 0x01, &[*storage, a, b, c, d])
        }
        QmiRequest::WmsDelete { storage, index } => {
            write_value(out, 0x01, &[*storage])?;
            write_value(out, 0x10, &u32_bytes(*index))
        }
        QmiRequest::WmsListMessages(storage) => write_value(out, 0x01, &[*storage]),
        QmiRequest::ProxyOpen(path) => write_value(out, 0x01, path.value().as_str().as_bytes()),
        QmiRequest::Allocate(service) => write_value(out, 0x01, &[*service]),
        QmiRequest::Release(service, cid) => write_value(out, 0x01, &[*service, *cid]),
        // The others have no inputs.
        _ => Ok(()),
    }
}

// The message in the format of 3GPP's point-to-point messages, behind its length.
fn write_raw_send(alloc: Global, out: &mut Octets, pdu: &ShortOctets) -> Result<(), AllocError>
    ensures tlvs { OnOk result (out.new ≡ out.old ++ tlv_text (tlv 1 (point_to_point ∷ u16_bytes (length pdu.now) ++ pdu.now))) }
    ensures short { OnOk result (length out.new ≤ length out.old + 1000) }
{
    let pdu = pdu.value().as_slice();
    let [low, high] = u16_bytes(pdu.len() as u16);
    let mut value = Octets::new(alloc);
    value.extend_from_slices(&[POINT_TO_POINT, low, high], pdu)?;
    write_value(out, 0x01, value.as_slice())
}

fn write_value(out: &mut Octets, kind: u8, value: &[u8]) -> Result<(), AllocError>
    requires { length value.now ≤ 65535 }
    ensures tlvs { OnOk result (out.new ≡ out.old ++ tlv_text (tlv kind value.now)) }
    ensures length { OnOk result (length out.new ≡ length out.old + 3 + length value.now) }
{
    write_tlv(out, kind, value)
}

// A text's TLV, where the text is given.
fn write_text(out: &mut Octets, kind: u8, text: &Option<ShortText>) -> Result<(), AllocError>
    ensures tlvs { OnOk result (out.new ≡ out.old ++ tlv_text (text_given kind text.now)) }
    ensures short { OnOk result (length out.new ≤ length out.old + 1003) }
{
    match text {
        Some(text) => write_value(out, kind, text.value().as_str().as_bytes()),
        None => Ok(()),
    }
}

// A byte's TLV, where the byte is given.
fn write_byte(out: &mut Octets, kind: u8, byte: &Option<u8>) -> Result<(), AllocError>
    ensures tlvs { OnOk result (out.new ≡ out.old ++ tlv_text (byte_given kind byte.now)) }
    ensures short { OnOk result (length out.new ≤ length out.old + 4) }
{
    match byte {
        Some(byte) => write_value(out, kind, &[*byte]),
        None => Ok(()),
    }
}

/// The service that a request asks.
pub fn service_of(body: &QmiRequest) -> u8
    ensures { result ≡ (row_of body.now).service }
{
    address_of(body).0
}

/// The id of a request's message.
pub fn message_of(body: &QmiRequest) -> u16
    ensures { result ≡ (row_of body.now).id }
{
    address_of(body).1
}

/// The line of the table that a request has.
pub(crate) fn row_of(body: &QmiRequest) -> &'static Row
    ensures { row_view result.now ≡ row_of body.now }
{
    let (service, id) = address_of(body);
    row_in(&rows(), service, id).unwrap()
}

ghost use Rattle.std.specs.Prelude.{◌≡◌};
ghost use Rattle.serde_json.specs.View.{view};
ghost use Rattle.uuid.specs.Text.{parsed};
ghost use Rattle.modem_rules.specs.Kinds.{is_same};
ghost use Rattle.modem_rules.specs.Values.{kind_alone, kind_in, uuid_in};

use crate::members::{has_members, number_in};
use kit_bytes::Kind;
use serde_json::Value;
use uuid::Uuid;

/// A kind of request: all requests of one message or command.
#[derive(Clone, Copy, PartialEq, Eq, Hash)]
pub enum RequestKind {
    /// The message of a QMI service.
    Message { service: u8, message: u16 },
    /// The command of an MBIM service.
    Command { service: Uuid, command: u32 },
}

impl RequestKind {
    /// Whether this is that kind.
    pub fn is_same(&self, other: &RequestKind) -> bool
        ensures { result ≡ is_same self.now other.now }
    {
        match (self, other) {
            (
                RequestKind::Message { service, message },
                RequestKind::Message {
                    service: other_service,
                    message: other_message,
                },
            ) => message == other_message && service == other_service,
            (
                RequestKind::Command { service, command },
                RequestKind::Command {
                    service: other_service,
                    command: other_command,
                },
            ) => command == other_command && service == other_service,
            _ => false,
        }
    }

    /// The kind that an object's members name to a modem of this kind.
    pub(crate) fn read(kind: Kind, object: &Value) -> Option<RequestKind>
        ensures { result ≡ kind_in kind (view object.now) }
    {
        match kind {
            Kind::Qmi => message_in(object),
            Kind::Mbim => command_in(object),
        }
    }

    /// The same, where the object has no other members.
    #[tactic(auto, unfolding(crate::specs::Values::kind_alone))]
    pub(crate) fn read_alone(kind: Kind, object: &Value) -> Option<RequestKind>
        ensures { result ≡ kind_alone kind (view object.now) }
    {
        let request = RequestKind::read(kind, object)?;
        if has_members(object, 2) {
            Some(request)
        } else {
            None
        }
    }
}

fn message_in(object: &Value) -> Option<RequestKind>
    ensures { result ≡ kind_in Kind.Qmi (view object.now) }
{
    let service = number_in(object, "service", 0, 0xff)?;
    let message = number_in(object, "message", 0, 0xffff)?;
    Some(RequestKind::Message {
        service: service as u8,
        message: message as u16,
    })
}

fn command_in(object: &Value) -> Option<RequestKind>
    ensures { result ≡ kind_in Kind.Mbim (view object.now) }
{
    let service = uuid_in(object)?;
    let command = number_in(object, "command", 0, 0xffff_ffff)?;
    Some(RequestKind::Command {
        service,
        command: command as u32,
    })
}

fn uuid_in(object: &Value) -> Option<Uuid>
    ensures { result ≡ uuid_in (view object.now) }
{
    let text = object.get("service")?.as_str()?;
    uuid_of(text)
}

// The UUID that a text spells in one of its forms.
fn uuid_of(text: &str) -> Option<Uuid>
    ensures { result ≡ parsed text.now }
{
    Uuid::parse_str(text).ok()
}

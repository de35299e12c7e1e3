use crate::text::{id_name, push_lines};
use json_values::AsPrinted;
use kit_bytes::{Octets, Text};
use link_following::Shows;
use message_tables::{Message, TlvShape};
use qmux_frame::{Head, MessageKind, Qmux, tlvs_in};
use std::alloc::{AllocError, Global};
use std::marker::Model;
use table_requests::indication_line;

/// The client id in indications for each client of a service.
const EACH_CLIENT: u8 = 0xFF;

/// Shows the indications for a client of a service by their tables.
#[derive(Drop)]
pub struct Watch<'a> {
    service: u8,
    /// The client id.
    cid: u8,
    /// Whether each is shown as one JSON object.
    json: bool,
    indications: &'a [Message],
}

impl<'a> Model for Watch<'a> {
    ghost use Rattle.std.specs.List.{AllByRecursion};
    ghost use Rattle.std.specs.Coded.{codes};
    ghost use Rattle.qmi_shapes.specs.contracts.shape.Shape as shape;
    ghost use Rattle.message_tables.specs.View.{messages_in};
    ghost use Rattle.message_tables.specs.WellMade.{IsSoundMessage};
    ghost use Rattle.table_following.specs.Lines.{Watched};

    ghost Value = { Watched };

    ghost coded = { Prim.hlevel (codes, shape.the_row.coded) };

    ghost view = { λ watch. record { service = watch.service; cid = watch.cid; json = watch.json; indications = watch.indications.now } };

    ghost invariant = { λ watch. AllByRecursion IsSoundMessage (messages_in watch.indications.now) };
}

impl<'a> Watch<'a> {
    ghost use Rattle.std.specs.Prelude.{◌≡◌, ◌++◌, true, map, option_map, IfSome, OnOk};
    ghost use Rattle.std.specs.List.{AllByRecursion, find};
    ghost use Rattle.message_tables.specs.Messages.{is_key};
    ghost use Rattle.message_tables.specs.View.{message_view, messages_in, tlv_view};
    ghost use Rattle.message_tables.specs.WellMade.{IsSoundMessage, IsSoundTlv};
    ghost use Rattle.table_following.specs.Lines.{indication_text, is_followed, told_by, told_text};

    /// The indications for a client, by these tables.
    pub fn new(service: u8, cid: u8, json: bool, indications: &'a [Message]) -> Self
        requires { AllByRecursion IsSoundMessage (messages_in indications.now) }
        ensures { result ≡ record { service = service; cid = cid; json = json; indications = indications.now } }
    {
        Watch {
            service,
            cid,
            json,
            indications,
        }
    }

    // Whether it is an indication for the client.
    fn is_followed(&self, head: Head) -> bool
        ensures { result ≡ is_followed self.now.service self.now.cid head }
    {
        head.framed
            && matches!(head.kind(), MessageKind::Indication)
            && head.service == self.service
            && (head.cid == self.cid || head.cid == EACH_CLIENT)
    }

    // The indication of this id in the tables.
    #[tactic(auto, using(message_tables::proofs::Lists::taken))]
    fn form_of(&self, id: u16) -> Option<&Message>
        ensures found { option_map (λ form. message_view form.now) result ≡ find (is_key self.now.service id true) (messages_in self.now.indications) }
        ensures sound { IfSome result (λ form. IsSoundMessage (message_view form.now)) }
    {
        for form in self.indications {
            if self.service == form.service && id == form.id && form.indication {
                return Some(form);
            }
        }
        None
    }

    // Adds the text of the indication of this id with these TLVs.
    fn push_told(
        &self,
        alloc: Global,
        lines: &mut Octets,
        id: u16,
        tlvs: &[u8],
    ) -> Result<(), AllocError>
        ensures { OnOk result (lines.new ≡ lines.old ++ told_text self.now id tlvs.now) }
    {
        match self.form_of(id) {
            Some(form) => self.push_by(alloc, lines, &form.name, form.output.as_slice(), tlvs),
            None => {
                let name = id_name(alloc, id)?;
                self.push_by(alloc, lines, &name, &[], tlvs)
            }
        }
    }

    // Adds the text of an indication of a name with these TLVs.
    fn push_by(
        &self,
        alloc: Global,
        lines: &mut Octets,
        name: &Text,
        forms: &[TlvShape],
        tlvs: &[u8],
    ) -> Result<(), AllocError>
        requires { AllByRecursion IsSoundTlv (map tlv_view forms.now) }
        ensures { OnOk result (lines.new ≡ lines.old ++ indication_text self.now.json name.now (map tlv_view forms.now) tlvs.now) }
    {
        if self.json {
            let line = indication_line(alloc, &AsPrinted, name, forms, tlvs)?;
            lines.extend_from_slice(line.as_slice())
        } else {
            push_lines(alloc, lines, name, forms, tlvs)
        }
    }
}

impl<'a> Shows<Qmux> for Watch<'a> {
    ghost use Rattle.table_following.specs.Lines.{followed_lines};

    ghost shown = { followed_lines };

    fn show(&self, alloc: Global, lines: &mut Octets, message: &[u8]) -> Result<(), AllocError> {
        let head = Head::read(message);
        if !self.is_followed(head) {
            return Ok(());
        }
        self.push_told(alloc, lines, head.message, tlvs_in(message))
    }
}

ghost use Rattle.std.specs.Prelude.{◌≡◌, ◌++◌, [], IfOk, OnOk};
ghost use Rattle.framing.specs.Framing.{IsMessage};
ghost use Rattle.modem_profile.specs.Limits.{IsWithin};
ghost use Rattle.qmi_services.specs.View.{row_view};
ghost use Rattle.qmux_frame.specs.Frame.{size_of};
ghost use Rattle.sim_modem.specs.Sim.{answers};
ghost use Rattle.sim_qmi.specs.Fits.{IsInRange};
ghost use Rattle.sim_qmi.specs.Modem.{Keeps, exchange, indications, machine, meets, serves, takes};
ghost use Rattle.sim_qmi.specs.Requests.{asked, row_of};
ghost use Rattle.sim_qmi.specs.State.{IsSound};
ghost use Rattle.sim_qmi.specs.View.{IsOfItsRow, answer_view, asked_view};

use crate::answer::Answer;
use crate::errors::{INVALID_CLIENT_ID, INVALID_COMMAND, MISSING_ARGUMENT};
use crate::response::{failure, indication, response};
use crate::state::ModemState;
use crate::{DmsRequest, Request, ctl, dms, nas, wds, wms};
use kit_bytes::Octets;
use modem_profile::Profile;
use qmi_services::messages::NAS;
use qmi_services::{Message, message_at};
use qmux_frame::{Head, MessageKind, Qmux, tlvs_in};
use sim_modem::Sim;
use std::alloc::{AllocError, Global};
use std::marker::Model;

/// A simulated QMI modem.
#[derive(Drop)]
pub struct QmiSim {
    alloc: Global,
    profile: Profile,
    state: ModemState,
}

impl Model for QmiSim {
    ghost use Rattle.modem_profile.specs.Limits.{IsWithin};
    ghost use Rattle.sim_qmi.specs.Modem.{Modem};

    ghost Value = { Modem };

    ghost view = { λ sim. record { profile = sim.profile; state = sim.state } };

    ghost invariant = { λ sim. IsWithin sim.profile };
}

/// What a request asks of the modem, or why it is refused.
#[derive(Drop)]
pub(crate) enum Asked {
    /// By this error.
    Refused(u16),
    /// This, by this message of the table.
    Asks(Message, Request),
}

impl QmiSim {
    /// A modem of this profile, before any request.
    pub fn open(alloc: Global, profile: &Profile) -> Result<QmiSim, AllocError>
        ensures { IfOk result (Keeps (answers (machine profile.now)) []) }
    {
        let profile = profile.copy(alloc)?;
        let state = ModemState::fresh(alloc, &profile)?;
        Ok(QmiSim {
            alloc,
            profile,
            state,
        })
    }

    // The messages that a message brings.
    fn meet(&mut self, message: &[u8]) -> Result<Octets, AllocError>
        requires { IsMessage size_of message.now }
        ensures messages { IfOk result (λ octets. octets ≡ (meets self.old.profile self.old.state message.now).messages) }
        ensures state { OnOk result (self.new ≡ record self.old { state = (meets self.old.profile self.old.state message.now).state }) }
    {
        let head = Head::read(message);
        if head.framed && head.kind() == MessageKind::Request {
            self.take(&head, tlvs_in(message))
        } else {
            Ok(Octets::new(self.alloc))
        }
    }

    // The messages that a request brings.
    fn take(&mut self, head: &Head, tlvs: &[u8]) -> Result<Octets, AllocError>
        ensures messages { IfOk result (λ octets. octets ≡ (takes self.old.profile self.old.state head.now (asked self.old.state head.now tlvs.now)).messages) }
        ensures state { OnOk result (self.new ≡ record self.old { state = (takes self.old.profile self.old.state head.now (asked self.old.state head.now tlvs.now)).state }) }
    {
        match self.asked(head, tlvs)? {
            Asked::Refused(error) => failure(self.alloc, head, error),
            Asked::Asks(message, request) => self.serve(head, &message, request),
        }
    }

    // What a request asks, or why it is refused.
    fn asked(&self, head: &Head, tlvs: &[u8]) -> Result<Asked, AllocError>
        ensures asked { IfOk result (λ found. asked_view found ≡ asked self.now.state head.now tlvs.now) }
        ensures row { IfOk result IsOfItsRow }
        ensures sound { IsSound self.now.state }
        ensures within { IsWithin self.now.profile }
    {
        self.state.tell_sound();
        if !self.state.is_known(head) {
            return Ok(Asked::Refused(INVALID_CLIENT_ID));
        }
        let Some(message) = message_at(head.service, head.message) else {
            return Ok(Asked::Refused(INVALID_COMMAND));
        };
        match Request::read(self.alloc, &message, tlvs)? {
            Some(request) => Ok(Asked::Asks(message, request)),
            None => Ok(Asked::Refused(MISSING_ARGUMENT)),
        }
    }

    // The messages that a request of a message brings.
    fn serve(
        &mut self,
        head: &Head,
        message: &Message,
        request: Request,
    ) -> Result<Octets, AllocError>
        requires row { row_view message.now ≡ row_of request }
        requires range { IsInRange request }
        requires sound { IsSound self.old.state }
        requires within { IsWithin self.old.profile }
        ensures messages { IfOk result (λ octets. octets ≡ (exchange self.old.profile head.now request (serves self.old.profile self.old.state request)).messages) }
        ensures state { OnOk result (self.new ≡ record self.old { state = (serves self.old.profile self.old.state request).state }) }
    {
        let answer = self.answer(request)?;
        let mut messages = response(self.alloc, head, message, &answer)?;
        self.add_indications(&mut messages, request)?;
        Ok(messages)
    }

    fn answer(&mut self, request: Request) -> Result<Answer, AllocError>
        ensures answer { IfOk result (λ answer. answer_view answer ≡ (serves self.old.profile self.old.state request).answer) }
        ensures state { OnOk result (self.new ≡ record self.old { state = (serves self.old.profile self.old.state request).state }) }
    {
        match request {
            Request::Ctl(request) => ctl::answer(self.alloc, &mut self.state, request),
            Request::Wds(request) => wds::answer(self.alloc, &mut self.state, request),
            Request::Dms(request) => {
                dms::answer(self.alloc, &self.profile, &mut self.state, request)
            }
            Request::Nas(request) => nas::answer(self.alloc, &self.profile, &self.state, request),
            Request::Wms(request) => wms::answer(self.alloc, &mut self.state, request),
        }
    }

    // Set Operating Mode tells of the serving system, where an id of NAS is given.
    fn add_indications(&self, messages: &mut Octets, request: Request) -> Result<(), AllocError>
        requires { IsWithin self.now.profile }
        ensures { OnOk result (messages.new ≡ messages.old ++ indications self.now.profile self.now.state request) }
    {
        let Request::Dms(DmsRequest::SetOperatingMode { .. }) = request else {
            return Ok(());
        };
        if self.state.is_any_given(NAS) {
            let indication = indication(self.alloc, &self.profile, self.state.mode())?;
            messages.extend_from_slice(indication.as_slice())?;
        }
        Ok(())
    }
}

impl Sim for QmiSim {
    type Framing = Qmux;

    ghost keeps = { Keeps };

    fn ask(&mut self, message: &[u8]) -> Result<Octets, AllocError> {
        self.meet(message)
    }
}

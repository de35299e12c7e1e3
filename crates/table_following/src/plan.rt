use crate::watch::Watch;
use message_tables::Message;
use request_session::{Client, RequestPlan};
use std::marker::Model;
use table_requests::TablePlan;

/// What a session is to do whose indications are followed.
#[derive(Drop)]
pub struct FollowPlan {
    request: TablePlan,
    /// The indications that its file tells.
    indications: Vec<Message>,
    /// How many turns it follows at most: a turn is a message, or a tick in which nothing came.
    turns: u64,
}

impl Model for FollowPlan {
    ghost use Rattle.std.specs.List.{AllByRecursion};
    ghost use Rattle.std.specs.Coded.{codes};
    ghost use Rattle.qmi_shapes.specs.contracts.shape.Shape as shape;
    ghost use Rattle.message_tables.specs.View.{messages_in};
    ghost use Rattle.message_tables.specs.WellMade.{IsSoundMessage};
    ghost use Rattle.table_following.specs.Plan.{Plan};

    ghost Value = { Plan };

    ghost coded = { Prim.hlevel (codes, shape.the_row.coded) };

    ghost view = { λ plan. record { request = plan.request; indications = plan.indications.items; turns = plan.turns } };

    ghost invariant = { λ plan. AllByRecursion IsSoundMessage (messages_in plan.indications.items) };
}

impl FollowPlan {
    ghost use Rattle.std.specs.Prelude.{◌≡◌, ◌≤◌, length};
    ghost use Rattle.std.specs.List.{AllByRecursion};
    ghost use Rattle.qmux_frame.specs.declared.writing.TheConstants.{LONGEST_TLVS as longest};
    ghost use Rattle.message_tables.specs.View.{messages_in};
    ghost use Rattle.message_tables.specs.WellMade.{IsSoundMessage};
    ghost use Rattle.table_following.specs.Plan.{kept_by, watched};

    /// A plan of a request and of the indications that are followed behind its answer.
    pub fn new(request: TablePlan, indications: Vec<Message>, turns: u64) -> Self
        requires { AllByRecursion IsSoundMessage (messages_in indications.items) }
        ensures { result ≡ record { request = request; indications = indications.items; turns = turns } }
    {
        FollowPlan {
            request,
            indications,
            turns,
        }
    }

    /// The session, whose request a message has room for.
    pub(crate) fn session(&self) -> &RequestPlan
        ensures same { result.now ≡ self.now.request.session }
        ensures short { length self.now.request.session.request.tlvs ≤ longest }
    {
        self.request.session()
    }

    pub(crate) fn request(&self) -> &TablePlan
        ensures { result.now ≡ self.now.request }
    {
        &self.request
    }

    pub(crate) fn turns(&self) -> u64
        ensures { result ≡ self.now.turns }
    {
        self.turns
    }

    /// The service and the client id that are kept, if any are.
    pub(crate) fn kept(&self, client: Client) -> Option<(u8, u8)>
        ensures { result ≡ kept_by self.now.request.session client }
    {
        let session = self.request.session();
        let service = session.request.service;
        if service != 0 && session.keep {
            Some((service, client.id))
        } else {
            None
        }
    }

    /// The indications for this client.
    pub(crate) fn watch(&self, client: Client) -> Watch<'_>
        ensures { result ≡ watched self.now client }
    {
        let service = self.request.session().request.service;
        let json = self.request.in_json();
        Watch::new(service, client.id, json, &self.indications)
    }
}

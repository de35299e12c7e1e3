ghost use Rattle.std.specs.Prelude.{◌≡◌, ◌≤◌, length};
ghost use Rattle.message_tables.specs.View.{message_view};
ghost use Rattle.message_tables.specs.WellMade.{IsSoundMessage};

use message_tables::Message;
use qmux_frame::LONGEST_TLVS;
use request_session::RequestPlan;
use std::marker::Model;

/// What a session for a request by tables is to do.
#[derive(Drop)]
pub struct TablePlan {
    session: RequestPlan,
    /// The message whose request it is.
    message: Message,
    /// Whether the answer is printed as one JSON object, on a line.
    json: bool,
}

impl Model for TablePlan {
    ghost use Rattle.std.specs.Prelude.{◌≤◌, length};
    ghost use Rattle.std.specs.Coded.{codes};
    ghost use Rattle.qmi_shapes.specs.contracts.shape.Shape as shape;
    ghost use Rattle.qmux_frame.specs.declared.writing.TheConstants.{LONGEST_TLVS as longest};
    ghost use Rattle.message_tables.specs.View.{message_view};
    ghost use Rattle.message_tables.specs.WellMade.{IsSoundMessage};
    ghost use Rattle.table_requests.specs.Plan.{Plan};

    ghost Value = { Plan };

    ghost coded = { Prim.hlevel (codes, shape.the_row.coded) };

    ghost view = { λ plan. record { session = plan.session; message = plan.message; json = plan.json } };

    ghost invariant = { λ plan. (length plan.session.request.tlvs ≤ longest) × IsSoundMessage (message_view plan.message) };
}

impl TablePlan {
    /// A plan of a request that a message has room for.
    pub fn new(session: RequestPlan, message: Message, json: bool) -> Self
        requires short { length session.request.tlvs ≤ LONGEST_TLVS }
        requires sound { IsSoundMessage (message_view message) }
        ensures { result ≡ record { session = session; message = message; json = json } }
    {
        TablePlan {
            session,
            message,
            json,
        }
    }

    /// The session, whose request a message has room for.
    pub fn session(&self) -> &RequestPlan
        ensures same { result.now ≡ self.now.session }
        ensures short { length self.now.session.request.tlvs ≤ LONGEST_TLVS }
    {
        &self.session
    }

    /// The message whose request it is.
    pub fn message(&self) -> &Message
        ensures same { result.now ≡ self.now.message }
        ensures sound { IsSoundMessage (message_view self.now.message) }
    {
        &self.message
    }

    /// Whether the answer is printed as one JSON object.
    pub fn in_json(&self) -> bool
        ensures { result ≡ self.now.json }
    {
        self.json
    }
}

ghost use Rattle.std.specs.Prelude.{◌≡◌, ◌++◌};
ghost use Rattle.message_tables.specs.View.{messages_in};
ghost use Rattle.message_tables.specs.WellMade.{AreSound};
ghost use Rattle.qmux_frame.specs.Frame.{size_of};
ghost use Rattle.dissect.specs.Qmi.{qmi_lines};

use crate::qmi_message::push_message;
use kit_bytes::Octets;
use message_tables::Tables;
use qmux_frame::{Head, Qmux};
use std::alloc::{AllocError, Global};
use std::marker::Model;
use stream_lines::Shows;

/// Shows QMI messages by some tables.
#[derive(Drop)]
pub struct QmiLines<'a> {
    tables: &'a Tables,
}

impl<'a> Model for QmiLines<'a> {
    ghost use Rattle.std.specs.Prelude.{List};
    ghost use Rattle.std.specs.Coded.{codes};
    ghost use Rattle.qmi_shapes.specs.contracts.shape.Shape as shape;
    ghost use Rattle.message_tables.specs.declared.message.Message.{Message};
    ghost use Rattle.message_tables.specs.View.{messages_in};
    ghost use Rattle.message_tables.specs.WellMade.{AreSound};

    ghost Value = { List Message };

    ghost coded = { Prim.hlevel (codes, shape.the_row.coded) };

    ghost view = { λ lines. lines.tables.now };

    ghost invariant = { λ lines. AreSound (messages_in lines.tables.now) };
}

impl<'a> QmiLines<'a> {
    /// They are shown by these.
    pub fn new(tables: &'a Tables) -> Self
        requires { AreSound (messages_in tables.now) }
        ensures { result ≡ tables.now }
    {
        QmiLines { tables }
    }
}

impl<'a> Shows for QmiLines<'a> {
    type Frames = Qmux;

    ghost shows = { λ shown before tables. shown ≡ qmi_lines (messages_in tables) };

    fn show(
        &mut self,
        alloc: Global,
        lines: &mut Octets,
        place: u64,
        message: &[u8],
    ) -> Result<(), AllocError> {
        push_message(
            alloc,
            self.tables,
            lines,
            place,
            Head::read(message),
            message,
        )?;
        Ok(())
    }
}

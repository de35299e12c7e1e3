ghost use Rattle.std.specs.Prelude.{◌≡◌, [], ℕ, List, IfOk};
ghost use Rattle.message_tables.specs.View.{messages_in};
ghost use Rattle.message_tables.specs.WellMade.{AreSound};
ghost use Rattle.stream_lines.specs.Lines.{Showing};

use dissect::{MbimLines, QmiLines};
use message_tables::Tables;
use std::alloc::{AllocError, Global};
use stream_lines::Shows;

/// Makes what shows the messages of a stream that begins.
pub(crate) trait Shower {
    type Lines: Shows;

    /// It shows messages like this.
    ghost shown: { Self → Showing };

    /// What it is made from serves to show them.
    ghost serves: { Self → Type 0 };

    fn begin(&self, alloc: Global) -> Result<Self::Lines, AllocError>
        requires { serves self.now }
        ensures { IfOk result (Self.Lines.shows (shown self.now) []) };
}

/// Makes what shows messages of QMI by some tables.
#[derive(Drop)]
pub(crate) struct QmiShower<'a> {
    pub(crate) tables: &'a Tables,
}

impl<'a> Shower for QmiShower<'a> {
    ghost use Rattle.dissect.specs.Qmi.{qmi_lines};

    type Lines = QmiLines<'a>;

    ghost shown = { λ shower. qmi_lines (messages_in shower.tables.now) };

    ghost serves = { λ shower. AreSound (messages_in shower.tables.now) };

    fn begin(&self, _alloc: Global) -> Result<QmiLines<'a>, AllocError> {
        Ok(QmiLines::new(self.tables))
    }
}

/// Makes what shows messages of MBIM.
#[derive(Drop)]
pub(crate) struct MbimShower;

impl Shower for MbimShower {
    ghost use Rattle.dissect.specs.Mbim.{mbim_lines};

    type Lines = MbimLines;

    ghost shown = { λ _. mbim_lines };

    ghost serves = { λ _. Unit };

    fn begin(&self, alloc: Global) -> Result<MbimLines, AllocError> {
        MbimLines::open(alloc)
    }
}

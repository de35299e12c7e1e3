ghost use Rattle.std.specs.Prelude.{◌≡◌, IfOk};
ghost use Rattle.qmi_tunnel.specs.Tunnel.{wrapped};

use crate::service::{QMI_MESSAGE, QMI_SERVICE};
use kit_bytes::Octets;
use mbim_services::Command;
use std::alloc::{AllocError, Global};
use uuid::Uuid;

/// The command that carries a whole QMUX message.
pub fn wrap(alloc: Global, message: &[u8]) -> Result<Command, AllocError>
    ensures { IfOk result (λ command. command ≡ wrapped message.now) }
{
    Ok(Command {
        uuid: Uuid::from_bytes(QMI_SERVICE),
        cid: QMI_MESSAGE,
        set: true,
        buffer: Octets::from_slice(alloc, message)?,
    })
}

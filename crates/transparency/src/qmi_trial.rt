ghost use Rattle.std.specs.Prelude.{◌≡◌, ◌⊎◌, IfOk};
ghost use Rattle.transparency.specs.Qmi.{plan_of};

use crate::carried::qmi_tunnelled;
use crate::qmi::qmi_twice;
use crate::runs_twice::{PATIENCE, RunsTwice, device};
use core_bench::Bench;
use device_core::QmiPlan;
use modem_profile::Profile;
use printed_ends::{Printed, Twice};
use qmi_requests::QmiRequest;
use std::alloc::{AllocError, Global};

// How a request is planned.
fn plan_of(alloc: Global, request: QmiRequest) -> Result<QmiPlan, AllocError>
    ensures { IfOk result (λ plan. plan ≡ plan_of request) }
{
    match device(alloc) {
        Ok(device) => Ok(QmiPlan {
            device,
            proxied: false,
            cid: None,
            keep: false,
            timeout: PATIENCE,
            request,
        }),
        Err(full) => {
            drop(request);
            Err(full)
        }
    }
}

impl RunsTwice for QmiRequest {
    ghost use Rattle.transparency.specs.Qmi.{qmi_trial};

    ghost trial = { qmi_trial };

    fn run_twice<B: Bench>(
        self,
        alloc: Global,
        bench: &mut B,
        profile: &Profile,
    ) -> Result<Twice, AllocError> {
        let mut plan = plan_of(alloc, self)?;
        let carried = qmi_tunnelled(alloc, profile, &mut plan)?;
        let twice = qmi_twice(alloc, bench, profile, plan)?;
        Ok(unlike(twice, carried.through))
    }
}

// What is printed at the modem itself, and what differs from it, if anything does.
fn unlike(twice: Twice, carried: Printed) -> Twice
    ensures direct { result.direct ≡ twice.direct }
    ensures one { (result.through ≡ twice.through) ⊎ (result.through ≡ carried) }
    ensures alike { result.direct ≡ result.through → (result.through ≡ twice.through) × (result.through ≡ carried) }
    ensures same { twice.direct ≡ twice.through → twice.direct ≡ carried → result.direct ≡ result.through }
{
    if twice.direct.is(&carried) {
        twice
    } else {
        Twice {
            direct: twice.direct,
            through: carried,
        }
    }
}

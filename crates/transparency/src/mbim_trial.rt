ghost use Rattle.std.specs.Prelude.{◌≡◌, IfOk};
ghost use Rattle.transparency.specs.Mbim.{plan_of};

use crate::mbim::mbim_twice;
use crate::runs_twice::{PATIENCE, RunsTwice, device};
use core_bench::Bench;
use mbim_requests::MbimRequest;
use mbim_session::MbimPlan;
use modem_profile::Profile;
use printed_ends::Twice;
use std::alloc::{AllocError, Global};

// How a request is planned.
fn plan_of(alloc: Global, request: MbimRequest) -> Result<MbimPlan, AllocError>
    ensures { IfOk result (λ plan. plan ≡ plan_of request) }
{
    match device(alloc) {
        Ok(device) => Ok(MbimPlan {
            device,
            proxied: false,
            close: true,
            timeout: PATIENCE,
            request,
        }),
        Err(full) => {
            drop(request);
            Err(full)
        }
    }
}

impl RunsTwice for MbimRequest {
    ghost use Rattle.transparency.specs.Mbim.{mbim_trial};

    ghost trial = { mbim_trial };

    fn run_twice<B: Bench>(
        self,
        alloc: Global,
        bench: &mut B,
        profile: &Profile,
    ) -> Result<Twice, AllocError> {
        let plan = plan_of(alloc, self)?;
        let twice = mbim_twice(alloc, bench, profile, plan)?;
        Ok(twice)
    }
}

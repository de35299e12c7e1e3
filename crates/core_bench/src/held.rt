ghost use Rattle.std.specs.Prelude.{◌≡◌, ℕ, List, [], ◌∷◌, IfOk};
ghost use Rattle.proxy_history.specs.Events as history;
ghost use Rattle.proxy_history.specs.Events.{greatest_after};
ghost use Rattle.proxy_history.specs.Proxy.{Proxy};
ghost use Rattle.hub_io.specs.Events.{event_of};
ghost use Rattle.proxy_serving.specs.Face.{CanMeet};
ghost use Rattle.core_bench.specs.Runs.{proxy_for};
ghost use Rattle.core_bench.specs.Held.{face_of, Keeps};

use hub_io::{Event, Limits};
use kit_bytes::Kind;
use mbim_core::MbimCore;
use proxy_serving::ProxyCore;
use qmi_core::QmiCore;
use std::alloc::{AllocError, Global};

// The core that a bench holds, if any.
#[derive(Drop)]
pub(crate) enum Held {
    None,
    Qmi(QmiCore),
    Mbim(MbimCore),
}

impl Held {
    // A core of this kind for the device of this path.
    pub(crate) fn open(
        alloc: Global,
        kind: Kind,
        limits: &Limits,
        device: &str,
    ) -> Result<Self, AllocError>
        ensures keeps { IfOk result (Keeps (proxy_for kind limits.now device.now) []) }
        ensures asked { IfOk result (λ held. (face_of held).dropped ≡ []) }
        ensures greatest { IfOk result (λ held. (face_of held).greatest ≡ 0) }
    {
        match kind {
            Kind::Qmi => Ok(Held::Qmi(QmiCore::open(alloc, limits, device)?)),
            Kind::Mbim => Ok(Held::Mbim(MbimCore::open(alloc, limits, device)?)),
        }
    }
}

// Has a core meet an event, for none of which memory can be lacking.
pub(crate) fn step<C: ProxyCore>(core: &mut C, event: Event<'_>)
    requires can { CanMeet (event_of event) (C.face core.old) }
    requires memory { (event : history.Event) → C.lacks_memory event → ⊥ }
    ensures keeps { (p : Proxy) (past : List history.Event) → C.keeps p past core.old → C.keeps p (event_of event.entry ∷ past) core.new }
    ensures dropped { (p : Proxy) (past : List history.Event) → C.keeps p past core.old → (C.face core.new).dropped ≡ p.dropped (event_of event.entry ∷ past) }
    ensures greatest { (C.face core.new).greatest ≡ greatest_after (event_of event.entry) (C.face core.old).greatest }
{
    let _stepped = core.step(event);
}

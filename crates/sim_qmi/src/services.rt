//! The services that the modem has.

use qmi_services::messages::{CTL, DMS, NAS, WDS, WMS};

pub(crate) const SERVICES: [u8; 5] = [CTL, WDS, DMS, NAS, WMS];

ghost use Rattle.std.specs.Prelude.{IfOk};
ghost use Rattle.serde_json.specs.View.{view};
ghost use Rattle.modem_profile.specs.Answers.{Gives};
ghost use Rattle.modem_profile.specs.Parts.{IsDeviceWithin, IsNetworkWithin, AreInRange};
ghost use Rattle.modem_profile.specs.Reading.{device_of, network_of, numbers_of};

use crate::members::{ascii_or, code_or, signal_or};
use crate::{AsciiText, MemberName, ProfileFault, profile};
use serde_json::Value;
use std::alloc::{AllocError, Global};

/// What a profile says of the device.
#[derive(Drop)]
pub(crate) struct DeviceTexts {
    pub(crate) manufacturer: AsciiText,
    pub(crate) model: AsciiText,
    pub(crate) revision: AsciiText,
}

impl DeviceTexts {
    ghost use Rattle.std.specs.Prelude.{◌≡◌};
    ghost use Rattle.modem_profile.specs.Parts.{default_device};

    /// What the profile that says nothing of its own says of it.
    pub(crate) fn defaults(alloc: Global) -> Result<Self, AllocError>
        ensures { IfOk result (λ texts. texts ≡ default_device) }
    {
        let manufacturer = AsciiText::from_str(alloc, profile::MANUFACTURER)?;
        let model = AsciiText::from_str(alloc, profile::MODEL)?;
        let revision = AsciiText::from_str(alloc, profile::REVISION)?;
        Ok(DeviceTexts {
            manufacturer,
            model,
            revision,
        })
    }

    /// A copy of it.
    pub(crate) fn copy(&self, alloc: Global) -> Result<Self, AllocError>
        ensures { IfOk result (λ copy. copy ≡ self.now) }
    {
        let manufacturer = self.manufacturer.copy(alloc)?;
        let model = self.model.copy(alloc)?;
        let revision = self.revision.copy(alloc)?;
        Ok(DeviceTexts {
            manufacturer,
            model,
            revision,
        })
    }
}

/// What a profile says of the subscriber and of the network.
#[derive(Drop)]
pub(crate) struct NetworkTexts {
    pub(crate) msisdn: AsciiText,
    pub(crate) imei: AsciiText,
    pub(crate) operator: AsciiText,
}

impl NetworkTexts {
    ghost use Rattle.std.specs.Prelude.{◌≡◌};
    ghost use Rattle.modem_profile.specs.Parts.{default_network};

    /// What the profile that says nothing of its own says of them.
    pub(crate) fn defaults(alloc: Global) -> Result<Self, AllocError>
        ensures { IfOk result (λ texts. texts ≡ default_network) }
    {
        let msisdn = AsciiText::from_str(alloc, profile::MSISDN)?;
        let imei = AsciiText::from_str(alloc, profile::IMEI)?;
        let operator = AsciiText::from_str(alloc, profile::OPERATOR)?;
        Ok(NetworkTexts {
            msisdn,
            imei,
            operator,
        })
    }

    /// A copy of it.
    pub(crate) fn copy(&self, alloc: Global) -> Result<Self, AllocError>
        ensures { IfOk result (λ copy. copy ≡ self.now) }
    {
        let msisdn = self.msisdn.copy(alloc)?;
        let imei = self.imei.copy(alloc)?;
        let operator = self.operator.copy(alloc)?;
        Ok(NetworkTexts {
            msisdn,
            imei,
            operator,
        })
    }
}

/// The numbers of a profile.
#[derive(Clone, Copy)]
pub(crate) struct Numbers {
    pub(crate) mcc: u16,
    pub(crate) mnc: u16,
    pub(crate) signal: i8,
}

/// What an object's members say of the device.
#[tactic(auto, unfolding(crate::specs::Reading::device_of))]
pub(crate) fn device_of(alloc: Global, object: &Value) -> Result<DeviceTexts, ProfileFault>
    ensures exact { Gives (λ texts. texts) (device_of (view object.now)) result }
    ensures limits { IfOk result IsDeviceWithin }
{
    let manufacturer = ascii_or(
        alloc,
        object,
        MemberName::Manufacturer,
        profile::MANUFACTURER,
    )?;
    let model = ascii_or(alloc, object, MemberName::Model, profile::MODEL)?;
    let revision = ascii_or(alloc, object, MemberName::Revision, profile::REVISION)?;
    Ok(DeviceTexts {
        manufacturer,
        model,
        revision,
    })
}

/// What an object's members say of the subscriber and of the network.
#[tactic(auto, unfolding(crate::specs::Reading::network_of))]
pub(crate) fn network_of(alloc: Global, object: &Value) -> Result<NetworkTexts, ProfileFault>
    ensures exact { Gives (λ texts. texts) (network_of (view object.now)) result }
    ensures limits { IfOk result IsNetworkWithin }
{
    let msisdn = ascii_or(alloc, object, MemberName::Msisdn, profile::MSISDN)?;
    let imei = ascii_or(alloc, object, MemberName::Imei, profile::IMEI)?;
    let operator = ascii_or(alloc, object, MemberName::Operator, profile::OPERATOR)?;
    Ok(NetworkTexts {
        msisdn,
        imei,
        operator,
    })
}

/// The numbers that an object's members give.
#[tactic(auto, unfolding(crate::specs::Reading::numbers_of))]
pub(crate) fn numbers_of(object: &Value) -> Result<Numbers, ProfileFault>
    ensures exact { Gives (λ numbers. numbers) (numbers_of (view object.now)) result }
    ensures limits { IfOk result AreInRange }
{
    let mcc = code_or(object, MemberName::Mcc, profile::NETWORK_CODE)?;
    let mnc = code_or(object, MemberName::Mnc, profile::NETWORK_CODE)?;
    let signal = signal_or(object, MemberName::Signal, profile::SIGNAL)?;
    Ok(Numbers { mcc, mnc, signal })
}

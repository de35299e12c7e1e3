use crate::copies::{copy_entries, copy_pdus};
use crate::parts::{DeviceTexts, NetworkTexts, Numbers};
use crate::{AsciiText, PhonebookEntry};
use kit_bytes::Octets;
use std::alloc::{AllocError, Global};
use std::marker::Model;

pub(crate) const MANUFACTURER: &str = "Example";

pub(crate) const MODEL: &str = "Sim-1";

pub(crate) const REVISION: &str = "1.0";

pub(crate) const MSISDN: &str = "100";

pub(crate) const IMEI: &str = "000000000000000";

pub(crate) const OPERATOR: &str = "Example Net";

pub(crate) const NETWORK_CODE: u16 = 1;

pub(crate) const SIGNAL: i8 = -70;

const NUMBERS: Numbers = Numbers {
    mcc: NETWORK_CODE,
    mnc: NETWORK_CODE,
    signal: SIGNAL,
};

/// What a simulated modem tells of itself and of its network.
#[derive(Drop)]
pub struct Profile {
    pub(crate) device: DeviceTexts,
    pub(crate) network: NetworkTexts,
    pub(crate) numbers: Numbers,
    pub(crate) sms: Vec<Octets>,
    pub(crate) phonebook: Vec<PhonebookEntry>,
}

impl Model for Profile {
    ghost use Rattle.modem_profile.specs.Profile.{Profile};

    ghost Value = { Profile };

    ghost use Rattle.modem_profile.specs.View.{profile_view};
    ghost use Rattle.modem_profile.specs.Limits.{IsWithin};

    ghost view = { profile_view };

    ghost invariant = { λ profile. IsWithin (profile_view profile) };
}

impl Profile {
    ghost use Rattle.std.specs.Prelude.{◌≡◌, ◌≤◌, length, pos, negsuc, ◌≤ℤ◌, IfOk};
    ghost use Rattle.std.specs.List.{AllByRecursion};
    ghost use Rattle.modem_profile.specs.Profile.{default_profile};
    ghost use Rattle.modem_profile.specs.Limits.{IsWithin, IsPhonebookEntry};

    /// The profile that says nothing of its own.
    pub fn defaults(alloc: Global) -> Result<Self, AllocError>
        ensures { IfOk result (λ profile. profile ≡ default_profile) }
    {
        let device = DeviceTexts::defaults(alloc)?;
        let network = NetworkTexts::defaults(alloc)?;
        Ok(Profile {
            device,
            network,
            numbers: NUMBERS,
            sms: Vec::new(alloc),
            phonebook: Vec::new(alloc),
        })
    }

    pub fn manufacturer(&self) -> &AsciiText
        ensures { result.now ≡ self.now.manufacturer }
    {
        &self.device.manufacturer
    }

    pub fn model(&self) -> &AsciiText
        ensures { result.now ≡ self.now.model }
    {
        &self.device.model
    }

    pub fn revision(&self) -> &AsciiText
        ensures { result.now ≡ self.now.revision }
    {
        &self.device.revision
    }

    /// The modem's own telephone number.
    pub fn msisdn(&self) -> &AsciiText
        ensures { result.now ≡ self.now.msisdn }
    {
        &self.network.msisdn
    }

    pub fn imei(&self) -> &AsciiText
        ensures { result.now ≡ self.now.imei }
    {
        &self.network.imei
    }

    /// The network's name.
    pub fn operator(&self) -> &AsciiText
        ensures { result.now ≡ self.now.operator }
    {
        &self.network.operator
    }

    /// The mobile country code.
    pub fn mcc(&self) -> u16
        ensures same { result ≡ self.now.mcc }
        ensures limit { result ≤ 999 }
    {
        self.numbers.mcc
    }

    /// The mobile network code.
    pub fn mnc(&self) -> u16
        ensures same { result ≡ self.now.mnc }
        ensures limit { result ≤ 999 }
    {
        self.numbers.mnc
    }

    /// The strength of the signal, in dBm.
    pub fn signal(&self) -> i8
        ensures same { result ≡ self.now.signal }
        ensures limit { result ≤ℤ pos 0 }
    {
        self.numbers.signal
    }

    /// The short messages that the modem holds.
    pub fn sms(&self) -> &[Octets]
        ensures same { result.now ≡ self.now.sms }
        ensures limit { AllByRecursion (λ pdu. length pdu ≤ 255) self.now.sms }
        ensures count { length self.now.sms ≤ 100 }
    {
        &self.sms
    }

    pub fn phonebook(&self) -> &[PhonebookEntry]
        ensures same { result.now ≡ self.now.phonebook }
        ensures limit { AllByRecursion IsPhonebookEntry self.now.phonebook }
        ensures count { length self.now.phonebook ≤ 100 }
    {
        &self.phonebook
    }

    /// A copy of it.
    pub fn copy(&self, alloc: Global) -> Result<Self, AllocError>
        ensures same { IfOk result (λ copy. copy ≡ self.now) }
        ensures limits { IsWithin self.now }
    {
        let sms = copy_pdus(alloc, &self.sms)?;
        let phonebook = copy_entries(alloc, &self.phonebook)?;
        let device = self.device.copy(alloc)?;
        let network = self.network.copy(alloc)?;
        Ok(Profile {
            device,
            network,
            numbers: self.numbers,
            sms,
            phonebook,
        })
    }
}

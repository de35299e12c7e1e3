ghost use Rattle.std.specs.Prelude.{◌≡◌, ◌≤◌, length};
ghost use Rattle.modem_rules.specs.Values.{if_short};

use kit_bytes::Octets;
use std::marker::Model;

/// How many bytes the TLVs or the buffer of a rule have at most.
pub const LONGEST_DATA: usize = 60_000;

/// The TLVs or the buffer of a rule: at most 60,000 bytes.
#[derive(Drop)]
pub struct RuleData {
    octets: Octets,
}

impl Model for RuleData {
    ghost use Rattle.std.specs.Prelude.{ℕ, ◌≤◌, List, length};

    ghost Value = { List ℕ };

    ghost view = { λ rule. rule.octets };

    ghost invariant = { λ rule. length rule.octets ≤ 60000 };
}

impl RuleData {
    /// These bytes, or None where they are more.
    pub fn of(octets: Octets) -> Option<Self>
        ensures { result ≡ if_short octets }
    {
        if octets.as_slice().len() <= LONGEST_DATA {
            Some(RuleData { octets })
        } else {
            None
        }
    }

    pub fn as_slice(&self) -> &[u8]
        ensures same { result.now ≡ self.now }
        ensures limit { length self.now ≤ LONGEST_DATA }
    {
        self.octets.as_slice()
    }
}

ghost use Rattle.std.specs.Prelude.{◌≡◌};

use crate::Tlv;
use std::marker::Model;

/// A list of TLVs.
#[derive(Drop)]
pub struct Tlvs {
    tlvs: Vec<Tlv>,
}

impl Model for Tlvs {
    ghost use Rattle.std.specs.Prelude.{List};
    ghost use Rattle.tlv_codec.specs.declared.tlv.Tlv.{Tlv};

    ghost Value = { List Tlv };

    ghost view = { λ list. list.tlvs.items };
}

impl Tlvs {
    pub fn as_slice(&self) -> &[Tlv]
        ensures { result.now ≡ self.now }
    {
        &self.tlvs
    }

    /// Gives the vector back that holds the TLVs.
    pub fn into_vec(self) -> Vec<Tlv>
        ensures { result.items ≡ self }
    {
        self.tlvs
    }
}

impl From<Vec<Tlv>> for Tlvs {
    ghost from_gives = { λ tlvs list. list ≡ tlvs.items };

    fn from(tlvs: Vec<Tlv>) -> Self {
        Tlvs { tlvs }
    }
}

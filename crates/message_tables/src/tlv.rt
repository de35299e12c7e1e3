use kit_bytes::Text;
use qmi_shapes::Shape;

/// A TLV of a message, with the shape of its value.
#[derive(Debug, Drop)]
pub struct TlvShape {
    /// The TLV's type.
    pub kind: u8,
    pub name: Text,
    pub shape: Shape,
}

/// A list of TLVs.
#[derive(Drop)]
pub struct TlvShapes {
    tlvs: Vec<TlvShape>,
}

impl TlvShapes {
    ghost use Rattle.std.specs.Prelude.{◌≡◌, map};
    ghost use Rattle.message_tables.specs.View.{tlv_view, tlvs_view};

    pub fn as_slice(&self) -> &[TlvShape]
        ensures { map tlv_view result.now ≡ tlvs_view self.now }
    {
        &self.tlvs
    }

    /// Gives the vector back that holds the TLVs.
    pub fn into_vec(self) -> Vec<TlvShape>
        ensures { map tlv_view result.items ≡ tlvs_view self }
    {
        self.tlvs
    }
}

impl From<Vec<TlvShape>> for TlvShapes {
    ghost use Rattle.std.specs.Prelude.{◌≡◌, map};
    ghost use Rattle.message_tables.specs.View.{tlv_view, tlvs_view};

    ghost from_gives = { λ tlvs list. tlvs_view list ≡ map tlv_view tlvs.items };

    fn from(tlvs: Vec<TlvShape>) -> Self {
        TlvShapes { tlvs }
    }
}

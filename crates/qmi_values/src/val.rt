ghost use Rattle.std.specs.Prelude.{◌≡◌, map, option_map};
ghost use Rattle.qmi_values.specs.Value.{values_of, number_in, integer_in, text_in, elements_in, members_in};
ghost use Rattle.qmi_values.specs.View.{val_view, vals_view};

use kit_bytes::Octets;

/// A value.
#[cycle(val)]
#[derive(Debug, Drop)]
pub enum Val {
    /// An unsigned number.
    U(u64),
    /// A signed number.
    I(i64),
    /// The bytes of a text.
    Str(Octets),
    /// The elements of a list.
    List(Vals),
    /// The values of a sequence's fields.
    Seq(Vals),
}

/// A list of values.
#[cycle(val)]
#[derive(Debug, Drop)]
pub struct Vals {
    vals: Vec<Val>,
}

impl Val {
    /// The number, where it is an unsigned one.
    pub fn as_u64(&self) -> Option<u64>
        ensures { result ≡ number_in (val_view self.now) }
    {
        match self {
            Val::U(number) => Some(*number),
            _ => None,
        }
    }

    /// The number, where it is a signed one.
    pub fn as_i64(&self) -> Option<i64>
        ensures { result ≡ integer_in (val_view self.now) }
    {
        match self {
            Val::I(number) => Some(*number),
            _ => None,
        }
    }

    /// The bytes, where it is a text.
    pub fn as_octets(&self) -> Option<&Octets>
        ensures { option_map (λ octets. octets.now) result ≡ text_in (val_view self.now) }
    {
        match self {
            Val::Str(octets) => Some(octets),
            _ => None,
        }
    }

    /// The elements, where it is a list.
    pub fn as_list(&self) -> Option<&Vals>
        ensures { option_map (λ vals. vals_view vals.now) result ≡ elements_in (val_view self.now) }
    {
        match self {
            Val::List(vals) => Some(vals),
            _ => None,
        }
    }

    /// The values of the fields, where it is a sequence.
    pub fn as_seq(&self) -> Option<&Vals>
        ensures { option_map (λ vals. vals_view vals.now) result ≡ members_in (val_view self.now) }
    {
        match self {
            Val::Seq(vals) => Some(vals),
            _ => None,
        }
    }
}

impl Vals {
    pub fn as_slice(&self) -> &[Val]
        ensures { values_of (map val_view result.now) ≡ vals_view self.now }
    {
        &self.vals
    }

    /// Gives the vector back that holds the values.
    pub fn into_vec(self) -> Vec<Val>
        ensures { values_of (map val_view result.items) ≡ vals_view self }
    {
        self.vals
    }
}

impl From<Vec<Val>> for Vals {
    ghost from_gives = { λ vals all. vals_view all ≡ values_of (map val_view vals.items) };

    fn from(vals: Vec<Val>) -> Self {
        Vals { vals }
    }
}

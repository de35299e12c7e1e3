ghost use Rattle.std.specs.Prelude.{◌≡◌, map};
ghost use Rattle.qmi_shapes.specs.View.{fields_of, field_view, fields_view};

use kit_bytes::Text;

/// How many bytes a text has, or how many elements a list.
#[derive(Clone, Copy, Debug, PartialEq, Eq)]
pub enum Prefix {
    /// All the bytes that are left.
    Rest,
    /// So many.
    Fixed(u16),
    /// As many as a number says that stands before them, in so many bytes.
    Counted(u8),
}

/// How a value stands in bytes.
#[cycle(shape)]
#[derive(Debug, Drop)]
pub enum Shape {
    /// An unsigned number of so many bytes.
    U(u8),
    /// A signed number of so many bytes.
    I(u8),
    /// The bytes of a text.
    Str(Prefix),
    /// Elements of one shape, one after another.
    List(Prefix, Box<Shape>),
    /// Fields, one after another.
    Seq(ShapeFields),
}

/// A field of a sequence.
#[cycle(shape)]
#[derive(Debug, Drop)]
pub struct ShapeField {
    pub name: Text,
    pub shape: Shape,
}

/// The fields of a sequence.
#[cycle(shape)]
#[derive(Debug, Drop)]
pub struct ShapeFields {
    fields: Vec<ShapeField>,
}

impl ShapeFields {
    pub fn as_slice(&self) -> &[ShapeField]
        ensures { fields_of (map field_view result.now) ≡ fields_view self.now }
    {
        &self.fields
    }

    /// Gives the vector back that holds the fields.
    pub fn into_vec(self) -> Vec<ShapeField>
        ensures { fields_of (map field_view result.items) ≡ fields_view self }
    {
        self.fields
    }
}

impl From<Vec<ShapeField>> for ShapeFields {
    ghost from_gives = { λ fields all. fields_view all ≡ fields_of (map field_view fields.items) };

    fn from(fields: Vec<ShapeField>) -> Self {
        ShapeFields { fields }
    }
}

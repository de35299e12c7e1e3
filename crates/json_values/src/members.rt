ghost use Rattle.std.specs.Prelude.{◌≡◌, map, option_copied};
ghost use Rattle.std.specs.List.{list_any};
ghost use Rattle.serde_json.specs.View.{members_view};
ghost use Rattle.json_values.specs.Given.{is_named, first_other};

use kit_bytes::Text;
use message_tables::TlvShape;
use qmi_shapes::ShapeField;
use serde_json::{Map, Value};

/// What has a name.
pub trait Named {
    ghost use Rattle.std.specs.Prelude.{◌≡◌, ℕ, List};

    ghost called: { Self → List ℕ };

    fn name(&self) -> &Text
        ensures { result.now ≡ called self.now };
}

impl Named for ShapeField {
    ghost use Rattle.qmi_shapes.specs.View.{field_view};

    ghost called = { λ field. (field_view field).name };

    #[tactic(auto, using(qmi_shapes::proofs::Views::shape_views))]
    fn name(&self) -> &Text {
        &self.name
    }
}

impl Named for TlvShape {
    ghost called = { λ tlv. tlv.name };

    fn name(&self) -> &Text {
        &self.name
    }
}

/// The name of the first member that none of these has.
pub fn first_other<'a, T: Named>(named: &[T], members: &'a Map<String, Value>) -> Option<&'a str>
    ensures { option_copied result ≡ first_other (map T.called named.now) (members_view members.now.entries) }
{
    for (key, _value) in members.iter() {
        if !has_name(named, key.as_str()) {
            return Some(key.as_str());
        }
    }
    None
}

#[tactic(auto, using(message_tables::proofs::Lists::taken))]
fn has_name<T: Named>(named: &[T], key: &str) -> bool
    ensures { result ≡ list_any (is_named key.now) (map T.called named.now) }
{
    for one in named {
        if one.name().as_str() == key {
            return true;
        }
    }
    false
}

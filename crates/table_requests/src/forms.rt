ghost use Rattle.std.specs.Prelude.{◌≡◌, ◌==◌, map, option_map};
ghost use Rattle.std.specs.List.{find};
ghost use Rattle.message_tables.specs.View.{tlv_view};

use message_tables::TlvShape;

/// The table's row for a type of TLVs, where it has one.
pub(crate) fn form_of(forms: &[TlvShape], kind: u8) -> Option<&TlvShape>
    ensures { option_map (λ form. tlv_view form.now) result ≡ find (λ form. form.kind == kind) (map tlv_view forms.now) }
{
    for form in forms {
        if form.kind == kind {
            return Some(form);
        }
    }
    None
}

ghost use Rattle.std.specs.Prelude.{◌≡◌, IfOk};
ghost use Rattle.mbim_proxy.specs.Configuration.{names_device};

use kit_bytes::{Octets, Text, utf16_from_text};
use mbim_services::config_path_is;
use std::alloc::{AllocError, Global};
use std::marker::Model;

/// The device that a proxy serves, by the characters of its path.
#[derive(Drop)]
pub struct Device {
    text: Text,
    // the characters in UTF-16
    path: Octets,
}

impl Model for Device {
    ghost use Rattle.std.specs.Prelude.{◌≡◌, ℕ, List, IsTrue};
    ghost use Rattle.std.specs.Str.{all_scalars};
    ghost use Rattle.kit_bytes.specs.Utf16.{utf16_bytes};

    ghost Value = { List ℕ };

    ghost view = { λ d. d.text };

    ghost invariant = { λ d. record {
      path : d.path ≡ utf16_bytes d.text;
      scalars : IsTrue (all_scalars d.text);
    } };
}

impl Device {
    /// The device with the path of these characters.
    pub fn open(alloc: Global, text: Text) -> Result<Self, AllocError>
        ensures { IfOk result (λ device. device ≡ text) }
    {
        let path = utf16_from_text(alloc, &text)?;
        let _utf8 = text.as_str();
        Ok(Device { text, path })
    }

    /// Whether the buffer of a configuration names it.
    pub fn is_named_by(&self, buffer: &[u8]) -> bool
        ensures { result ≡ names_device self.now buffer.now }
    {
        config_path_is(buffer, self.path.as_slice())
    }
}

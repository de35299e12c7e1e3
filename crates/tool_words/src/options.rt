ghost use Rattle.std.specs.Prelude.{◌≡◌};
ghost use Rattle.tool_words.specs.Spelling.{Spelling, flag, or_letter, spelled, valued};

/// How the words spell an option.
#[derive(Clone, Copy)]
pub struct OptionSpelling {
    /// Its name, which stands behind two dashes.
    pub name: &'static str,
    /// Its letter, if it has one, which stands behind one dash.
    pub letter: Option<char>,
    /// Whether a value follows it.
    pub takes_value: bool,
}

/// An option of a tool.
pub trait ToolOption: Copy + Drop {
    ghost spelling: { Self → Spelling };

    /// How the words spell it.
    fn spelling(self) -> OptionSpelling
        ensures { spelled result ≡ spelling self };
}

/// An option without a value.
pub fn flag(name: &'static str) -> OptionSpelling
    ensures { spelled result ≡ flag name.now }
{
    OptionSpelling {
        name,
        letter: None,
        takes_value: false,
    }
}

/// An option with a value.
pub fn valued(name: &'static str) -> OptionSpelling
    ensures { spelled result ≡ valued name.now }
{
    OptionSpelling {
        name,
        letter: None,
        takes_value: true,
    }
}

impl OptionSpelling {
    /// The same option, which has a letter too.
    pub fn or_letter(self, letter: char) -> OptionSpelling
        ensures { spelled result ≡ or_letter letter (spelled self) }
    {
        OptionSpelling {
            letter: Some(letter),
            ..self
        }
    }
}

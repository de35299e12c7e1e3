ghost use Rattle.std.specs.Prelude.{◌≡◌};
ghost use Rattle.std.specs.Option.{option_copied};
ghost use Rattle.print_text.specs.Words.{shown_word};

/// Whether numbers stand with the words that they have.
#[derive(Clone, Copy, PartialEq, Eq)]
pub enum Wording {
    WithWords,
    NumbersAlone,
}

impl Wording {
    /// The word that is shown with a number which has this one.
    pub fn shown(self, word: Option<&'static str>) -> Option<&'static str>
        ensures { option_copied result ≡ shown_word self (option_copied word.entry) }
    {
        match self {
            Wording::WithWords => word,
            Wording::NumbersAlone => None,
        }
    }
}

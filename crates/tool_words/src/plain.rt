ghost use Rattle.std.specs.Prelude.{◌≡◌, None};
ghost use Rattle.tool_words.specs.Commands.{CommandLine};

/// A command of a tool that asks a modem.
pub trait PlainCommand: Copy + Drop {
    /// What a modem is asked.
    type Request: Drop;

    /// Its line in the table of the tool's commands.
    ghost line: { Self → CommandLine Self.Request };

    /// The name of its option.
    fn option_name(self) -> &'static str
        ensures { result.now ≡ (line self).spelling.name };

    /// Its request, where it has no value.
    fn plain_request(self) -> Option<Self::Request>
        ensures { result ≡ (line self).request None };
}

ghost use Rattle.std.specs.Prelude.{map, string_bytes};
ghost use Rattle.tool_words.specs.Answers.{Answers};
ghost use Rattle.tool_words.specs.Version.{version_asked};

use crate::{ToolCommand, UsageKind, WordFault};

/// What the words ask for whose first asks for the version. It stands by itself.
#[tactic(auto, unfolding(crate::specs::Version::version_asked))]
pub fn version_asked(words: &[String]) -> Result<ToolCommand, WordFault>
    ensures { Answers (version_asked (map string_bytes words.now)) result }
{
    let [_] = words else {
        return Err(WordFault::Usage(UsageKind::Words));
    };
    Ok(ToolCommand::Version)
}

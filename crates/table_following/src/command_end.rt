ghost use Rattle.std.specs.Prelude.{◌≡◌};
ghost use Rattle.tool_runs.specs.Asking.{with_stops};
ghost use Rattle.table_following.specs.Following.{end_of};

use crate::end::FollowedEnd;
use link_following::FollowEnd;
use tool_runs::RunEnd;

/// How a command ends whose session ended so. One that has followed to its end was done.
pub(crate) fn end_of(end: FollowedEnd) -> RunEnd
    ensures { result ≡ end_of end }
{
    match end {
        FollowedEnd::Refused(error) => RunEnd::Denied {
            function: false,
            code: u32::from(error),
        },
        FollowedEnd::Followed(FollowEnd::LinkEnd) => RunEnd::Done,
        FollowedEnd::Followed(FollowEnd::TurnsSpent) => RunEnd::Done,
        FollowedEnd::Followed(FollowEnd::WriteFault) => RunEnd::WriteFault,
    }
}

/// How it ends where each child was stopped, or one wasn't.
pub(crate) fn with_stops(end: RunEnd, stopped: bool) -> RunEnd
    ensures { result ≡ with_stops stopped end }
{
    match end {
        RunEnd::Done if !stopped => RunEnd::StartFault,
        end => end,
    }
}

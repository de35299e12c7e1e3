use link_following::FollowEnd;

/// How a session ends whose indications are followed.
#[derive(Clone, Copy, PartialEq, Eq)]
pub enum FollowedEnd {
    /// The proxy or the modem refused with this error.
    Refused(u16),
    /// The answer's text was written, or that failed, and the indications were followed up to this end.
    Followed(FollowEnd),
}

impl FollowedEnd {
    ghost use Rattle.std.specs.Prelude.{◌≡◌};
    ghost use Rattle.table_following.specs.Session.{is_link_end};

    /// Whether the other side has ended the link.
    pub(crate) fn is_link_end(self) -> bool
        ensures { result ≡ is_link_end self }
    {
        matches!(self, FollowedEnd::Followed(FollowEnd::LinkEnd))
    }
}

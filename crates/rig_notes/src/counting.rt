ghost use Rattle.std.specs.Prelude.{◌≡◌, ◌+◌, length, filter, IfOk, if◌then◌else◌};
ghost use Rattle.rig_trace.specs.Rows.{expires, one_answered, one_forwarded, one_refused};

use rig_trace::{Counts, Row};
use std::alloc::AllocError;

/// One more. It fails where that is too much.
pub(crate) fn next(count: u64) -> Result<u64, AllocError>
    ensures { IfOk result (λ next. next ≡ count + 1) }
{
    match count.checked_add(1) {
        Some(next) => Ok(next),
        None => Err(AllocError),
    }
}

/// The modem was asked something.
pub(crate) fn one_forwarded(own: bool, counts: Counts) -> Result<Counts, AllocError>
    ensures { IfOk result (λ after. after ≡ one_forwarded own counts) }
{
    if own {
        return Ok(counts);
    }
    Ok(Counts {
        forwarded: next(counts.forwarded)?,
        ..counts
    })
}

/// The modem was asked nothing.
pub(crate) fn one_refused(opens: bool, counts: Counts) -> Result<Counts, AllocError>
    ensures { IfOk result (λ after. after ≡ one_refused opens counts) }
{
    if opens {
        return Ok(counts);
    }
    Ok(Counts {
        refused: next(counts.refused)?,
        ..counts
    })
}

/// The modem answered.
pub(crate) fn one_answered(row: &Row, time: u64, counts: Counts) -> Result<Counts, AllocError>
    ensures { IfOk result (λ after. after ≡ one_answered row.now time counts) }
{
    if row.own {
        return Ok(counts);
    }
    if time < row.deadline {
        return Ok(Counts {
            answered: next(counts.answered)?,
            ..counts
        });
    }
    Ok(Counts {
        late: next(counts.late)?,
        ..counts
    })
}

/// The time goes on. As many expired before.
pub(crate) fn expired(
    rows: &[Row],
    before: u64,
    after: u64,
    expired: u64,
) -> Result<u64, AllocError>
    ensures { IfOk result (λ now. now ≡ expired + length (filter (expires before after) rows.now)) }
{
    let mut rest = rows;
    let mut now = expired;
    while let Some((row, more)) = rest.split_first() {
        now = one_expired(row, before, after, now)?;
        rest = more;
    }
    Ok(now)
}

fn one_expired(row: &Row, before: u64, after: u64, expired: u64) -> Result<u64, AllocError>
    ensures { IfOk result (λ now. now ≡ (if expires before after row.now then expired + 1 else expired)) }
{
    if !row.own && before < row.deadline && row.deadline <= after {
        return next(expired);
    }
    Ok(expired)
}

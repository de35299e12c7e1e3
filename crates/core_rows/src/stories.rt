use crate::proxy::{mbim_proxy, qmi_proxy};
use crate::story;
use row_text::{Place, Row, RowFault, Rows};
use std::alloc::Global;

/// Whether a story of a QMI proxy is what is found, where bytes come whole and byte by byte. The proxy
/// releases the client ids that are kept for so many milliseconds. Tells what differs.
pub fn qmi_stories<R: Print>(
    rt: &R,
    alloc: Global,
    place: Place<'_>,
    rows: &Rows<'_>,
    row: &Row<'_>,
    release: Option<u64>,
) -> Result<bool, RowFault> {
    Ok(
        qmi_story(rt, alloc, place, rows, row, release, true)?
            && qmi_story(rt, alloc, place, rows, row, release, false)?,
    )
}

/// Whether a story of an MBIM proxy is what is found, where bytes come whole and byte by byte. Tells what
/// differs.
pub fn mbim_stories<R: Print>(
    rt: &R,
    alloc: Global,
    place: Place<'_>,
    rows: &Rows<'_>,
    row: &Row<'_>,
) -> Result<bool, RowFault> {
    Ok(
        mbim_story(rt, alloc, place, rows, row, true)?
            && mbim_story(rt, alloc, place, rows, row, false)?,
    )
}

fn qmi_story<R: Print>(
    rt: &R,
    alloc: Global,
    place: Place<'_>,
    rows: &Rows<'_>,
    row: &Row<'_>,
    release: Option<u64>,
    whole: bool,
) -> Result<bool, RowFault> {
    let mut proxy = qmi_proxy(alloc, "/dev/cdc-wdm0", release)?;
    let same = story::is_as_told(rt, alloc, place, rows, row, &mut proxy, whole);
    drop(proxy);
    same
}

fn mbim_story<R: Print>(
    rt: &R,
    alloc: Global,
    place: Place<'_>,
    rows: &Rows<'_>,
    row: &Row<'_>,
    whole: bool,
) -> Result<bool, RowFault> {
    let mut proxy = mbim_proxy(alloc, "/dev/cdc-wdm0")?;
    let same = story::is_as_told(rt, alloc, place, rows, row, &mut proxy, whole);
    drop(proxy);
    same
}

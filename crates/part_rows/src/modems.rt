use crate::modem::{is_as_told, profile_of};
use row_text::{Place, Row, RowFault, Rows};
use sim_qmi::QmiSim;
use sim_tunnel::TunnelSim;
use std::alloc::Global;

/// Whether a simulated QMI modem says what a row tells. Tells what differs.
pub fn is_qmi_modem<R: Print>(
    rt: &R,
    alloc: Global,
    place: Place<'_>,
    rows: &Rows<'_>,
    row: &Row<'_>,
) -> Result<bool, RowFault> {
    let mut sim = qmi_sim(alloc, rows, row)?;
    let same = is_as_told(rt, alloc, place, rows, row, &mut sim);
    drop(sim);
    same
}

fn qmi_sim(alloc: Global, rows: &Rows<'_>, row: &Row<'_>) -> Result<QmiSim, RowFault> {
    let profile = profile_of(alloc, rows, row)?;
    let sim = QmiSim::open(alloc, &profile);
    drop(profile);
    Ok(sim?)
}

/// Whether a simulated MBIM modem says what a row tells. Tells what differs.
pub fn is_mbim_modem<R: Print>(
    rt: &R,
    alloc: Global,
    place: Place<'_>,
    rows: &Rows<'_>,
    row: &Row<'_>,
) -> Result<bool, RowFault> {
    let mut sim = mbim_sim(alloc, rows, row)?;
    let same = is_as_told(rt, alloc, place, rows, row, &mut sim);
    drop(sim);
    same
}

fn mbim_sim(alloc: Global, rows: &Rows<'_>, row: &Row<'_>) -> Result<TunnelSim, RowFault> {
    let profile = profile_of(alloc, rows, row)?;
    let sim = TunnelSim::open(alloc, &profile);
    drop(profile);
    Ok(sim?)
}

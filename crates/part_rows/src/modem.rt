ghost use Rattle.std.specs.Prelude.{IsTrue};
ghost use Rattle.framing.specs.Framing.{IsMessage};

use framing::{Framing, Size};
use kit_bytes::Octets;
use modem_profile::{Profile, read_profile};
use row_text::{Line, Place, Row, RowFault, Rows, are_bytes};
use sim_modem::Sim;
use std::alloc::Global;

/// A new simulated modem that is asked one message after another. The first line of its row names the text
/// of its profile, or nothing for the default one:
///
///     sends: BYTES          a message
///     gets: BYTES           what the modem says to the message before
///     repeats: COUNT        how often the next message is sent
#[derive(Drop)]
struct Talk<'a, S: Sim> {
    sim: &'a mut S,
    // How often the next message is sent.
    times: u32,
    // What the modem said to the last message.
    said: Octets,
}

/// The profile that a row names, or the default one.
pub fn profile_of(alloc: Global, rows: &Rows<'_>, row: &Row<'_>) -> Result<Profile, RowFault> {
    let text = rows.bytes_of(row.first.value)?;
    let profile = if text.is_empty() {
        Profile::defaults(alloc).ok()
    } else {
        read_profile(alloc, &text).ok()
    };
    profile.ok_or(RowFault::new("no profile"))
}

/// Whether a modem says what a row tells. Tells what differs.
pub fn is_as_told<R: Print, S: Sim>(
    rt: &R,
    alloc: Global,
    place: Place<'_>,
    rows: &Rows<'_>,
    row: &Row<'_>,
    sim: &mut S,
) -> Result<bool, RowFault> {
    let mut talk = Talk {
        sim,
        times: 1,
        said: Octets::new(alloc),
    };
    let mut same = true;
    for line in &row.rest {
        match talk.follow(rt, place.of(line), rows, line) {
            Ok(so) => same &= so,
            Err(fault) => return Err(fault.at(line.number)),
        }
    }
    Ok(same)
}

impl<S: Sim> Talk<'_, S> {
    fn follow<R: Print>(
        &mut self,
        rt: &R,
        place: Place<'_>,
        rows: &Rows<'_>,
        line: &Line<'_>,
    ) -> Result<bool, RowFault> {
        match line.key {
            "repeats" => {
                self.times = line.value.parse::<u32>()?;
                Ok(true)
            }
            "gets" => {
                let told = rows.bytes_of(line.value)?;
                Ok(are_bytes(rt, place, line.key, &told, self.said.as_slice()))
            }
            "sends" => {
                let message = rows.bytes_of(line.value)?;
                self.send(&message)?;
                Ok(true)
            }
            _ => Err(RowFault::new("no key of a row")),
        }
    }

    fn send(&mut self, message: &[u8]) -> Result<(), RowFault> {
        if !is_whole::<S::Framing>(message) {
            return Err(RowFault::new("not one message"));
        }
        for _ in 0..self.times {
            self.said = self.sim.ask(message)?;
        }
        self.times = 1;
        Ok(())
    }
}

// Whether bytes are one whole message.
fn is_whole<F: Framing>(bytes: &[u8]) -> bool
    ensures { IsTrue result → IsMessage F.size bytes.now }
{
    matches!(F::size(bytes), Size::Known(length) if length == bytes.len())
}

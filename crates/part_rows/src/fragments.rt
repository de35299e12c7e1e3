use mbim_fragments::{Assembly, Body, Took, split};
use row_text::{Line, Place, Row, RowFault, Rows, are_bytes, is};
use std::alloc::Global;

/// One assembly that takes one fragment after another. The first line of its row says nothing:
///
///     takes: BYTES          a fragment
///     told: WORD            what the last one came to
///     body: BYTES           what the last message that came whole carries
#[derive(Drop)]
struct Joining {
    alloc: Global,
    assembly: Assembly,
    body: Body,
    told: Option<Took>,
}

/// Whether an assembly makes of fragments what a row tells. Tells what differs.
pub fn are_joined<R: Print>(
    rt: &R,
    alloc: Global,
    place: Place<'_>,
    rows: &Rows<'_>,
    row: &Row<'_>,
) -> Result<bool, RowFault> {
    let mut joining = Joining {
        alloc,
        assembly: Assembly::open(alloc)?,
        body: Body::open(alloc)?,
        told: None,
    };
    let mut same = true;
    for line in &row.rest {
        match joining.follow(rt, place.of(line), rows, line) {
            Ok(so) => same &= so,
            Err(fault) => return Err(fault.at(line.number)),
        }
    }
    Ok(same)
}

impl Joining {
    fn follow<R: Print>(
        &mut self,
        rt: &R,
        place: Place<'_>,
        rows: &Rows<'_>,
        line: &Line<'_>,
    ) -> Result<bool, RowFault> {
        match line.key {
            "takes" => {
                let fragment = rows.bytes_of(line.value)?;
                self.take(&fragment)?;
                Ok(true)
            }
            "told" => {
                let told = self.told.ok_or(RowFault::new("no fragment before it"))?;
                let alloc = self.alloc;
                let found = format!(in alloc; "{told:?}")?;
                Ok(is(rt, place, line.key, line.value, found.as_str()))
            }
            "body" => {
                let told = rows.bytes_of(line.value)?;
                Ok(are_bytes(rt, place, line.key, &told, self.body.as_slice()))
            }
            _ => Err(RowFault::new("no key of a row")),
        }
    }

    fn take(&mut self, fragment: &[u8]) -> Result<(), RowFault> {
        if fragment.len() < 20 {
            return Err(RowFault::new("not both heads"));
        }
        self.told = Some(self.assembly.take(fragment, &mut self.body));
        Ok(())
    }
}

/// Whether a body is split into the messages of a row. Its first line has the message's kind in hexadecimal
/// digits, its number, and how many bytes a message has at most:
///
///     body: BYTES           what is split
///     gives: BYTES          the messages, one behind another
///
/// Tells what differs.
pub fn is_split<R: Print>(
    rt: &R,
    alloc: Global,
    place: Place<'_>,
    rows: &Rows<'_>,
    row: &Row<'_>,
) -> Result<bool, RowFault> {
    let mut words = row.first.value.split_whitespace();
    let kind = u32::from_str_radix(words.next().unwrap_or(""), 16)?;
    let number = words.next().unwrap_or("").parse::<u32>()?;
    let longest = words.next().unwrap_or("").parse::<u32>()?;
    let mut body = Vec::new(alloc);
    let mut told = Vec::new(alloc);
    for line in &row.rest {
        match line.key {
            "body" => body = rows.bytes_of(line.value)?,
            "gives" => told.extend_from_slice(&rows.bytes_of(line.value)?)?,
            _ => return Err(RowFault::new("no key of a row").at(line.number)),
        }
    }
    if longest < 64 || 4096 < longest || 4_294_967_295 < body.len() {
        return Err(RowFault::new("no length of a message"));
    }
    let found = split(alloc, kind, number, &body, longest)?;
    Ok(are_bytes(rt, place, "messages", &told, found.as_slice()))
}

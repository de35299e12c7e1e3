ghost use Rattle.std.specs.Prelude.{◌≡◌, ◌+◌, ◌*◌, ◌^◌, ◌<◌, ◌≤◌, [], ◌∷◌, ◌++◌, length, take, drop};
ghost use Rattle.std.specs.List.{flat_map};
ghost use Rattle.kit_bytes.specs.Subscriptions.{by_service, cids_of};
ghost use Rattle.kit_bytes.specs.Numbers.{number_bytes};
ghost use Rattle.mbim_services.specs.SubscribeLists.{list_buffer, references, structure};
ghost use Rattle.mbim_services.specs.Writing as runs;
ghost use Rattle.mbim_services.specs.Writing.{Puts, cids_in, subscription_in};

use uuid::Uuid;

/// How many pairs a list has at most that is written.
pub const MOST_PAIRS: usize = 1_920;

/// How many bytes the buffer of such a list has at most: a count, and for each pair a reference, a UUID,
/// a count and a CID.
pub const LONGEST_LIST: usize = 61_444;

/// Writes the buffer of a list of subscriptions in order to the front of another buffer, and answers its
/// length. It takes no memory.
pub fn write_events(pairs: &[(Uuid, Option<u32>)], into: &mut [u8]) -> usize
    requires few { length pairs.now ≤ MOST_PAIRS }
    requires room { LONGEST_LIST ≤ length into.old }
    ensures length { result ≡ length (list_buffer pairs.now) }
    ensures written { into.new ≡ list_buffer pairs.now ++ drop result into.old }
{
    let count = service_count(pairs);
    let references = put_number(into, 0, count as u32);
    let structures = put_references(pairs, into, references, 4 + 8 * count);
    put_structures(pairs, into, structures)
}

/// How many pairs of a service's UUID and what is listed with it are of one service, from the first on.
pub fn run_length<T>(pairs: &[(Uuid, T)]) -> usize
    requires { 1 ≤ length pairs.now }
    ensures some { 1 ≤ result }
    ensures within { result ≤ length pairs.now }
    ensures run { result ≡ runs.run_length pairs.now }
{
    let uuid = pairs[0].0;
    pairs.iter().take_while(|pair| pair.0 == uuid).count()
}

// In what follows bytes are put at the place `at`, and what is answered is the place behind them.

fn put(into: &mut [u8], at: usize, bytes: &[u8]) -> usize
    requires { at + length bytes.now ≤ length into.old }
    ensures end { result ≡ at + length bytes.now }
    ensures put { Puts at bytes.now into.old into.new }
{
    let end = at + bytes.len();
    into[at..end].copy_from_slice(bytes);
    end
}

fn put_number(into: &mut [u8], at: usize, number: u32) -> usize
    requires { at + 4 ≤ length into.old }
    ensures end { result ≡ at + 4 }
    ensures put { Puts at (number_bytes 4 number) into.old into.new }
{
    put(into, at, &number.to_le_bytes())
}

// How many services these pairs have.
fn service_count(pairs: &[(Uuid, Option<u32>)]) -> usize
    ensures count { result ≡ length (by_service pairs.now) }
    ensures few { result ≤ length pairs.now }
{
    let mut left = pairs;
    let mut count = 0;
    while !left.is_empty() {
        left = &left[run_length(left)..];
        count += 1;
    }
    count
}

// How many CIDs these pairs have.
fn cid_count(pairs: &[(Uuid, Option<u32>)]) -> usize
    ensures count { result ≡ length (cids_in pairs.now) }
    ensures few { result ≤ length pairs.now }
{
    let mut count = 0;
    for pair in pairs {
        if pair.1.is_some() {
            count += 1;
        }
    }
    count
}

// How long the structure of the service is that all of these pairs are of.
fn structure_length(run: &[(Uuid, Option<u32>)]) -> usize
    requires some { 1 ≤ length run.now }
    requires few { length run.now ≤ MOST_PAIRS }
    ensures length { result ≡ length (structure (subscription_in run.now)) }
    ensures short { result ≤ 24 * length run.now }
{
    let uuid: &[u8] = run[0].0.as_bytes();
    uuid.len() + 4 + 4 * cid_count(run)
}

// The references to the structures of a list, the first of which stands at a place.
fn put_references(pairs: &[(Uuid, Option<u32>)], into: &mut [u8], at: usize, place: usize) -> usize
    requires few { length pairs.now ≤ MOST_PAIRS }
    requires here { at + 8 * length pairs.now ≤ length into.old }
    requires place { place ≤ LONGEST_LIST }
    ensures end { result ≡ at + length (references place (by_service pairs.now)) }
    ensures put { Puts at (references place (by_service pairs.now)) into.old into.new }
{
    let mut left = pairs;
    let mut end = at;
    let mut place = place;
    while !left.is_empty() {
        let (run, behind) = left.split_at(run_length(left));
        let size = structure_length(run);
        end = put_number(into, end, place as u32);
        end = put_number(into, end, size as u32);
        place += size;
        left = behind;
    }
    end
}

// The structures of a list.
fn put_structures(pairs: &[(Uuid, Option<u32>)], into: &mut [u8], at: usize) -> usize
    requires few { length pairs.now ≤ MOST_PAIRS }
    requires here { at + 24 * length pairs.now ≤ length into.old }
    ensures end { result ≡ at + length (flat_map structure (by_service pairs.now)) }
    ensures put { Puts at (flat_map structure (by_service pairs.now)) into.old into.new }
{
    let mut left = pairs;
    let mut end = at;
    while !left.is_empty() {
        let (run, behind) = left.split_at(run_length(left));
        end = put_structure(run, into, end);
        left = behind;
    }
    end
}

// The structure of the service that all of these pairs are of.
fn put_structure(run: &[(Uuid, Option<u32>)], into: &mut [u8], at: usize) -> usize
    requires some { 1 ≤ length run.now }
    requires few { length run.now ≤ MOST_PAIRS }
    requires here { at + 24 * length run.now ≤ length into.old }
    ensures end { result ≡ at + length (structure (subscription_in run.now)) }
    ensures put { Puts at (structure (subscription_in run.now)) into.old into.new }
    ensures short { result ≤ at + 24 * length run.now }
{
    let uuid = run[0].0;
    let count = put(into, at, uuid.as_bytes());
    let cids = put_number(into, count, cid_count(run) as u32);
    put_cids(run, into, cids)
}

// The CIDs of pairs.
fn put_cids(pairs: &[(Uuid, Option<u32>)], into: &mut [u8], at: usize) -> usize
    requires { at + 4 * length pairs.now ≤ length into.old }
    ensures end { result ≡ at + 4 * length (cids_in pairs.now) }
    ensures put { Puts at (flat_map (number_bytes 4) (cids_in pairs.now)) into.old into.new }
{
    let mut end = at;
    for pair in pairs {
        end = put_cid(into, end, pair.1);
    }
    end
}

// A CID, if there is one.
fn put_cid(into: &mut [u8], at: usize, cid: Option<u32>) -> usize
    requires { at + 4 ≤ length into.old }
    ensures end { result ≡ at + 4 * length (cids_of cid) }
    ensures put { Puts at (flat_map (number_bytes 4) (cids_of cid)) into.old into.new }
{
    match cid {
        Some(cid) => put_number(into, at, cid),
        None => at,
    }
}

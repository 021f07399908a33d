// The host's command writer: a request becomes a CDB and, where it has a list or more capabilities than one, a segment.
// Every refusal comes before the first byte is written. CDB and segment are written front to back, every byte, those without a
// name as zero; small neighbours are written as one number, so that there are few stores.

#![tactic(auto)]

ghost use Rattle.std.specs.Prelude.{is_some, ◌≡◌, true, ◌||◌, not, ◌++◌, ◌+◌, ◌≤◌, ◌<◌, ◌*◌, ℕ, ◌%◌, eqb, ltb, length};
ghost use Rattle.rules.specs.Bytes.{to_be, laid};
ghost use Rattle.rules.specs.Writer.{paired, spelled, written};
ghost use Rattle.rules.specs.Command.{verb_of};
ghost use Rattle.writer.specs.CdbParts.{cdb_parts};
ghost use Rattle.writer.specs.SegmentParts.{segment_head, list_part, extension_part, segment_parts, size_for, IsFit};
ghost use Rattle.writer.specs.Asked.{request_of};
ghost use Rattle.writer.specs.Planning.{planned};
ghost use Rattle.writer.specs.Post.{Wrote};

use rules::Verb;

// Offsets and lengths, one beside the other.
#[derive(Clone, Copy)]
pub struct List<'a> {
    pub offsets: &'a [u64],
    pub lengths: &'a [u64],
}

// What a command is to say. With a list LENGTH is the list's sum, and `size` isn't used.
#[derive(Clone, Copy)]
pub struct Request<'a> {
    pub action: u64,
    pub partition: u64,
    pub object: u64,
    pub start: u64,
    pub size: u64,
    pub list: Option<List<'a>>,
    pub capabilities: &'a [u8],
}

// Why nothing is written: the request can't be a command, or a buffer is too short.
#[derive(Clone, Copy, PartialEq, Eq)]
pub enum Unwritten {
    NotACommand,
    BuffersShort,
}

// How long a CDB is.
const CDB: usize = 236;

// How long a capability is. The CDB has room for one.
const CAPABILITY: usize = 104;

// The bytes of a command's capabilities: one in the CDB, and eight in the segment.
const MOST_CAPABILITIES: usize = 936;

// A list has 64 entries at most.
const MOST_ENTRIES: usize = 64;

// The bytes of a segment's head.
const HEAD: usize = 40;

// A descriptor's own bytes, before its data.
const OWN: usize = 8;

// The bytes of a list's entry.
const ENTRY: usize = 16;

// ---- the CDB

// Bytes 0 to 7 of a CDB: the operation code, six without a name, and how many bytes come behind them.
const OPERATION: u64 = 0x7F000000000000E4;

// A service action, moved up by the six bytes without a name behind it.
const ACTION: u64 = 0x1000000000000;

#[tactic(auto, using(crate::proofs::Beside::pair_laid))]
fn put_pair(d: &mut [u8], at: usize, x: u64, y: u64)
    requires { at + 16 ≤ length d.old }
    ensures { d.new ≡ laid at (to_be 8 x ++ to_be 8 y) d.old }
{
    wire::put64(d, at, x);
    wire::put64(d, at + 8, y);
}

fn put_cdb(cdb: &mut [u8], request: Request, size: u64, continuation: u32)
    requires fit { IsFit (request_of request) }
    requires room { 236 ≤ length cdb.old }
    ensures { cdb.new ≡ laid 0 (cdb_parts (request_of request.entry) size continuation) cdb.old }
{
    put_pair(cdb, 0, OPERATION, ACTION * request.action);
    put_pair(cdb, 16, request.partition, request.object);
    put_pair(cdb, 32, size, request.start);
    wire::put32(cdb, 48, continuation);
    movers::wipe(cdb, 52, 28);
    movers::copy(request.capabilities, 0, CAPABILITY, cdb, 80);
    movers::wipe(cdb, 184, 52);
}

// ---- the segment

// Bytes 0 to 3 of a segment, but for the service action: the format, and one without a name.
const FORMAT: u32 = 0x01000000;

// A descriptor's own eight bytes, but for the length of its data: its type, and two without a name.
const LIST: u64 = 0x0001000000000000;

const EXTENSION: u64 = 0xFFEE000000000000;

// Bytes 0 to 39 of the segment.
#[tactic(auto, using(crate::proofs::SegmentPieces::head_laid))]
fn put_head(segment: &mut [u8], action: u16)
    requires { 40 ≤ length segment.old }
    ensures { segment.new ≡ laid 0 (segment_head action) segment.old }
{
    wire::put32(segment, 0, FORMAT + action as u32);
    movers::wipe(segment, 4, 36);
}

// The list's entries, behind its descriptor's own eight bytes. Each number is read right before it is written: of sixteen byte
// stores in a row the compiler makes no two wide ones.
fn put_entries(segment: &mut [u8], list: List)
    requires equal { length list.offsets.now ≡ length list.lengths.now }
    requires room { 48 + 16 * length list.offsets.now ≤ length segment.old }
    ensures { segment.new ≡ laid 48 (spelled (paired list.entry.offsets.now list.entry.lengths.now)) segment.old }
{
    let mut at = HEAD + OWN;
    for (offset, length) in list.offsets.iter().zip(list.lengths) {
        wire::put64(segment, at, *offset);
        wire::put64(segment, at + OWN, *length);
        at += ENTRY;
    }
}

// The list, if there is one, right behind the head. Answers where it ends.
#[tactic(auto, using(crate::proofs::SegmentPieces::lists))]
fn put_list(segment: &mut [u8], request: Request) -> usize
    requires fit { IsFit (request_of request) }
    requires room { 40 + length (list_part (request_of request)) ≤ length segment.old }
    ensures end { result ≡ 40 + length (list_part (request_of request.entry)) }
    ensures bytes { segment.new ≡ laid 40 (list_part (request_of request.entry)) segment.old }
{
    let Some(list) = request.list else {
        return HEAD;
    };
    let size = ENTRY * list.offsets.len();
    wire::put64(segment, HEAD, LIST + size as u64);
    put_entries(segment, list);
    HEAD + OWN + size
}

// The capabilities past the first, if there are any.
#[tactic(auto, using(crate::proofs::SegmentPieces::extensions))]
fn put_extension(segment: &mut [u8], at: usize, capabilities: &[u8])
    requires few { length capabilities.now ≤ 936 }
    requires room { at + length (extension_part capabilities.now) ≤ length segment.old }
    ensures { segment.new ≡ laid at (extension_part capabilities.now) segment.old }
{
    if capabilities.len() <= CAPABILITY {
        return;
    }
    let size = capabilities.len() - CAPABILITY;
    wire::put64(segment, at, EXTENSION + size as u64);
    movers::copy(capabilities, CAPABILITY, size, segment, at + OWN);
}

// Head, list and extension. With neither list nor extension there is no segment.
#[tactic(auto, using(crate::proofs::SegmentPieces::segments))]
fn put_segment(segment: &mut [u8], request: Request)
    requires fit { IsFit (request_of request) }
    requires room { size_for (request_of request) ≤ length segment.old }
    ensures { segment.new ≡ laid 0 (segment_parts (request_of request.entry)) segment.old }
{
    if request.list.is_none() && request.capabilities.len() <= CAPABILITY {
        return;
    }
    put_head(segment, request.action as u16);
    let end = put_list(segment, request);
    put_extension(segment, end, request.capabilities);
}

// ---- the request

#[tactic(auto, using(rules::proofs::Verbs::read_where_some))]
fn known(action: u64) -> bool
    ensures { result ≡ is_some (verb_of action) }
{
    Verb::try_from(action).is_ok()
}

// One capability for the CDB, and up to eight for the segment.
fn sized(capabilities: usize) -> bool
    ensures { result ≡ not (eqb capabilities 0 || ltb 936 capabilities || not (eqb (capabilities % 104) 0)) }
{
    capabilities != 0 && capabilities <= MOST_CAPABILITIES && capabilities % CAPABILITY == 0
}

// What LENGTH is, unless the list is refused.
#[tactic(auto, using(crate::proofs::Planned::plans))]
fn length_of(request: Request) -> Option<u64>
    ensures { result ≡ planned (request_of request.entry) }
{
    let Some(list) = request.list else {
        return Some(request.size);
    };
    let n = list.offsets.len();
    if n != list.lengths.len() || MOST_ENTRIES < n {
        return None;
    }
    if request.action == rules::CLEAR || request.action == rules::PUNCH {
        return None;
    }
    if request.start != 0 {
        return None;
    }
    let total = ranges::sum_of(list.lengths, n)?;
    if request.action == rules::WRITE && ranges::overlap(list.offsets, list.lengths, n) {
        return None;
    }
    Some(total)
}

// How long the segment is.
#[tactic(auto, using(crate::proofs::Sizes::sizes))]
fn segment_size(request: Request) -> usize
    requires { IsFit (request_of request) }
    ensures value { result ≡ size_for (request_of request.entry) }
    ensures small { result ≤ 1912 }
{
    let more = request.capabilities.len().saturating_sub(CAPABILITY);
    match (request.list, more) {
        (None, 0) => 0,
        (None, _) => HEAD + OWN + more,
        (Some(list), 0) => HEAD + OWN + ENTRY * list.offsets.len(),
        (Some(list), _) => HEAD + OWN + ENTRY * list.offsets.len() + OWN + more,
    }
}

// Writes a command: the CDB, and the segment that goes before the command data. `Ok` has the segment's length.
#[tactic(auto, using(crate::proofs::Whole::answers))]
pub fn write_command(
    request: Request,
    cdb: &mut [u8],
    segment: &mut [u8],
) -> Result<usize, Unwritten>
    ensures { Wrote (written (request_of request.entry) cdb.old segment.old) result cdb.new segment.new }
{
    if !known(request.action) || !sized(request.capabilities.len()) {
        return Err(Unwritten::NotACommand);
    }
    let length = length_of(request).ok_or(Unwritten::NotACommand)?;
    let size = segment_size(request);
    if cdb.len() < CDB || segment.len() < size {
        return Err(Unwritten::BuffersShort);
    }
    put_cdb(cdb, request, length, size as u32);
    put_segment(segment, request);
    Ok(size)
}

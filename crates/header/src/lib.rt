// Rows 2 to 8 of the table of numbers: whether a command can be read, and what it then says. They are three questions, of the CDB
// alone, of the object that it names and of its segment, and one that asks them in order, which the engine and the admission
// question share: so nobody tests these rows twice in different words.

#![tactic(auto)]

ghost use Rattle.std.specs.Prelude.{Ok, is_some, ◌≡◌, ◌≤◌, ◌&&◌, ◌||◌, not, eqb, ltb, length};
ghost use Rattle.rules.specs.Bytes.{byte, field};
ghost use Rattle.rules.specs.Command.{is_clear, is_punch};
ghost use Rattle.rules.specs.Header.{cdb_malformed};
ghost use Rattle.rules.specs.Segment.{walk, nothing};
ghost use Rattle.rules.specs.declared.Record.{Record};
ghost use Rattle.header.specs.Reading.{command, said_by, front_of, other_than, Opened, segment_of, reading_of};

use rules::{Found, Part, Record, Refusal, Verb};

// What a command says that can be read. Of the CDB alone, nothing is found yet.
#[derive(Clone, Copy)]
pub struct Parsed {
    pub verb: Verb,
    pub partition: u64,
    pub object: u64,
    pub start: u64,
    pub size: u64,
    pub segment: usize,
    pub found: Found,
}

// Row 2.
#[tactic(auto, unfolding(rules::specs::Header::cdb_malformed))]
fn is_malformed(cdb: &[u8]) -> bool
    ensures { result ≡ cdb_malformed cdb.now }
{
    cdb.len() != 236 || cdb[0] != 0x7F || cdb[7] != 228
}

// What a CDB says, before a segment is looked at.
#[tactic(auto, using(crate::proofs::Rows::said_read))]
fn said_by(cdb: &[u8], verb: Verb) -> Parsed
    requires { length cdb.now ≡ 236 }
    ensures { result ≡ said_by verb cdb.now nothing }
{
    Parsed {
        verb,
        partition: wire::get64(cdb, 16),
        object: wire::get64(cdb, 24),
        start: wire::get64(cdb, 40),
        size: wire::get64(cdb, 32),
        segment: wire::get32(cdb, 48) as usize,
        found: Found {
            list: None,
            extension: None,
        },
    }
}

// Rows 2 and 3, of the CDB alone.
pub fn read_front(cdb: &[u8]) -> Result<Parsed, Refusal>
    ensures { result ≡ front_of cdb.now }
{
    if is_malformed(cdb) {
        return Err(Refusal::CdbMalformed);
    }
    let verb = Verb::try_from(wire::get16(cdb, 8) as u64)?;
    Ok(said_by(cdb, verb))
}

// Row 4: whether a command names another object than the record's.
#[tactic(auto, unfolding(crate::specs::Reading::other_than))]
pub fn is_other(said: Parsed, on: Record) -> bool
    ensures { result ≡ other_than said on }
{
    said.partition != on.partition || said.object != on.object
}

// Row 5.
fn is_wrong_length(continuation: usize, data_out: usize) -> bool
    ensures { result ≡ (not (eqb continuation 0) && (ltb continuation 40 || ltb 2048 continuation || ltb data_out continuation)) }
{
    continuation != 0 && (continuation < 40 || 2048 < continuation || data_out < continuation)
}

// Row 6, of a segment.
fn is_wrong_head(segment: &[u8], action: u16) -> bool
    requires { 4 ≤ length segment.now }
    ensures { result ≡ (not (eqb (byte 0 segment.now) 0x01) || not (eqb (field 2 2 segment.now) action)) }
{
    segment[0] != 0x01 || wire::get16(segment, 2) != action
}

// Row 8.
fn is_forbidden(verb: Verb, list: Option<Part>) -> bool
    ensures { result ≡ (is_some list && (is_clear verb || is_punch verb)) }
{
    list.is_some() && matches!(verb, Verb::Clear | Verb::Punch)
}

// Rows 6 to 8, of a command that has a segment.
fn read_descriptors(cdb: &[u8], out: &[u8], said: Parsed) -> Result<Parsed, Refusal>
    requires { Opened cdb.now out.now said }
    ensures { (on : Record) → result ≡ segment_of (command cdb.now out.now on) }
{
    let segment = &out[0..said.segment];
    if is_wrong_head(segment, wire::get16(cdb, 8)) {
        return Err(Refusal::SegmentHeader);
    }
    let found = segment::walk_over(segment)?;
    if is_forbidden(said.verb, found.list) {
        return Err(Refusal::ListForbidden);
    }
    Ok(Parsed { found, ..said })
}

// Rows 5 to 8, of a CDB that says so much by itself, and of Data-Out. Whose object it is doesn't matter.
#[tactic(auto, using(crate::proofs::Rows::without_segment))]
pub fn read_segment(cdb: &[u8], out: &[u8], said: Parsed) -> Result<Parsed, Refusal>
    requires { front_of cdb.now ≡ Ok said }
    ensures { (on : Record) → result ≡ segment_of (command cdb.now out.now on) }
{
    if is_wrong_length(said.segment, out.len()) {
        return Err(Refusal::ContinuationLength);
    }
    if said.segment == 0 {
        return Ok(said);
    }
    read_descriptors(cdb, out, said)
}

// Whether a command can be read: the first of rows 2 to 8 that refuses it, or what it says.
pub fn read_command(cdb: &[u8], out: &[u8], on: Record) -> Result<Parsed, Refusal>
    ensures { result ≡ reading_of (command cdb.now out.now on) }
{
    let said = read_front(cdb)?;
    if is_other(said, on) {
        return Err(Refusal::OtherObject);
    }
    read_segment(cdb, out, said)
}

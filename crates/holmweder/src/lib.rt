// The C face: the entry points of include/holmweder.h, on numbers and byte slices. None of them asks anything of its caller
// that the header doesn't say of memory.

#![tactic(auto)]

ghost use Rattle.std.specs.Prelude.{◌≡◌, not, eqb};
ghost use Rattle.rules.specs.Numbers.{sense, status};
ghost use Rattle.rules.specs.Admission.{question};
ghost use Rattle.rules.specs.Answer.{answered};
ghost use Rattle.rules.specs.Writer.{written};
ghost use Rattle.header.specs.Reading.{command};
ghost use Rattle.question.specs.Places.{place_of};
ghost use Rattle.writer.specs.Planning.{request};
ghost use Rattle.writer.specs.Post.{number_of, size_of};
ghost use Rattle.holmweder.specs.Face.{record_of, range_of, seen, seen_of, Told, wrote};

use question::Place;
use rules::{Range, Record};
use writer::{List, Request, Unwritten};

// One command, on the record as numbers.
pub fn holmweder_execute(
    cdb: &[u8],
    out: &[u8],
    partition: u64,
    object: u64,
    logical: u64,
    maximum: u64,
    tag: u32,
    epoch: u16,
    slice: &mut [u8],
    input: &mut [u8],
    count: &mut u64,
    next_length: &mut u64,
) -> u32
    ensures { seen result count.new next_length.new slice.new input.new
        ≡ seen_of (answered (command cdb.now out.now (record_of partition object logical maximum tag epoch))
        slice.old input.old) }
{
    let on = Record {
        partition,
        object,
        length: logical,
        maximum,
        tag,
        epoch,
    };
    let answer = engine::execute(cdb, out, on, slice, input);
    *count = answer.count;
    *next_length = answer.next.length;
    numbers::number_of(answer.outcome)
}

// Which capability of a command admits a range: whose it is, and where its 104 bytes stand there.
pub fn holmweder_admission(
    cdb: &[u8],
    out: &[u8],
    partition: u64,
    object: u64,
    logical: u64,
    maximum: u64,
    tag: u32,
    epoch: u16,
    start: u64,
    size: u64,
    offset: &mut u64,
) -> u32
    ensures { Told
        (place_of (question (command cdb.now out.now (record_of partition object logical maximum tag epoch)) (range_of start size)))
        result offset.new }
{
    let on = Record {
        partition,
        object,
        length: logical,
        maximum,
        tag,
        epoch,
    };
    let (whose, at) = match question::place_that_admits(cdb, out, on, Range { start, size }) {
        None => (0, 0),
        Some(Place::InCdb) => (1, 80),
        Some(Place::InOut(at)) => (2, at as u64),
    };
    *offset = at;
    whose
}

pub fn holmweder_sense_key(number: u32) -> u32
    ensures { result ≡ (sense number).key }
{
    numbers::sense_key(number)
}

pub fn holmweder_sense_code(number: u32) -> u32
    ensures { result ≡ (sense number).code }
{
    numbers::sense_code(number)
}

pub fn holmweder_status(number: u32) -> u32
    ensures { result ≡ status number }
{
    numbers::status_of(number)
}

// What the writer answers, as a number, and the segment's length.
fn number_and_length(answer: Result<usize, Unwritten>) -> (u32, u64)
    ensures number { result.0 ≡ number_of answer }
    ensures length { result.1 ≡ size_of answer }
{
    match answer {
        Ok(length) => (0, length as u64),
        Err(Unwritten::NotACommand) => (16, 0),
        Err(Unwritten::BuffersShort) => (17, 0),
    }
}

// A command for the engine, from what it is to say. Any `listed` but 0 is yes.
pub fn holmweder_write(
    action: u64,
    partition: u64,
    object: u64,
    start: u64,
    size: u64,
    listed: u32,
    offsets: &[u64],
    lengths: &[u64],
    capabilities: &[u8],
    cdb: &mut [u8],
    segment: &mut [u8],
    segment_length: &mut u64,
) -> u32
    ensures { wrote result segment_length.new cdb.new segment.new
        ≡ written (request action partition object start size (not (eqb listed 0)) offsets.now lengths.now capabilities.now)
        cdb.old segment.old }
{
    let list = List { offsets, lengths };
    let request = Request {
        action,
        partition,
        object,
        start,
        size,
        list: (listed != 0).then_some(list),
        capabilities,
    };
    let (number, length) = number_and_length(writer::write_command(request, cdb, segment));
    *segment_length = length;
    number
}

// A call as a file has it: four sections, each after its four-byte count; where each one stands, and the record out of its bytes.
// And its answer as a line tells it: number with key and code, count, and the logical length afterwards.

#![tactic(auto)]

ghost use Rattle.std.specs.Prelude.{◌≡◌, ◌≤◌, length, Some, ◌<◌};
ghost use Rattle.callfile.specs.File.{section_at, layout_of, record_of};
ghost use Rattle.callfile.specs.Told.{line_of, line_text, hex_digit, code_text};

use rules::{Answer, Part, Record};
use std::fmt;

#[derive(Clone, Copy)]
pub struct Sections {
    pub cdb: Part,
    pub out: Part,
    pub on: Part,
    pub slice: Part,
}

// Where a section's bytes stand, behind its count; none if it isn't whole, or longer than `most`.
#[tactic(auto, unfolding(crate::specs::File::section_at))]
fn section_at(file: &[u8], at: usize, most: usize) -> Option<Part>
    requires { at ≤ length file.now }
    ensures { result ≡ section_at file.now at most }
{
    let left = (file.len() - at).checked_sub(4)?;
    let size = wire::get32(file, at) as usize;
    let fits = size <= most && size <= left;
    fits.then_some(Part { at: at + 4, size })
}

#[tactic(auto, using(crate::proofs::Layouts::inside), unfolding(crate::specs::File::layout_of))]
pub fn layout_of(file: &[u8]) -> Option<Sections>
    ensures { result ≡ layout_of file.now }
{
    let cdb = section_at(file, 0, 1024)?;
    let out = section_at(file, cdb.at + cdb.size, 8192)?;
    let on = section_at(file, out.at + out.size, 38)?;
    let slice = section_at(file, on.at + on.size, 16384)?;
    let sound = on.size == 38 && slice.at + slice.size == file.len();
    sound.then_some(Sections {
        cdb,
        out,
        on,
        slice,
    })
}

#[tactic(auto, unfolding(crate::specs::File::record_of))]
pub fn record_of(bytes: &[u8]) -> Record
    requires { length bytes.now ≡ 38 }
    ensures { result ≡ record_of bytes.now }
{
    Record {
        partition: wire::get64(bytes, 0),
        object: wire::get64(bytes, 8),
        length: wire::get64(bytes, 16),
        maximum: wire::get64(bytes, 24),
        tag: wire::get32(bytes, 32),
        epoch: wire::get16(bytes, 36),
    }
}

// What is printed of an answer. A sense code has two bytes.
#[derive(Clone, Copy)]
pub struct Line {
    pub number: u32,
    pub key: u32,
    pub code: u16,
    pub count: u64,
    pub length: u64,
}

#[tactic(auto, using(crate::proofs::Codes::two_bytes), unfolding(crate::specs::Told::line_of))]
pub fn line_of(answer: Answer) -> Line
    ensures { result ≡ line_of answer }
{
    let number = numbers::number_of(answer.outcome);
    Line {
        number,
        key: numbers::sense_key(number),
        code: numbers::sense_code(number) as u16,
        count: answer.count,
        length: answer.next.length,
    }
}

impl fmt::Display for Line {
    ghost output = { λ line. Some (line_text line) };

    #[tactic(auto, using(crate::proofs::Digits::printed))]
    fn fmt<W: fmt::Write>(&self, f: &mut fmt::Formatter<W>) -> fmt::Result {
        let Line {
            number,
            key,
            code,
            count,
            length,
        } = *self;
        write!(f, "{number} {key} {code:04X} {count} {length}")
    }
}

fn hex_digit(d: u32) -> u8
    requires { d < 16 }
    ensures { result ≡ hex_digit d }
{
    if d < 10 {
        b'0' + d as u8
    } else {
        b'A' - 10 + d as u8
    }
}

// The code's digits alone, for who prints without a formatter.
pub fn code_text(code: u32) -> [u8; 4]
    ensures { result ≡ code_text code }
{
    [
        hex_digit(code / 4096 % 16),
        hex_digit(code / 256 % 16),
        hex_digit(code / 16 % 16),
        hex_digit(code % 16),
    ]
}

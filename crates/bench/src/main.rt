// One call from a file on standard input: the answer is printed as one line, or `bad file`.
// `reply_to` makes of the file what is to be printed. No contract can speak of input and output, so only the last functions have any.

#![tactic(auto)]

ghost use Rattle.std.specs.Prelude.{◌≡◌, ◌≤◌, length, IfOk};
ghost use Rattle.rules.specs.Bytes.{zeros};
ghost use Rattle.rules.specs.Answer.{answered};
ghost use Rattle.header.specs.Reading.{command};
ghost use Rattle.callfile.specs.File.{end, bytes_of, Inside};
ghost use Rattle.bench.specs.Reply.{answer_to, reply_to};

use callfile::{Line, Sections};
use rules::{Answer, Part, Record};
use std::io;
use std::io::Read;

// The file is only read, so the engine is lent a copy of the object slice.
fn carry_out(cdb: &[u8], out: &[u8], on: Record, slice: &[u8]) -> Answer
    requires { length slice.now ≤ 16384 }
    ensures { result ≡ (answered (command cdb.now out.now on) slice.now (zeros 4096)).answer }
{
    let mut lent = [0u8; 16384];
    let mut input = [0u8; 4096];
    let lent = &mut lent[..slice.len()];
    lent.copy_from_slice(slice);
    engine::execute(cdb, out, on, lent, &mut input)
}

fn bytes_of(file: &[u8], section: Part) -> &[u8]
    requires { end section ≤ length file.now }
    ensures { result.now ≡ bytes_of file.now section }
{
    &file[section.at..section.at + section.size]
}

#[tactic(auto, unfolding(crate::specs::Reply::answer_to))]
fn answer_to(file: &[u8], sections: Sections) -> Answer
    requires { Inside file.now sections }
    ensures { result ≡ answer_to file.now sections }
{
    let on = callfile::record_of(bytes_of(file, sections.on));
    carry_out(
        bytes_of(file, sections.cdb),
        bytes_of(file, sections.out),
        on,
        bytes_of(file, sections.slice),
    )
}

#[tactic(auto, using(crate::proofs::Replies::sections_inside), unfolding(crate::specs::Reply::reply_to))]
fn reply_to(file: &[u8]) -> Option<Line>
    ensures { result ≡ reply_to file.now }
{
    let sections = callfile::layout_of(file)?;
    Some(callfile::line_of(answer_to(file, sections)))
}

fn print_reply(rt: &HostRuntime, reply: Option<Line>) -> io::Result<()> {
    match reply {
        Some(line) => println!(rt; "{line}"),
        None => println!(rt; "bad file"),
    }
}

// Reads until the space is full or the input ends, and answers how many bytes there are.
fn fill(rt: &HostRuntime, space: &mut [u8]) -> io::Result<usize>
    ensures { IfOk result (λ n. n ≤ length space.new) }
{
    let mut done = 0;
    while done < space.len() {
        let more = rt.stdin().read(&mut space[done..])?;
        if more == 0 {
            return Ok(done);
        }
        done += more;
    }
    Ok(done)
}

fn answer_input(rt: &HostRuntime, space: &mut [u8]) -> io::Result<()> {
    let size = fill(rt, space)?;
    print_reply(rt, reply_to(&space[..size]))
}

// A sound file has 25,654 bytes at most. One that fills the buffer goes on behind its slice, whatever was left unread.
fn main(rt: HostRuntime) -> io::Result<()> {
    let mut space = [0u8; 65536];
    answer_input(&rt, &mut space)
}

// A segment: what stands at a position, a descriptor, the end or a fault; the walk over its descriptors, which comes to all that
// the segment has or to its first fault and where that stands; and a list entry. Nothing of the segment is copied.

#![tactic(auto)]

ghost use Rattle.std.specs.Prelude.{◌≡◌, ◌&&◌, not, ◌+◌, ◌≤◌, ◌/◌, ◌%◌, eqb, ◌==◌, length, drop};
ghost use Rattle.std.specs.List.{list_all};
ghost use Rattle.std.specs.Iterator.{YieldsFirst, item_count};
ghost use Rattle.rules.specs.Tests.{first_of};
ghost use Rattle.rules.specs.Segment.{size_at, data_at, faults, here, entry_at, entries_from, walk};
ghost use Rattle.segment.specs.Verdict.{judged};
ghost use Rattle.segment.specs.Step.{start, stepped};
ghost use Rattle.segment.specs.Left.{bytes_left, entries_left, IsPart};

use rules::{Cause, Fault, Found, Here, Part, Range};
use std::ops::ControlFlow;

fn is_blank(bytes: &[u8]) -> bool
    ensures { result ≡ list_all (λ b. b == 0) bytes.now }
{
    bytes.iter().all(|byte| *byte == 0)
}

// Where the data of a descriptor of a known type stands, or what it is refused for. Lengths are compared with what is left from the
// header on, so that no sum can wrap.
fn judge(s: &[u8], at: usize, size: usize, supported: usize, fits: bool) -> Result<Part, Cause>
    requires { (at + 8 ≤ length s.now) × (size ≡ size_at s.now at) × (supported ≤ 1024) }
    ensures { result ≡ judged (first_of (faults supported fits s.now at)) (data_at s.now at) }
{
    if supported < size {
        return Err(Cause::Over);
    }
    let pad = (s[at + 3] % 8) as usize;
    if (size + pad) % 8 != 0 {
        return Err(Cause::Padding);
    }
    if !fits {
        return Err(Cause::Misfit);
    }
    if s.len() - at < 8 + size + pad {
        return Err(Cause::Past);
    }
    Ok(Part { at: at + 8, size })
}

// One capability or more, and no part of one.
fn holds_capabilities(size: usize) -> bool
    ensures { result ≡ (eqb (size % 104) 0 && not (eqb size 0)) }
{
    size != 0 && size % 104 == 0
}

// What stands at a position, also at one past the segment's end, where nothing is left.
#[tactic(auto, using(crate::proofs::Faults::descriptors, crate::proofs::Standing::standings, rules::proofs::Segment::end_here))]
pub fn standing_at(s: &[u8], at: usize) -> Result<Here, Cause>
    ensures { result ≡ here s.now at }
{
    if s.len() < at {
        return Ok(Here::End);
    }
    if s.len() - at < 8 {
        if is_blank(&s[at..]) {
            return Ok(Here::End);
        }
        return Err(Cause::Remainder);
    }
    let size = wire::get32(s, at + 4) as usize;
    match wire::get16(s, at) {
        0x0000 => Ok(Here::End),
        0x0001 => Ok(Here::Entries(judge(s, at, size, 1024, size % 16 == 0)?)),
        0xFFEE => Ok(Here::Extensions(judge(s, at, size, 832, holds_capabilities(size))?)),
        _ => Err(Cause::Unknown),
    }
}

// A list entry where it stands.
#[tactic(auto, unfolding(rules::specs::Segment::entry_at))]
pub fn entry_at(s: &[u8], at: usize) -> Range
    requires { at + 16 ≤ length s.now }
    ensures { result ≡ entry_at s.now at }
{
    Range {
        start: wire::get64(s, at),
        size: wire::get64(s, at + 8),
    }
}

// ---- the walk

// Where a walk stands: at which byte, with what it has found by then.
#[derive(Clone, Copy)]
pub struct Position {
    pub at: usize,
    pub found: Found,
}

// A step of the walk: it breaks off with what the walk comes to, or goes on behind the descriptor that it has met.
#[tactic(auto, using(crate::proofs::Walking::stepping))]
pub fn step_from(s: &[u8], position: Position) -> ControlFlow<Result<Found, Fault>, Position>
    ensures { result ≡ stepped s.now position }
{
    let Position { at, found } = position;
    match standing_at(s, at) {
        Err(cause) => ControlFlow::Break(Err(Fault { cause, at })),
        Ok(Here::End) => ControlFlow::Break(Ok(found)),
        Ok(Here::Entries(part)) => match found.list {
            Some(_) => ControlFlow::Break(Err(Fault {
                cause: Cause::Repeated,
                at,
            })),
            None => ControlFlow::Continue(Position {
                at: part.at + part.size,
                found: Found {
                    list: Some(part),
                    ..found
                },
            }),
        },
        Ok(Here::Extensions(part)) => match found.extension {
            Some(_) => ControlFlow::Break(Err(Fault {
                cause: Cause::Repeated,
                at,
            })),
            None => ControlFlow::Continue(Position {
                at: part.at + part.size,
                found: Found {
                    extension: Some(part),
                    ..found
                },
            }),
        },
    }
}

// The first descriptor's position, with nothing found. A segment of fewer than 40 bytes has none.
pub fn first_position() -> Position
    ensures { result ≡ start }
{
    Position {
        at: 40,
        found: Found {
            list: None,
            extension: None,
        },
    }
}

// What the whole segment has, from its first descriptor on, or its first fault.
#[tactic(auto, using(crate::proofs::Walking::walking), unfolding(rules::specs::Segment::walk))]
pub fn walk_over(s: &[u8]) -> Result<Found, Fault>
    ensures { result ≡ walk s.now }
{
    let mut position = first_position();
    loop {
        match step_from(s, position) {
            ControlFlow::Continue(next) => position = next,
            ControlFlow::Break(walk) => return walk,
        }
    }
}

// ---- a list, entry by entry

// A list's entries in their order, each read where it stands.
#[derive(Clone, Copy)]
pub struct ListEntries<'a> {
    rest: &'a [u8],
}

impl<'a> Iterator for ListEntries<'a> {
    type Item = Range;

    ghost next_gives = { YieldsFirst entries_left };

    ghost remaining = { item_count entries_left };

    #[tactic(auto, using(crate::proofs::Left::leaving))]
    fn next(&mut self) -> Option<Range> {
        let (entry, rest) = self.rest.split_first_chunk::<16>()?;
        self.rest = rest;
        Some(entry_at(entry, 0))
    }
}

// The entries whose bytes are a part of the segment.
#[tactic(auto, using(crate::proofs::Left::left_in))]
pub fn entries_in<'a>(s: &'a [u8], part: Part) -> ListEntries<'a>
    requires { part.at + part.size ≤ length s.now }
    ensures bytes { IsPart part s.entry (bytes_left result) }
    ensures entries { entries_left result ≡ entries_from (part.size / 16) s.now part.at }
{
    ListEntries {
        rest: &s[part.at..part.at + part.size],
    }
}

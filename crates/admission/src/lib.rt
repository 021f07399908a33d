// Row 11: whether a command is let in, all of its ranges. What its capabilities allow is noted once and asked for each range.

#![tactic(auto)]

ghost use Rattle.std.specs.Prelude.{Ok, ◌≡◌, [], ◌∷◌, ◌++◌, ◌+◌, ◌<◌, ◌≤◌, length};
ghost use Rattle.arrayvec.specs.ArrayVec.{array_vec_len};
ghost use Rattle.rules.specs.Admission.{admitted};
ghost use Rattle.header.specs.Reading.{command, reading_of};
ghost use Rattle.segment.specs.Lying.{ListAt};
ghost use Rattle.capability.specs.Sought.{Reads};
ghost use Rattle.admission.specs.Allowed.{pieces_in, noted, inside_one, each_inside, admitted_in};

use arrayvec::ArrayVec;
use capability::Sought;
use header::Parsed;
use rules::{Range, Record};

// Notes what a capability allows behind what is noted by then, if it matches. So each is matched once for all ranges of a list.
#[tactic(auto, unfolding(crate::specs::Allowed::noted))]
#[inline]
fn note(k: &[u8], by: Sought, allowances: &mut ArrayVec<Range, 9>)
    requires { (104 ≤ length k.now) × (array_vec_len allowances.old < 9) }
    ensures items { allowances.new.items ≡ allowances.old.items ++ noted by (k.now ∷ []) }
    ensures count { array_vec_len allowances.new ≤ array_vec_len allowances.old + 1 }
{
    if capability::is_match(k, by) {
        allowances.push(capability::allowance_of(k));
    }
}

// What the command's matching capabilities allow, nine at most.
#[tactic(auto, using(crate::proofs::Noting::noting, capability::proofs::Pieces::chunks_are))]
fn note_all(cdb: &[u8], segment: &[u8], said: Parsed, by: Sought) -> ArrayVec<Range, 9>
    requires { Reads cdb.now segment.now said }
    ensures { result.items ≡ noted by (pieces_in cdb.now segment.now said) }
{
    let mut allowances = ArrayVec::new();
    note(&cdb[80..184], by, &mut allowances);
    if let Some(part) = said.found.extension {
        for k in segment[part.at..part.at + part.size].as_chunks::<104>().0 {
            note(k, by, &mut allowances);
        }
    }
    allowances
}

// Whether a range lies inside one of the allowances.
fn lies_inside(allowances: &[Range], g: Range) -> bool
    ensures { result ≡ inside_one allowances.now g }
{
    allowances
        .iter()
        .any(|allowance| capability::is_allowed(g, *allowance))
}

// Whether each range of the command does.
fn all_inside(segment: &[u8], said: Parsed, allowances: &[Range]) -> bool
    requires { ListAt segment.now said.found.list }
    ensures { result ≡ each_inside allowances.now segment.now said said.found.list }
{
    match said.found.list {
        None => lies_inside(
            allowances,
            Range {
                start: said.start,
                size: said.size,
            },
        ),
        Some(part) => segment::entries_in(segment, part).all(|g| lies_inside(allowances, g)),
    }
}

// Whether a command that was read is let in: some capability matches, and each of its ranges lies inside one that does.
#[tactic(auto, unfolding(crate::specs::Allowed::admitted_in))]
fn is_let_in(cdb: &[u8], segment: &[u8], said: Parsed, on: Record) -> bool
    requires { Reads cdb.now segment.now said }
    ensures { result ≡ admitted_in cdb.now segment.now said on }
{
    let by = capability::sought_by(said, on);
    let allowances = note_all(cdb, segment, said, by);
    !allowances.is_empty() && all_inside(segment, said, &allowances)
}

// Whether a command that was read is admitted.
pub fn is_admitted(cdb: &[u8], out: &[u8], said: Parsed, on: Record) -> bool
    requires { reading_of (command cdb.now out.now on) ≡ Ok said }
    ensures { result ≡ admitted said.verb (command cdb.now out.now on) }
{
    is_let_in(cdb, &out[..said.segment], said, on)
}

// The admission question: for any range the first capability that admits it, handed back where it stands.

#![tactic(auto)]

ghost use Rattle.std.specs.Prelude.{◌≡◌, ◌≤◌, length};
ghost use Rattle.rules.specs.Admission.{question};
ghost use Rattle.header.specs.Reading.{command};
ghost use Rattle.segment.specs.Lying.{ExtensionIn};
ghost use Rattle.capability.specs.Sought.{Reads, admits_in};
ghost use Rattle.question.specs.Places.{place_of, first_from, first_in, Handed};

use capability::Sought;
use header::Parsed;
use rules::{Part, Range, Record};

// Where a capability stands.
#[derive(Clone, Copy)]
pub enum Place {
    InCdb,
    InOut(usize),
}

// Whether a capability admits a range. The range is tested first: of several capabilities mostly one has it inside.
#[tactic(auto, using(crate::proofs::Search::both), unfolding(capability::specs::Sought::admits_in))]
#[inline]
fn admits(k: &[u8], by: Sought, g: Range) -> bool
    requires { 104 ≤ length k.now }
    ensures { result ≡ admits_in by g k.now }
{
    capability::is_inside(k, g) && capability::is_match(k, by)
}

// The first of the extension's capabilities that admits a range.
fn first_extension(segment: &[u8], part: Part, by: Sought, g: Range) -> Option<Place>
    requires { ExtensionIn segment.now part }
    ensures { result ≡ first_from (admits_in by g) segment.now part }
{
    let index = segment[part.at..part.at + part.size]
        .as_chunks::<104>()
        .0
        .iter()
        .position(|k| admits(k, by, g))?;
    Some(Place::InOut(part.at + 104 * index))
}

// The first capability that admits a range, the CDB's before the segment's.
#[tactic(auto, unfolding(crate::specs::Places::first_in))]
fn first_place(cdb: &[u8], segment: &[u8], said: Parsed, on: Record, g: Range) -> Option<Place>
    requires { Reads cdb.now segment.now said }
    ensures { result ≡ first_in cdb.now segment.now said on g }
{
    let by = capability::sought_by(said, on);
    if admits(&cdb[80..184], by, g) {
        return Some(Place::InCdb);
    }
    first_extension(segment, said.found.extension?, by, g)
}

// The admission question, for any range: where the first capability stands that admits it.
#[tactic(auto, using(crate::proofs::Meaning::asking))]
pub fn place_that_admits(cdb: &[u8], out: &[u8], on: Record, g: Range) -> Option<Place>
    ensures { result ≡ place_of (question (command cdb.now out.now on) g) }
{
    let said = header::read_command(cdb, out, on).ok()?;
    first_place(cdb, &out[..said.segment], said, on, g)
}

// The same, as the capability's 104 bytes where they stand. The part is empty where none admits the range.
pub fn capability_that_admits<'a>(cdb: &'a [u8], out: &'a [u8], on: Record, g: Range) -> &'a [u8]
    ensures { Handed (place_of (question (command cdb.now out.now on) g)) cdb.entry out.entry result }
{
    match place_that_admits(cdb, out, on, g) {
        None => &cdb[..0],
        Some(Place::InCdb) => &cdb[80..184],
        Some(Place::InOut(at)) => &out[at..at + 104],
    }
}

// The object, the first bytes of its slice: a command's ranges, with a list or without, gathered from it or filled from Data-Out;
// one range cleared, or cut out. Where a length rises, the gap becomes zero.

#![tactic(auto)]

ghost use Rattle.std.specs.Prelude.{◌≡◌, false, [], ◌∷◌, ◌++◌, ◌+◌, ◌≤◌, ◌-◌, ◌/◌, ltb, length, drop, take};
ghost use Rattle.rules.specs.Bytes.{zeros, part, laid, any};
ghost use Rattle.rules.specs.Ranges.{reach, total};
ghost use Rattle.rules.specs.Object.{scattered, grown, punched, gathered};
ghost use Rattle.rules.specs.Segment.{entries_from};
ghost use Rattle.header.specs.Ranges.{ranges_in};
ghost use Rattle.object.specs.Gap.{grown_up_to};
ghost use Rattle.object.specs.Ready.{sole, ForRead, ForWrite};

use header::Parsed;
use rules::{Part, Range};

// ---- one range

// The positions from the old length to the new one become zero.
#[tactic(auto, unfolding(rules::specs::Object::grown))]
fn grow(s: &mut [u8], old: usize, new: usize)
    requires { (old ≤ new) × (new ≤ length s.old) }
    ensures { s.new ≡ grown old new s.old }
{
    movers::wipe(s, old, new - old);
}

// Where a range raises the length, only the gap in front of it becomes zero here: the range itself is filled next. The answer is
// where it starts. An empty range raises nothing.
#[tactic(auto, unfolding(rules::specs::Ranges::reach, crate::specs::Gap::grown_up_to))]
fn grow_up_to(slice: &mut [u8], logical: usize, g: Range) -> usize
    requires { reach logical (g ∷ []) ≤ length slice.old }
    ensures { (result ≡ g.start) × (slice.new ≡ grown_up_to logical g slice.old) }
{
    let start = g.start as usize;
    if g.size != 0 {
        grow(slice, logical, logical.max(start));
    }
    start
}

// WRITE of one range, from the front of the command data.
#[tactic(auto, using(crate::proofs::Raising::raising), unfolding(rules::specs::Object::scattered))]
fn write_range(slice: &mut [u8], logical: usize, g: Range, payload: &[u8])
    requires { (g.size ≤ length payload.now) × (reach logical (g ∷ []) ≤ length slice.old) }
    ensures { slice.new ≡ scattered (grown logical (reach logical (g ∷ [])) slice.old) (g ∷ []) payload.now }
{
    let start = grow_up_to(slice, logical, g);
    movers::copy(payload, 0, g.size as usize, slice, start);
}

// CLEAR of one range.
#[tactic(auto, using(crate::proofs::Raising::raising), unfolding(rules::specs::Object::scattered))]
pub fn clear_range(slice: &mut [u8], logical: usize, g: Range)
    requires { reach logical (g ∷ []) ≤ length slice.old }
    ensures { slice.new ≡ scattered (grown logical (reach logical (g ∷ [])) slice.old) (g ∷ []) (zeros g.size) }
{
    let start = grow_up_to(slice, logical, g);
    movers::wipe(slice, start, g.size as usize);
}

// The bytes of a range, as far as the object goes.
fn bytes_of(object: &[u8], g: Range) -> &[u8]
    requires { g.start ≤ length object.now }
    ensures { result.now ≡ part g.start g.size object.now }
{
    let behind = &object[g.start as usize..];
    &behind[..g.size.min(behind.len() as u64) as usize]
}

// Those bytes, put into Data-In from `to` on; the answer is how many they are.
fn gather(object: &[u8], g: Range, input: &mut [u8], to: usize) -> usize
    requires { (g.start ≤ length object.now) × (to + g.size ≤ length input.old) }
    ensures { let d = part g.start g.size object.now in
        (result ≡ length d) × (input.new ≡ laid to d input.old) }
{
    let bytes = bytes_of(object, g);
    movers::copy(bytes, 0, bytes.len(), input, to);
    bytes.len()
}

// The object is the slice's first `logical` bytes; the answer is how many of them the range had.
#[tactic(auto, using(crate::proofs::Within::cutting))]
pub fn punch(s: &mut [u8], logical: usize, g: Range) -> usize
    requires { (g.start ≤ logical) × (logical ≤ length s.old) }
    ensures { let o = punched g (take logical s.old) in
        (result ≡ logical - length o) × (s.new ≡ o ++ zeros (logical - length o) ++ drop logical s.old) }
{
    let start = g.start as usize;
    let count = bytes_of(&s[..logical], g).len();
    if count == 0 {
        return 0;
    }
    let behind = logical - start - count;
    movers::move_down(s, start + count, behind, start);
    movers::wipe(s, start + behind, count);
    count
}

// ---- a list's ranges

// The bytes of a list's ranges, in order; a range that the object's end cuts short is the last.
#[tactic(auto, using(crate::proofs::Gathering::gathering), unfolding(rules::specs::Bytes::any, rules::specs::Ranges::total))]
fn gather_list(s: &[u8], part: Part, object: &[u8], input: &mut [u8]) -> usize
    requires within { part.at + part.size ≤ length s.now }
    requires begun { any (λ (g : Range). ltb (length object.now) g.start) (entries_from (part.size / 16) s.now part.at) ≡ false }
    requires room { total (entries_from (part.size / 16) s.now part.at) ≤ length input.old }
    ensures { let d = gathered object.now (entries_from (part.size / 16) s.now part.at) in
        (result ≡ length d) × (input.new ≡ d ++ drop (length d) input.old) }
{
    let mut done = 0;
    for g in segment::entries_in(s, part) {
        let got = gather(object, g, input, done);
        done += got;
        if (got as u64) < g.size {
            break;
        }
    }
    done
}

// The ranges are filled in order from the front of the command data.
#[tactic(auto, using(crate::proofs::Scattering::scattering), unfolding(rules::specs::Ranges::total, rules::specs::Object::scattered))]
fn scatter_list(s: &[u8], part: Part, payload: &[u8], slice: &mut [u8])
    requires within { part.at + part.size ≤ length s.now }
    requires supplied { total (entries_from (part.size / 16) s.now part.at) ≤ length payload.now }
    requires room { reach 0 (entries_from (part.size / 16) s.now part.at) ≤ length slice.old }
    ensures { slice.new ≡ scattered slice.old (entries_from (part.size / 16) s.now part.at) payload.now }
{
    let mut rest = payload;
    for g in segment::entries_in(s, part) {
        let size = g.size as usize;
        movers::copy(rest, 0, size, slice, g.start as usize);
        rest = &rest[size..];
    }
}

// ---- a command's ranges, with a list or without

// The range of a command without a list.
pub fn sole_range(said: Parsed) -> Range
    ensures { result ≡ sole said }
{
    Range {
        start: said.start,
        size: said.size,
    }
}

// The ranges' bytes, from Data-In's start on; the answer is how many they are.
#[tactic(auto, using(crate::proofs::Ranges::reading), unfolding(rules::specs::Bytes::any, rules::specs::Ranges::total))]
pub fn gather_ranges(
    segment: &[u8],
    said: Parsed,
    slice: &[u8],
    logical: usize,
    input: &mut [u8],
) -> usize
    requires { ForRead segment.now said logical (length slice.now) (length input.old) }
    ensures { let d = gathered (take logical slice.now) (ranges_in segment.now said) in
        (result ≡ length d) × (input.new ≡ d ++ drop (length d) input.old) }
{
    let object = &slice[..logical];
    match said.found.list {
        None => gather(object, sole_range(said), input, 0),
        Some(part) => gather_list(segment, part, object, input),
    }
}

// The gap made zero, and the ranges filled from the command data, which stand in Data-Out behind the segment.
#[tactic(auto, using(crate::proofs::Ranges::writing), unfolding(rules::specs::Ranges::total))]
pub fn scatter_ranges(
    segment: &[u8],
    said: Parsed,
    logical: usize,
    raised: usize,
    out: &[u8],
    slice: &mut [u8],
)
    requires { ForWrite segment.now said logical raised (length out.now) (length slice.old) }
    ensures { slice.new ≡ scattered (grown logical raised slice.old)
        (ranges_in segment.now said) (drop said.segment out.now) }
{
    let payload = &out[said.segment..];
    match said.found.list {
        None => write_range(slice, logical, sole_range(said), payload),
        Some(part) => {
            grow(slice, logical, raised);
            scatter_list(segment, part, payload, slice);
        }
    }
}

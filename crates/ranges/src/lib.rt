// Ranges, as a host gives them, two slices of offsets and lengths, or as a list has them, entries where they stand in the segment:
// their sum, whether two share a position, whether one starts beyond a length, and how far they reach. Nothing here knows of a
// command: a caller says where the list lies. No sum wraps: 64 lengths can pass 2^64, and so can the end of a single range.

#![tactic(auto)]

ghost use Rattle.std.specs.Prelude.{◌≡◌, List, ℕ, ◌≤◌, ◌<◌, ◌+◌, ◌*◌, ◌/◌, length, take, drop, get_or};
ghost use Rattle.rules.specs.Bytes.{any};
ghost use Rattle.rules.specs.Ranges.{total, meet, overlapping, reach};
ghost use Rattle.rules.specs.Writer.{paired};
ghost use Rattle.rules.specs.Segment.{entries_from};
ghost use Rattle.segment.specs.Lying.{ListIn};
ghost use Rattle.segment.specs.Left.{entries_left};
ghost use Rattle.ranges.specs.Sums.{summed};
ghost use Rattle.ranges.specs.Asked.{fault_in, beyond_in};
ghost use Rattle.ranges.specs.Reached.{within, lifted};

use rules::{Part, Range};

// An end can pass 2^64, so the distance of the starts is compared with the size of the range that starts first.
#[tactic(auto, unfolding(rules::specs::Ranges::meet))]
fn share(g: Range, h: Range) -> bool
    ensures { result ≡ meet g h }
{
    if g.start <= h.start {
        h.size != 0 && h.start - g.start < g.size
    } else {
        g.size != 0 && g.start - h.start < h.size
    }
}

// ---- two slices of numbers

// The sum of the first n lengths, where 64 bits hold it. The offsets beside them don't matter.
#[tactic(auto, using(crate::proofs::Sums::summing), unfolding(crate::specs::Sums::summed))]
pub fn sum_of(lengths: &[u64], n: usize) -> Option<u64>
    requires { n ≤ length lengths.now }
    ensures { (offsets : List ℕ) → length offsets ≡ n → result ≡ summed (total (paired offsets (take n lengths.now))) }
{
    let mut sum: u64 = 0;
    for more in &lengths[..n] {
        sum = sum.checked_add(*more)?;
    }
    Some(sum)
}

// Whether g shares a position with one of the ranges.
fn shares_one(g: Range, offsets: &[u64], lengths: &[u64]) -> bool
    ensures { result ≡ any (meet g) (paired offsets.now lengths.now) }
{
    offsets
        .iter()
        .zip(lengths)
        .any(|(&start, &size)| share(g, Range { start, size }))
}

// Whether two of the first n ranges share a position. Never in line: within a whole command's code its loop takes up to 1.4
// of the time.
#[tactic(auto, using(crate::proofs::Meetings::overlaps))]
#[inline(never)]
pub fn overlap(offsets: &[u64], lengths: &[u64], n: usize) -> bool
    requires { (n ≤ length offsets.now) × (n ≤ length lengths.now) }
    ensures { result ≡ overlapping (paired (take n offsets.now) (take n lengths.now)) }
{
    for i in 0..n {
        let g = Range {
            start: offsets[i],
            size: lengths[i],
        };
        if shares_one(g, &offsets[i + 1..n], &lengths[i + 1..n]) {
            return true;
        }
    }
    false
}

// ---- a list's entries where they stand

// The sum of the entries' lengths, where 64 bits hold it.
#[tactic(auto, unfolding(crate::specs::Sums::summed, rules::specs::Ranges::total))]
fn sum_in(s: &[u8], part: Part) -> Option<u64>
    requires { ListIn s.now part }
    ensures { result ≡ summed (total (entries_from (part.size / 16) s.now part.at)) }
{
    let mut sum: u64 = 0;
    for g in segment::entries_in(s, part) {
        sum = sum.checked_add(g.size)?;
    }
    Some(sum)
}

// Whether two of the nonempty entries share a position. They are held against one another as two slices: to read an entry anew for
// each other one takes WRITE half as long again. Fewer than two cannot share one.
#[tactic(auto, using(crate::proofs::Loading::loading))]
fn overlap_in(s: &[u8], part: Part) -> bool
    requires { ListIn s.now part }
    ensures { result ≡ overlapping (entries_from (part.size / 16) s.now part.at) }
{
    let count = part.size / 16;
    if count < 2 {
        return false;
    }
    let mut offsets = [0; 64];
    let mut lengths = [0; 64];
    for (i, g) in segment::entries_in(s, part).enumerate() {
        offsets[i] = g.start;
        lengths[i] = g.size;
    }
    overlap(&offsets, &lengths, count)
}

// Row 10, of a list: the lengths don't sum to `size`, or two entries share a position where they must not.
#[tactic(auto, unfolding(crate::specs::Asked::fault_in, crate::specs::Sums::summed))]
pub fn is_list_fault(s: &[u8], part: Part, size: u64, apart: bool) -> bool
    requires { ListIn s.now part }
    ensures { result ≡ fault_in (entries_from (part.size / 16) s.now part.at) size apart }
{
    sum_in(s, part) != Some(size) || apart && overlap_in(s, part)
}

// Row 12, of a list: whether an entry starts above the logical length.
pub fn starts_beyond_in(s: &[u8], part: Part, logical: u64) -> bool
    requires { ListIn s.now part }
    ensures { result ≡ beyond_in (entries_from (part.size / 16) s.now part.at) logical }
{
    segment::entries_in(s, part).any(|g| logical < g.start)
}

// ---- how far ranges reach

// The reach with one range more, where the limit has room for it. An end that 64 bits can't hold lies past any limit.
#[tactic(auto, unfolding(crate::specs::Reached::within, crate::specs::Reached::lifted))]
pub fn reach_more(reached: usize, range: Range, limit: usize) -> Option<usize>
    requires { reached ≤ limit }
    ensures { result ≡ within limit (lifted reached range) }
{
    if range.size == 0 {
        return Some(reached);
    }
    let end = range.start.checked_add(range.size)?;
    if (limit as u64) < end {
        return None;
    }
    Some(reached.max(end as usize))
}

// How far a list's entries reach, from a length that is reached already.
#[tactic(auto, using(crate::proofs::Reaches::reaching), unfolding(crate::specs::Reached::within))]
pub fn reach_in(s: &[u8], part: Part, reached: usize, limit: usize) -> Option<usize>
    requires { (reached ≤ limit) × ListIn s.now part }
    ensures { result ≡ within limit (reach reached (entries_from (part.size / 16) s.now part.at)) }
{
    let mut top = reached;
    for g in segment::entries_in(s, part) {
        top = reach_more(top, g, limit)?;
    }
    Some(top)
}

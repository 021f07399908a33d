// One capability, 104 bytes: whether it matches a command, what range it allows, and whether a range lies inside that.

#![tactic(auto)]

ghost use Rattle.std.specs.Prelude.{◌≡◌, ◌≤◌, ◌+◌, ◌^◌, leb, length};
ghost use Rattle.rules.specs.Capability.{permits, for_user_object, names, tagged, current, inside};
ghost use Rattle.capability.specs.Terms.{holder, meets};
ghost use Rattle.capability.specs.Allowance.{allowance, inside_of};
ghost use Rattle.capability.specs.Sought.{sought_by};

use header::Parsed;
use rules::{Range, Record, Verb};

// What a capability is held against: the verb and the IDs of a command, the tag and the epoch of a record.
#[derive(Clone, Copy)]
pub struct Sought {
    pub verb: Verb,
    pub partition: u64,
    pub object: u64,
    pub tag: u32,
    pub epoch: u16,
}

// A capability where it stands, with whatever stands behind it.
#[derive(Clone, Copy)]
struct Terms<'a> {
    bytes: &'a [u8],
    ghost whole: { 104 ≤ length bytes.now },
}

impl<'a> Terms<'a> {
    #[tactic(auto, unfolding(rules::specs::Capability::permits))]
    fn permit(self, verb: Verb) -> bool
        ensures { result ≡ permits verb self.entry.bytes.now }
    {
        let permissions = self.bytes[49];
        match verb {
            Verb::Read => permissions / 128 % 2 == 1,
            Verb::Write | Verb::Clear | Verb::Punch => permissions / 64 % 2 == 1,
        }
    }

    #[tactic(auto, unfolding(rules::specs::Capability::for_user_object))]
    fn are_for_user_object(self) -> bool
        ensures { result ≡ for_user_object self.entry.bytes.now }
    {
        self.bytes[48] == 0x80 && self.bytes[55] / 16 == 1
    }

    #[tactic(auto, unfolding(rules::specs::Capability::names))]
    fn name(self, partition: u64, object: u64) -> bool
        ensures { result ≡ names partition object self.entry.bytes.now }
    {
        let allowed_partition = wire::get64(self.bytes, 72);
        let allowed_object = wire::get64(self.bytes, 80);
        allowed_partition != 0
            && allowed_object != 0
            && allowed_partition == partition
            && allowed_object == object
    }

    #[tactic(auto, unfolding(rules::specs::Capability::tagged))]
    fn have_tag(self, by: Sought) -> bool
        ensures { result ≡ tagged (holder by) self.entry.bytes.now }
    {
        let tag = wire::get32(self.bytes, 60);
        tag == 0 || tag == by.tag
    }

    #[tactic(auto, unfolding(rules::specs::Capability::current))]
    fn are_current(self, by: Sought) -> bool
        ensures { result ≡ current (holder by) self.entry.bytes.now }
    {
        let epoch = wire::get16(self.bytes, 64);
        epoch == 0 || by.epoch == 0 || epoch == by.epoch
    }
}

// Whether a capability matches what is sought.
#[tactic(auto, unfolding(crate::specs::Terms::meets, rules::specs::Capability::matches))]
pub fn is_match(k: &[u8], by: Sought) -> bool
    requires { 104 ≤ length k.now }
    ensures { result ≡ meets by k.now }
{
    let terms = Terms { bytes: k };
    terms.are_for_user_object()
        && terms.permit(by.verb)
        && terms.name(by.partition, by.object)
        && terms.have_tag(by)
        && terms.are_current(by)
}

// ---- the range that it allows

// Whether a range ends at or below 2^64.
fn ends_in_range(start: u64, size: u64) -> bool
    ensures { result ≡ leb (start + size) (2 ^ 64) }
{
    size == 0 || size - 1 <= u64::MAX - start
}

// Whether a range that starts at or above `from` ends at or below `from + allowed`.
fn ends_inside(start: u64, size: u64, from: u64, allowed: u64) -> bool
    requires { from ≤ start }
    ensures { result ≡ leb (start + size) (from + allowed) }
{
    let skipped = start - from;
    skipped <= allowed && size <= allowed - skipped
}

// The start and the length that a capability allows.
#[tactic(auto, unfolding(crate::specs::Allowance::allowance))]
pub fn allowance_of(k: &[u8]) -> Range
    requires { 104 ≤ length k.now }
    ensures { result ≡ allowance k.now }
{
    Range {
        start: wire::get64(k, 96),
        size: wire::get64(k, 88),
    }
}

// Whether a range lies inside an allowance. Ends are compared by what is left, so that no sum can wrap.
#[tactic(auto, unfolding(crate::specs::Allowance::inside_of))]
pub fn is_allowed(g: Range, w: Range) -> bool
    ensures { result ≡ inside_of g w }
{
    if g.start < w.start {
        return false;
    }
    if w.size == u64::MAX {
        return ends_in_range(g.start, g.size);
    }
    ends_inside(g.start, g.size, w.start, w.size)
}

// Whether a range lies inside a capability.
#[tactic(auto, using(crate::proofs::Allowance::inside_told))]
pub fn is_inside(k: &[u8], g: Range) -> bool
    requires { 104 ≤ length k.now }
    ensures { result ≡ inside g k.now }
{
    is_allowed(g, allowance_of(k))
}

// ---- what it is held against

// What the capabilities of a command are held against.
pub fn sought_by(said: Parsed, on: Record) -> Sought
    ensures { result ≡ sought_by said on }
{
    Sought {
        verb: said.verb,
        partition: said.partition,
        object: said.object,
        tag: on.tag,
        epoch: on.epoch,
    }
}

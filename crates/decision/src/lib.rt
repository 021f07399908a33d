// The decision: which row of the table refuses a call, or what is to be carried out. It has no side effect: it sees the
// lengths of what is lent, and none of the bytes of the object or of Data-In.

#![tactic(auto)]

ghost use Rattle.std.specs.Prelude.{◌≡◌, ◌≤◌, ◌&&◌, not, eqb, is_some, Some};
ghost use Rattle.rules.specs.Ranges.{reach};
ghost use Rattle.rules.specs.declared.Part.{Part};
ghost use Rattle.segment.specs.Lying.{ListIn};
ghost use Rattle.ranges.specs.Asked.{beyond_in};
ghost use Rattle.ranges.specs.Reached.{within};
ghost use Rattle.header.specs.Reading.{command};
ghost use Rattle.header.specs.Ranges.{ranges_in};
ghost use Rattle.decision.specs.Decisions.{fault_at, room_for, reads, writes, clears, punches, decision_of, room};

use header::Parsed;
use rules::{Range, Record, Refusal, Verb};

// What is to be done with a call that no row refuses. WRITE and CLEAR come with the logical length that they leave.
#[derive(Clone, Copy)]
pub enum Action {
    Read(Parsed),
    Write(Parsed, usize),
    Clear(Parsed, usize),
    Punch(Parsed),
}

// A command that was read, with its segment, in which its list lies.
#[derive(Clone, Copy)]
struct Command<'a> {
    segment: &'a [u8],
    said: Parsed,
    ghost listed: { (d : Part) → said.found.list ≡ Some d → ListIn segment.now d },
}

impl<'a> Command<'a> {
    // Row 9.
    fn has_wrong_start(self) -> bool
        ensures { result ≡ (is_some self.entry.said.found.list && not (eqb self.entry.said.start 0)) }
    {
        self.said.found.list.is_some() && self.said.start != 0
    }

    // Row 10.
    fn has_fault(self) -> bool
        ensures { result ≡ fault_at self.entry.said.found.list self.entry.segment.now self.entry.said }
    {
        match self.said.found.list {
            None => false,
            Some(part) => ranges::is_list_fault(
                self.segment,
                part,
                self.said.size,
                self.said.verb == Verb::Write,
            ),
        }
    }

    // Row 12's test.
    #[tactic(auto, unfolding(header::specs::Ranges::ranges_in, ranges::specs::Asked::beyond_in, rules::specs::Bytes::any))]
    fn starts_beyond(self, logical: u64) -> bool
        ensures { result ≡ beyond_in (ranges_in self.entry.segment.now self.entry.said) logical }
    {
        match self.said.found.list {
            None => logical < self.said.start,
            Some(part) => ranges::starts_beyond_in(self.segment, part, logical),
        }
    }

    #[tactic(auto, unfolding(header::specs::Ranges::ranges_in, ranges::specs::Reached::lifted, rules::specs::Ranges::reach))]
    fn reach(self, reached: usize, limit: usize) -> Option<usize>
        requires { reached ≤ limit }
        ensures { result ≡ within limit (reach reached (ranges_in self.entry.segment.now self.entry.said)) }
    {
        let Parsed { start, size, .. } = self.said;
        match self.said.found.list {
            None => ranges::reach_more(reached, Range { start, size }, limit),
            Some(part) => ranges::reach_in(self.segment, part, reached, limit),
        }
    }

    // Row 14: the logical length that WRITE or CLEAR leaves, where there is room for it.
    #[tactic(auto, unfolding(crate::specs::Decisions::room_for, ranges::specs::Reached::within))]
    fn room(self, on: Record, slice: usize) -> Option<usize>
        requires { on.length ≤ slice }
        ensures { result ≡ room_for on.length on.maximum slice (reach on.length (ranges_in self.entry.segment.now self.entry.said)) }
    {
        let raised = self.reach(on.length as usize, slice)?;
        if on.length < raised as u64 && on.maximum < raised as u64 {
            return None;
        }
        Some(raised)
    }

    // Rows 12 to 14, verb by verb. Always in line: the answer that a call hands back is made blank in memory first, for every
    // command, also for one that an earlier row refuses.
    #[tactic(auto, unfolding(crate::specs::Decisions::reads))]
    #[inline(always)]
    fn read(self, on: Record, input: usize) -> Result<Action, Refusal>
        ensures { result ≡ reads self.entry.segment.now self.entry.said on.length input }
    {
        if self.starts_beyond(on.length) {
            return Err(Refusal::StartsBeyond);
        }
        if (input as u64) < self.said.size {
            return Err(Refusal::BufferShort);
        }
        Ok(Action::Read(self.said))
    }

    #[tactic(auto, unfolding(crate::specs::Decisions::writes))]
    #[inline(always)]
    fn write(self, on: Record, slice: usize, supplied: usize) -> Result<Action, Refusal>
        requires { on.length ≤ slice }
        ensures { result ≡ writes self.entry.segment.now self.entry.said on slice supplied }
    {
        if (supplied as u64) < self.said.size {
            return Err(Refusal::BufferShort);
        }
        let raised = self.room(on, slice).ok_or(Refusal::NoRoom)?;
        Ok(Action::Write(self.said, raised))
    }

    #[tactic(auto, unfolding(crate::specs::Decisions::clears))]
    #[inline(always)]
    fn clear(self, on: Record, slice: usize) -> Result<Action, Refusal>
        requires { on.length ≤ slice }
        ensures { result ≡ clears self.entry.segment.now self.entry.said on slice }
    {
        let raised = self.room(on, slice).ok_or(Refusal::NoRoom)?;
        Ok(Action::Clear(self.said, raised))
    }

    #[tactic(auto, unfolding(crate::specs::Decisions::punches))]
    #[inline(always)]
    fn punch(self, on: Record) -> Result<Action, Refusal>
        ensures { result ≡ punches self.entry.segment.now self.entry.said on.length }
    {
        if self.starts_beyond(on.length) {
            return Err(Refusal::StartsBeyond);
        }
        Ok(Action::Punch(self.said))
    }
}

// Which row refuses the call, the first that does, or what is to be carried out.
#[tactic(auto, using(crate::proofs::Table::slice_over, crate::proofs::Table::length_over, crate::proofs::Table::not_let_in_of))]
pub fn decide(
    cdb: &[u8],
    out: &[u8],
    on: Record,
    slice: usize,
    input: usize,
) -> Result<Action, Refusal>
    ensures { result ≡ decision_of (command cdb.now out.now on) (room slice input) }
{
    if 16777216 < slice || (slice as u64) < on.length {
        return Err(Refusal::ObjectUnfit);
    }
    let said = header::read_command(cdb, out, on)?;
    let command = Command {
        segment: &out[0..said.segment],
        said,
    };
    if command.has_wrong_start() {
        return Err(Refusal::ListWithStart);
    }
    if command.has_fault() {
        return Err(Refusal::ListFault);
    }
    if !admission::is_admitted(cdb, out, said, on) {
        return Err(Refusal::NotAdmitted);
    }
    match said.verb {
        Verb::Read => command.read(on, input),
        Verb::Write => command.write(on, slice, out.len() - said.segment),
        Verb::Clear => command.clear(on, slice),
        Verb::Punch => command.punch(on),
    }
}

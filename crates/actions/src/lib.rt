// The actions: what each verb does when it is carried out, and what it tells. What could hinder one stands in its `requires`, so
// none can fail.

#![tactic(auto)]

ghost use Rattle.std.specs.Prelude.{◌≡◌, cond, [], ◌∷◌, ◌++◌, ◌-◌, ltb, length, take, drop};
ghost use Rattle.rules.specs.Bytes.{zeros};
ghost use Rattle.rules.specs.Object.{gathered, scattered, grown, punched};
ghost use Rattle.rules.specs.declared.Outcome.TheVariants.{Done, Ended};
ghost use Rattle.rules.specs.Answer.{answer, lengthened};
ghost use Rattle.header.specs.Ranges.{ranges_in};
ghost use Rattle.object.specs.Ready.{sole, ForRead, ForWrite};
ghost use Rattle.actions.specs.Ready.{ForClear, ForPunch};

use header::Parsed;
use rules::{Answer, Outcome, Record};

// What a command tells that is carried out whole.
fn done(next: Record, count: u64) -> Answer
    ensures { result ≡ answer Done count «next» }
{
    Answer {
        outcome: Outcome::Done,
        count,
        next,
    }
}

pub fn read(segment: &[u8], said: Parsed, on: Record, slice: &[u8], input: &mut [u8]) -> Answer
    requires { ForRead segment.now said on.length (length slice.now) (length input.old) }
    ensures { let d = gathered (take on.length slice.now) (ranges_in segment.now said) in
        (result ≡ answer (cond (ltb (length d) said.size) Ended Done) (length d) on)
        × (input.new ≡ d ++ drop (length d) input.old) }
{
    let got = object::gather_ranges(segment, said, slice, on.length as usize, input) as u64;
    if got < said.size {
        return Answer {
            outcome: Outcome::Ended,
            count: got,
            next: on,
        };
    }
    done(on, got)
}

pub fn write(
    segment: &[u8],
    said: Parsed,
    on: Record,
    raised: usize,
    out: &[u8],
    slice: &mut [u8],
) -> Answer
    requires { ForWrite segment.now said on.length raised (length out.now) (length slice.old) }
    ensures { (result ≡ answer Done said.size (lengthened on raised))
        × (slice.new ≡ scattered (grown on.length raised slice.old)
        (ranges_in segment.now said) (drop said.segment out.now)) }
{
    object::scatter_ranges(segment, said, on.length as usize, raised, out, slice);
    done(on.with_length(raised as u64), said.size)
}

pub fn clear(said: Parsed, on: Record, raised: usize, slice: &mut [u8]) -> Answer
    requires { ForClear said on.length raised (length slice.old) }
    ensures { (result ≡ answer Done said.size (lengthened on raised))
        × (slice.new ≡ scattered (grown on.length raised slice.old) (sole said ∷ []) (zeros said.size)) }
{
    object::clear_range(slice, on.length as usize, object::sole_range(said));
    done(on.with_length(raised as u64), said.size)
}

pub fn punch(said: Parsed, on: Record, slice: &mut [u8]) -> Answer
    requires { ForPunch said on.length (length slice.old) }
    ensures { let o = punched (sole said) (take on.length slice.old) in
        (result ≡ answer Done (on.length - length o) (lengthened on (length o)))
        × (slice.new ≡ o ++ zeros (on.length - length o) ++ drop on.length slice.old) }
{
    let count = object::punch(slice, on.length as usize, object::sole_range(said)) as u64;
    done(on.shortened(count), count)
}

// The movers of bytes within slices: copy, wipe, move down, each with what every byte is afterwards. No byte is read but those that move, and
// none is written but where one goes. Of no bytes `start` may lie anywhere, as an empty range of a WRITE may.

#![tactic(auto)]

ghost use Rattle.std.specs.Prelude.{◌≡◌, ◌+◌, ◌<◌, ◌≤◌, length};
ghost use Rattle.rules.specs.Bytes.{part, zeros, laid};

#[tactic(auto, using(rules::proofs::Laying::length_part, rules::proofs::Lists::laid_nothing), unfolding(rules::specs::Bytes::laid))]
pub fn copy(from: &[u8], at: usize, n: usize, to: &mut [u8], start: usize)
    requires { (at + n ≤ length from.now) × (0 < n → start + n ≤ length to.old) }
    ensures { to.new ≡ laid start (part at n from.now) to.old }
{
    if n > 0 {
        to[start..start + n].copy_from_slice(&from[at..at + n]);
    }
}

#[tactic(auto, using(rules::proofs::Laying::length_zeros, rules::proofs::Lists::laid_nothing), unfolding(rules::specs::Bytes::laid))]
pub fn wipe(s: &mut [u8], start: usize, n: usize)
    requires { 0 < n → start + n ≤ length s.old }
    ensures { s.new ≡ laid start (zeros n) s.old }
{
    if n > 0 {
        s[start..start + n].fill(0);
    }
}

// how many bytes move at once
const BLOCK: usize = 16384;

// Through a local array, which nothing else can reach. So the compiler sees that all is read before anything is written: it leaves the
// array out and calls the C library's memmove, which the loop of `copy_within` doesn't come to.
#[tactic(auto, using(rules::proofs::Laying::length_part), unfolding(rules::specs::Bytes::laid))]
fn move_block(s: &mut [u8], from: usize, n: usize, to: usize)
    requires { (n ≤ 16384) × (from + n ≤ length s.old) × (to + n ≤ length s.old) }
    ensures { s.new ≡ laid to (part from n s.old) s.old }
{
    let mut block = [0; BLOCK];
    block[..n].copy_from_slice(&s[from..from + n]);
    s[to..to + n].copy_from_slice(&block[..n]);
}

// In place, ascending: a block is read before another is written over it.
#[tactic(auto, using(crate::proofs::Blocks::moving))]
pub fn move_down(s: &mut [u8], from: usize, n: usize, to: usize)
    requires { (to ≤ from) × (from + n ≤ length s.old) }
    ensures { s.new ≡ laid to (part from n s.old) s.old }
{
    for done in (0..n).step_by(BLOCK) {
        move_block(s, from + done, BLOCK.min(n - done), to + done);
    }
}

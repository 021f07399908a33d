// Big-endian numbers in byte slices, read and written.

#![tactic(auto)]

ghost use Rattle.std.specs.Prelude.{◌≡◌, ◌+◌, ◌≤◌, length};
ghost use Rattle.rules.specs.Bytes.{part, field, laid, to_be};

// the N bytes from `at` on
fn bytes_at<const N: usize>(s: &[u8], at: usize) -> [u8; N]
    requires { at + N ≤ length s.now }
    ensures { result ≡ part at N s.now }
{
    let mut bytes = [0; N];
    bytes.copy_from_slice(&s[at..at + N]);
    bytes
}

// N bytes laid over d from `at` on
#[tactic(auto, unfolding(rules::specs::Bytes::laid))]
fn put_bytes<const N: usize>(d: &mut [u8], at: usize, bytes: [u8; N])
    requires { at + N ≤ length d.old }
    ensures { d.new ≡ laid at bytes.entry d.old }
{
    d[at..at + N].copy_from_slice(&bytes);
}

#[tactic(auto, using(crate::proofs::Digits::number_at))]
pub fn get16(s: &[u8], at: usize) -> u16
    requires { at + 2 ≤ length s.now }
    ensures { result ≡ field at 2 s.now }
{
    u16::from_be_bytes(bytes_at(s, at))
}

#[tactic(auto, using(crate::proofs::Digits::number_at))]
pub fn get32(s: &[u8], at: usize) -> u32
    requires { at + 4 ≤ length s.now }
    ensures { result ≡ field at 4 s.now }
{
    u32::from_be_bytes(bytes_at(s, at))
}

#[tactic(auto, using(crate::proofs::Digits::number_at))]
pub fn get64(s: &[u8], at: usize) -> u64
    requires { at + 8 ≤ length s.now }
    ensures { result ≡ field at 8 s.now }
{
    u64::from_be_bytes(bytes_at(s, at))
}

#[tactic(auto, using(crate::proofs::Digits::high_bytes))]
pub fn put32(d: &mut [u8], at: usize, x: u32)
    requires { at + 4 ≤ length d.old }
    ensures { d.new ≡ laid at (to_be 4 x) d.old }
{
    put_bytes(d, at, u32::to_be_bytes(x));
}

#[tactic(auto, using(crate::proofs::Digits::high_bytes))]
pub fn put64(d: &mut [u8], at: usize, x: u64)
    requires { at + 8 ≤ length d.old }
    ensures { d.new ≡ laid at (to_be 8 x) d.old }
{
    put_bytes(d, at, u64::to_be_bytes(x));
}

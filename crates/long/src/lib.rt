// Numbers of 64 bits in eight bytes, as C calls take and give them.
#![tactic(auto)]

ghost use Rattle.std.specs.Prelude.{◌≡◌, ◌++◌, ◌+◌, ◌≤◌, length, take, drop};
ghost use Rattle.long.specs.Long.{long_at, long_bytes};

// A number whose eight bytes are there: it is read with no test.
pub fn long_inside(s: &[u8], at: usize) -> u64
    requires { at + 8 ≤ length s.now }
    ensures { result ≡ long_at s.now at }
{
    u64::from_le_bytes([
        s[at],
        s[at + 1],
        s[at + 2],
        s[at + 3],
        s[at + 4],
        s[at + 5],
        s[at + 6],
        s[at + 7],
    ])
}

// The eight bytes of x from a byte on.
pub fn put_long(s: &mut [u8], at: usize, x: u64)
    requires { at + 8 ≤ length s.old }
    ensures { s.new ≡ take at s.old ++ long_bytes x ++ drop (at + 8) s.old }
{
    s[at..at + 8].copy_from_slice(&x.to_le_bytes());
}

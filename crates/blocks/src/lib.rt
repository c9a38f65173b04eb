// Block files: what a file holds, and the sum of a block.
#![tactic(auto)]

ghost use Rattle.std.specs.Prelude.{◌≡◌, ◌+◌, ◌*◌, ◌%◌, ◌<◌, length};
ghost use Rattle.blocks.specs.Block.{sixteen, sum};

// What a file holds: so many words and rules, and the limit.
#[derive(Clone, Copy, Debug, PartialEq, Eq)]
pub struct Problem {
    pub words: usize,
    pub rules: usize,
    pub limit: u32,
}

// The sixteen-bit number j of a block.
pub fn number_at(b: &[u8], j: usize) -> u16
    requires { 2 * j + 1 < length b.now }
    ensures { result ≡ sixteen b.now j }
{
    u16::from_le_bytes([b[2 * j], b[2 * j + 1]])
}

// The sum of a block's 256 sixteen-bit numbers, wrapping at 65,536, worked out where the bytes stand.
pub fn sum_of(b: &[u8; 512]) -> u16
    ensures { result ≡ sum b.now % 65536 }
{
    (0..256).fold(0u16, |s, j| s.wrapping_add(number_at(b, j)))
}

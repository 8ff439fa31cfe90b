// Numbers that stand in bytes, the lowest byte first. (A function for each width, as std has `from_le_bytes` for each.)
ghost use Rattle.std.specs.Prelude.{◌≡◌, ◌+◌, ◌≤◌, ◌<◌, length};
ghost use Rattle.layout.specs.Bytes.{number_at, u16_at, u32_at};

pub fn u16_at(bytes: &[u8], p: usize) -> usize
    requires { p + 2 ≤ length bytes.now }
    ensures { (result ≡ u16_at bytes.now p) × (result < 0x1_0000) }
{
    u16::from_le_bytes([bytes[p], bytes[p + 1]]) as usize
}

pub fn u32_at(bytes: &[u8], p: usize) -> usize
    requires { p + 4 ≤ length bytes.now }
    ensures { (result ≡ u32_at bytes.now p) × (result < 0x1_0000_0000) }
{
    u32::from_le_bytes([bytes[p], bytes[p + 1], bytes[p + 2], bytes[p + 3]]) as usize
}

pub fn u64_at(bytes: &[u8], p: usize) -> u64
    requires { p + 8 ≤ length bytes.now }
    ensures { result ≡ number_at 8 bytes.now p }
{
    u64::from_le_bytes([
        bytes[p],
        bytes[p + 1],
        bytes[p + 2],
        bytes[p + 3],
        bytes[p + 4],
        bytes[p + 5],
        bytes[p + 6],
        bytes[p + 7],
    ])
}

// Bytes as one number, of which the first is the lowest digit.
ghost use Rattle.std.specs.Prelude.{◌≡◌, ◌<◌, get_or, take};
ghost use Rattle.names.specs.Packed.{packed};
ghost use Rattle.reader.specs.Packed.{first_eight};

// 0 past the end.
fn byte_at(bytes: &[u8], i: usize) -> u64
    ensures { (result ≡ get_or bytes.now i 0) × (result < 256) }
{
    if i < bytes.len() {
        return bytes[i] as u64;
    }
    0
}

/// The first eight bytes as one number, the first the lowest; all of them where there are fewer.
#[tactic(auto, using(crate::proofs::Eight::packed_eight))]
pub fn first_bytes(bytes: &[u8]) -> u64
    ensures { result ≡ packed (take 8 bytes.now) }
{
    byte_at(bytes, 0)
        + byte_at(bytes, 1) * 0x100
        + byte_at(bytes, 2) * 0x1_0000
        + byte_at(bytes, 3) * 0x100_0000
        + byte_at(bytes, 4) * 0x1_0000_0000
        + byte_at(bytes, 5) * 0x100_0000_0000
        + byte_at(bytes, 6) * 0x1_0000_0000_0000
        + byte_at(bytes, 7) * 0x100_0000_0000_0000
}

/// The first eight bytes as one number, the first the lowest; 0 where there are fewer.
#[tactic(auto, unfolding(crate::specs::Packed::first_eight))]
pub fn first_eight(bytes: &[u8]) -> u64
    ensures { result ≡ first_eight bytes.now }
{
    if bytes.len() < 8 {
        return 0;
    }
    first_bytes(bytes)
}

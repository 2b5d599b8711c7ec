//! Numbers as bytes, lowest first.
ghost use Rattle.std.specs.Prelude.{◌≡◌, ◌^◌, ◌<◌, ◌≤◌, ◌↔◌, IsTrue, length};
ghost use Rattle.files.specs.Numbers.{little, spelled};

// The number that the bytes spell.
pub(crate) fn read_number(bytes: &[u8]) -> u64
    requires { length bytes.now ≤ 8 }
    ensures { result ≡ little bytes.now }
{
    let mut all = [0; 8];
    all[..bytes.len()].copy_from_slice(bytes);
    u64::from_le_bytes(all)
}

/// Whether the value takes no more than so many bits.
pub fn has_bits(value: u64, bits: u8) -> bool
    ensures { IsTrue result ↔ (value < 2 ^ bits) }
{
    value
        .checked_shr(u32::from(bits))
        .is_none_or(|high| high == 0)
}

// The number's lowest bytes, as many as the place has.
pub(crate) fn write_number(value: u64, place: &mut [u8])
    requires { length place.old ≤ 8 }
    ensures { place.new ≡ spelled (length place.old) value }
{
    place.copy_from_slice(&value.to_le_bytes()[..place.len()]);
}

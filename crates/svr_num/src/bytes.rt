ghost use Rattle.std.specs.Prelude.{◌≡◌, ◌≤◌, ◌+◌, take, drop, length};
ghost use Rattle.std.specs.List.{slice_range};
ghost use Rattle.std.specs.Int.{to_be_bytes, from_be_bytes, w16, w32, w64};

/// Writes a number big-endian, from the place `at`.
pub fn put_u16(into: &mut [u8], at: usize, number: u16)
    requires { at + 2 ≤ length into.old }
    ensures number { slice_range into.new at (at + 2) ≡ to_be_bytes w16 number }
    ensures before { take at into.new ≡ take at into.old }
    ensures after { drop (at + 2) into.new ≡ drop (at + 2) into.old }
{
    into[at..at + 2].copy_from_slice(&number.to_be_bytes());
}

/// Writes a number big-endian, from the place `at`.
pub fn put_u32(into: &mut [u8], at: usize, number: u32)
    requires { at + 4 ≤ length into.old }
    ensures number { slice_range into.new at (at + 4) ≡ to_be_bytes w32 number }
    ensures before { take at into.new ≡ take at into.old }
    ensures after { drop (at + 4) into.new ≡ drop (at + 4) into.old }
{
    into[at..at + 4].copy_from_slice(&number.to_be_bytes());
}

/// Writes a number big-endian, from the place `at`.
pub fn put_u64(into: &mut [u8], at: usize, number: u64)
    requires { at + 8 ≤ length into.old }
    ensures number { slice_range into.new at (at + 8) ≡ to_be_bytes w64 number }
    ensures before { take at into.new ≡ take at into.old }
    ensures after { drop (at + 8) into.new ≡ drop (at + 8) into.old }
{
    into[at..at + 8].copy_from_slice(&number.to_be_bytes());
}

/// Reads the big-endian number at the place `at`.
pub fn get_u16(bytes: &[u8], at: usize) -> u16
    requires { at + 2 ≤ length bytes.now }
    ensures { result ≡ from_be_bytes w16 (slice_range bytes.now at (at + 2)) }
{
    let mut number = [0; 2];
    number.copy_from_slice(&bytes[at..at + 2]);
    u16::from_be_bytes(number)
}

/// Reads the big-endian number at the place `at`.
pub fn get_u32(bytes: &[u8], at: usize) -> u32
    requires { at + 4 ≤ length bytes.now }
    ensures { result ≡ from_be_bytes w32 (slice_range bytes.now at (at + 4)) }
{
    let mut number = [0; 4];
    number.copy_from_slice(&bytes[at..at + 4]);
    u32::from_be_bytes(number)
}

/// Reads the big-endian number at the place `at`.
pub fn get_u64(bytes: &[u8], at: usize) -> u64
    requires { at + 8 ≤ length bytes.now }
    ensures { result ≡ from_be_bytes w64 (slice_range bytes.now at (at + 8)) }
{
    let mut number = [0; 8];
    number.copy_from_slice(&bytes[at..at + 8]);
    u64::from_be_bytes(number)
}

ghost use Rattle.std.specs.Prelude.{◌≡◌};
ghost use Rattle.std.specs.Int.{w16, w32, w64};
ghost use Rattle.svr_record.specs.Reading.{Gives, bytes_at, number_at};

use crate::fault::RecordFault;

/// The first bytes, so many, and those behind them.
pub(crate) fn front(bytes: &[u8], count: usize) -> Result<(&[u8], &[u8]), RecordFault>
    ensures { Gives (λ x. (x.0.now, x.1.now)) result (bytes_at count bytes.now) }
{
    if bytes.len() < count {
        return Err(RecordFault::NotARecord);
    }
    Ok(bytes.split_at(count))
}

/// The number in the first two bytes, and the bytes behind it.
pub(crate) fn short_number(bytes: &[u8]) -> Result<(u16, &[u8]), RecordFault>
    ensures { Gives (λ x. (x.0, x.1.now)) result (number_at w16 bytes.now) }
{
    if bytes.len() < 2 {
        return Err(RecordFault::NotARecord);
    }
    let (front, rest) = bytes.split_at(2);
    Ok((u16::from_be_bytes([front[0], front[1]]), rest))
}

/// The number in the first four bytes, and the bytes behind it.
pub(crate) fn number(bytes: &[u8]) -> Result<(u32, &[u8]), RecordFault>
    ensures { Gives (λ x. (x.0, x.1.now)) result (number_at w32 bytes.now) }
{
    if bytes.len() < 4 {
        return Err(RecordFault::NotARecord);
    }
    let (front, rest) = bytes.split_at(4);
    let number = u32::from_be_bytes([front[0], front[1], front[2], front[3]]);
    Ok((number, rest))
}

/// The number in the first eight bytes, and the bytes behind it.
pub(crate) fn long_number(bytes: &[u8]) -> Result<(u64, &[u8]), RecordFault>
    ensures { Gives (λ x. (x.0, x.1.now)) result (number_at w64 bytes.now) }
{
    if bytes.len() < 8 {
        return Err(RecordFault::NotARecord);
    }
    let (front, rest) = bytes.split_at(8);
    let number = u64::from_be_bytes([
        front[0], front[1], front[2], front[3], front[4], front[5], front[6], front[7],
    ]);
    Ok((number, rest))
}

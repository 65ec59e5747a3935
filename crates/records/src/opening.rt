// What every record begins with: four length bytes, and the version.
ghost use Rattle.std.specs.Prelude.{◌≡◌, ◌+◌, ◌≤◌, length, drop};
ghost use Rattle.refusal.specs.Rows.{Tells};
ghost use Rattle.records.specs.Openings.{opening_rows};

use refusal::Refusal;

// What stands after the version of a record whose length field is at least `least`.
pub fn after_version(bytes: &[u8], least: usize) -> Result<&[u8], Refusal>
    ensures { Tells (opening_rows least bytes.now) (λ rest. (rest.now ≡ drop 5 bytes.now) × (least ≤ length rest.now + 1)) result }
{
    let Some((size, [version, rest @ ..])) = bytes.split_first_chunk::<4>() else {
        return Err(Refusal::RecordLength);
    };
    let size = u32::from_be_bytes(*size) as usize;
    if size != rest.len() + 1 || size < least {
        return Err(Refusal::RecordLength);
    }
    if *version != 1 {
        return Err(Refusal::Version);
    }
    Ok(rest)
}

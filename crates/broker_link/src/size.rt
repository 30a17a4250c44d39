ghost use Rattle.std.specs.Prelude.{◌≡◌, ◌<◌, ◌^◌};
ghost use Rattle.model.specs.step.Walk.{length_of};

use gate_io::Items;

/// How many bytes a key or a value has. One that is null has none.
pub fn length_of(bytes: &Option<Items<u8>>) -> u64
    ensures value { result ≡ length_of bytes.now }
    ensures bound { result < 2 ^ 63 }
{
    match bytes {
        Some(bytes) => bytes.as_slice().len() as u64,
        None => 0,
    }
}

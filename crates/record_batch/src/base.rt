//! Gives a batch another base offset.
ghost use Rattle.std.specs.Prelude.{◌≡◌, ◌≤◌, ◌-ℤ◌, length};
ghost use Rattle.wire_prim.specs.Behind.{int64_at};
ghost use Rattle.record_batch.specs.Moved.{AreMoved, with_base};

fn put_base(batch: &mut [u8], base: i64)
    requires { 8 ≤ length batch.now }
    ensures bytes { batch.new ≡ with_base base batch.old }
    ensures len { length batch.new ≡ length batch.old }
{
    let (front, _) = batch.split_at_mut(8);
    front.copy_from_slice(&base.to_be_bytes());
}

/// Sets the `baseOffset` of the batch that the bytes begin with. Its rows move by the difference, and its checksum, which
/// is of later bytes, stays right.
pub fn set_base_offset(batch: &mut [u8], base: i64)
    requires { 8 ≤ length batch.now }
    ensures bytes { batch.new ≡ with_base base batch.old }
    ensures len { length batch.new ≡ length batch.old }
    ensures rows { AreMoved (base -ℤ int64_at batch.old) batch.old batch.new }
{
    put_base(batch, base);
}

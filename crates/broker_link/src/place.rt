ghost use Rattle.std.specs.Prelude.{◌≤ℤ◌, pos};

use gate_io::Text;

/// An assigned partition and the offset of the record that is read next there.
#[derive(Debug, Drop)]
pub struct Place {
    pub topic: Text,
    pub partition: i32,
    pub position: i64,
    pub ghost whole: { pos 0 ≤ℤ partition },
    pub ghost low: { pos 0 ≤ℤ position },
}

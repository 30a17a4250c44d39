//! How deep and how many the nodes of a datum are.
ghost use Rattle.std.specs.Prelude.{◌≡◌, suc, IfOk};
ghost use Rattle.avro_value.specs.Judging.{Judges, opened};
ghost use Rattle.avro_value.specs.Judging as judging;

use crate::error::AvroNo;
use crate::limits::MAX_NODES;

/// The number behind a node without parts that holds or doesn't.
pub fn leaf(next: u32, holds: bool) -> Result<u32, AvroNo>
    ensures { Judges result (judging.leaf next holds) }
{
    if next >= MAX_NODES {
        return Err(AvroNo::TooMany);
    }
    if holds {
        Ok(next + 1)
    } else {
        Err(AvroNo::Mismatch(next))
    }
}

/// The levels below a node with parts.
pub fn open(levels: u32, next: u32) -> Result<u32, AvroNo>
    ensures verdict { Judges result (opened levels next) }
    ensures below { IfOk result (λ below. levels ≡ suc below) }
{
    if levels == 0 {
        return Err(AvroNo::TooDeep);
    }
    if next >= MAX_NODES {
        return Err(AvroNo::TooMany);
    }
    Ok(levels - 1)
}

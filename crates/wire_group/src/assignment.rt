//! What a member is given.
ghost use Rattle.std.specs.Prelude.{IfErr, IfOk};
ghost use Rattle.wire_layout.specs.Whole.{IsPlaced, cause_alone};
ghost use Rattle.wire_group.specs.Versioned.{IsVersionedRead, IsVersionedWritten, behind_versioned};
ghost use Rattle.wire_group.specs.Assignment.{assignment, assignment_laid, assignment_row, assignment_row_laid};

use crate::versioned::{read_versioned, read_versioned_placed, write_versioned};
use gate_io::{Items, Text, Want};
use std::alloc::Global;
use wire_layout::{Laid, Put, Refusal, WireNo, decode_nullable_piece, put_nullable_piece};
use wire_prim::{Cursor, PrimNo};

/// The partitions that a member is given (`ConsumerProtocolAssignment`). Its version is 0. `rows` is
/// `assigned_partitions`, `user` is `user_data`.
#[derive(Drop)]
pub struct Assignment {
    pub version: i16,
    pub rows: Items<AssignmentRow>,
    pub user: Option<Items<u8>>,
}

impl Assignment {
    /// Reads it as `read` does. A refusal has its place, which counts from the version.
    pub fn read_placed(alloc: Global, bytes: &[u8]) -> Result<Assignment, Refusal>
        ensures read { IsVersionedRead assignment bytes.now (cause_alone result) }
        ensures place { IfErr result (λ refusal. IsPlaced refusal (behind_versioned assignment.behind bytes.now) bytes.now) }
    {
        read_versioned_placed(alloc, bytes)
    }

    /// Reads it in any version from 0 on. The further bytes of a higher one are left aside, and the version given is 0.
    pub fn read(alloc: Global, bytes: &[u8]) -> Result<Assignment, WireNo>
        ensures { IsVersionedRead assignment bytes.now result }
    {
        read_versioned(alloc, bytes)
    }

    /// Another version than 0 is answered by want.
    pub fn write(&self, alloc: Global) -> Result<Vec<u8>, Want>
        ensures { IfOk result (λ out. IsVersionedWritten assignment self.now out.items) }
    {
        write_versioned(alloc, self)
    }
}

/// Of what stands behind the version.
impl Put for Assignment {
    ghost layout = { assignment };

    fn put(&self, out: &mut Vec<u8>) -> Result<(), Want> {
        if self.version != 0 {
            return Err(Want);
        }
        self.rows.put(out)?;
        put_nullable_piece(out, &self.user)?;
        Ok(())
    }
}

/// Of what stands behind the version.
impl Laid for Assignment {
    fn decode(alloc: Global, cursor: &mut Cursor) -> Result<Assignment, PrimNo> {
        let rows = Items::decode(alloc, cursor)?;
        let user = decode_nullable_piece(alloc, cursor)?;
        Ok(Assignment {
            version: 0,
            rows,
            user,
        })
    }

    ghost laid = { assignment_laid };
}

/// A topic and its partitions (`TopicPartition`). `partition` is `partitions`.
#[derive(Drop)]
pub struct AssignmentRow {
    pub topic: Text,
    pub partition: Items<i32>,
}

impl Put for AssignmentRow {
    ghost layout = { assignment_row };

    fn put(&self, out: &mut Vec<u8>) -> Result<(), Want> {
        self.topic.put(out)?;
        self.partition.put(out)?;
        Ok(())
    }
}

impl Laid for AssignmentRow {
    fn decode(alloc: Global, cursor: &mut Cursor) -> Result<AssignmentRow, PrimNo> {
        let topic = Text::decode(alloc, cursor)?;
        let partition = Items::decode(alloc, cursor)?;
        Ok(AssignmentRow { topic, partition })
    }

    ghost laid = { assignment_row_laid };
}

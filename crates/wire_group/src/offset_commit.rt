//! OffsetCommit, version 2.
ghost use Rattle.std.specs.Prelude.{IfOk};
ghost use Rattle.wire_layout.specs.Whole.{IsRead, IsWritten};
ghost use Rattle.wire_group.specs.OffsetCommit.{offset_commit_request, offset_commit_request_laid, offset_commit_request_row, offset_commit_request_row_laid, offset_commit_request_row_row, offset_commit_request_row_row_laid, offset_commit_response, offset_commit_response_laid, offset_commit_response_row, offset_commit_response_row_laid, offset_commit_response_row_row, offset_commit_response_row_row_laid};

use gate_io::{Items, Text, Want};
use std::alloc::Global;
use wire_layout::{Laid, Message, Put, WireNo, read_whole, write_whole};
use wire_prim::{Cursor, PrimNo};

/// Keeps offsets for a group: `group_id`, `generation_id`, `member_id`, `retention_time_ms` in milliseconds, and `topics` as
/// `rows`.
#[derive(Drop)]
pub struct OffsetCommitRequest {
    pub group: Text,
    pub generation: i32,
    pub member: Text,
    pub retention_ms: i64,
    pub rows: Items<OffsetCommitRequestRow>,
}

impl OffsetCommitRequest {
    /// Reads a body.
    pub fn read(alloc: Global, bytes: &[u8]) -> Result<OffsetCommitRequest, WireNo>
        ensures { IsRead offset_commit_request bytes.now result }
    {
        read_whole(alloc, bytes)
    }

    /// Writes a body.
    pub fn write(&self, alloc: Global) -> Result<Vec<u8>, Want>
        ensures { IfOk result (λ out. IsWritten offset_commit_request 10 self.now out.items) }
    {
        write_whole(alloc, 10, self)
    }
}

impl Put for OffsetCommitRequest {
    ghost layout = { offset_commit_request };

    fn put(&self, out: &mut Vec<u8>) -> Result<(), Want> {
        self.group.put(out)?;
        self.generation.put(out)?;
        self.member.put(out)?;
        self.retention_ms.put(out)?;
        self.rows.put(out)?;
        Ok(())
    }
}

impl Laid for OffsetCommitRequest {
    fn decode(alloc: Global, cursor: &mut Cursor) -> Result<OffsetCommitRequest, PrimNo> {
        let group = Text::decode(alloc, cursor)?;
        let generation = i32::decode(alloc, cursor)?;
        let member = Text::decode(alloc, cursor)?;
        let retention_ms = i64::decode(alloc, cursor)?;
        let rows = Items::decode(alloc, cursor)?;
        Ok(OffsetCommitRequest {
            group,
            generation,
            member,
            retention_ms,
            rows,
        })
    }

    ghost laid = { offset_commit_request_laid };
}

impl Message for OffsetCommitRequest {}

/// A topic (`OffsetCommitRequestTopic`). `rows` is `partitions`.
#[derive(Drop)]
pub struct OffsetCommitRequestRow {
    pub name: Text,
    pub rows: Items<OffsetCommitRequestRowRow>,
}

impl Put for OffsetCommitRequestRow {
    ghost layout = { offset_commit_request_row };

    fn put(&self, out: &mut Vec<u8>) -> Result<(), Want> {
        self.name.put(out)?;
        self.rows.put(out)?;
        Ok(())
    }
}

impl Laid for OffsetCommitRequestRow {
    fn decode(alloc: Global, cursor: &mut Cursor) -> Result<OffsetCommitRequestRow, PrimNo> {
        let name = Text::decode(alloc, cursor)?;
        let rows = Items::decode(alloc, cursor)?;
        Ok(OffsetCommitRequestRow { name, rows })
    }

    ghost laid = { offset_commit_request_row_laid };
}

/// A partition and its offset (`OffsetCommitRequestPartition`). `partition` is `partition_index`, `offset` is
/// `committed_offset`, `metadata` is `committed_metadata`.
#[derive(Drop)]
pub struct OffsetCommitRequestRowRow {
    pub partition: i32,
    pub offset: i64,
    pub metadata: Option<Text>,
}

impl Put for OffsetCommitRequestRowRow {
    ghost layout = { offset_commit_request_row_row };

    fn put(&self, out: &mut Vec<u8>) -> Result<(), Want> {
        self.partition.put(out)?;
        self.offset.put(out)?;
        self.metadata.put(out)?;
        Ok(())
    }
}

impl Laid for OffsetCommitRequestRowRow {
    fn decode(alloc: Global, cursor: &mut Cursor) -> Result<OffsetCommitRequestRowRow, PrimNo> {
        let partition = i32::decode(alloc, cursor)?;
        let offset = i64::decode(alloc, cursor)?;
        let metadata = Option::decode(alloc, cursor)?;
        Ok(OffsetCommitRequestRowRow {
            partition,
            offset,
            metadata,
        })
    }

    ghost laid = { offset_commit_request_row_row_laid };
}

/// Which offsets were kept. `rows` is `topics`.
#[derive(Drop)]
pub struct OffsetCommitResponse {
    pub rows: Items<OffsetCommitResponseRow>,
}

impl OffsetCommitResponse {
    /// Reads a body.
    pub fn read(alloc: Global, bytes: &[u8]) -> Result<OffsetCommitResponse, WireNo>
        ensures { IsRead offset_commit_response bytes.now result }
    {
        read_whole(alloc, bytes)
    }

    /// Writes a body.
    pub fn write(&self, alloc: Global) -> Result<Vec<u8>, Want>
        ensures { IfOk result (λ out. IsWritten offset_commit_response 4 self.now out.items) }
    {
        write_whole(alloc, 4, self)
    }
}

impl Put for OffsetCommitResponse {
    ghost layout = { offset_commit_response };

    fn put(&self, out: &mut Vec<u8>) -> Result<(), Want> {
        self.rows.put(out)?;
        Ok(())
    }
}

impl Laid for OffsetCommitResponse {
    fn decode(alloc: Global, cursor: &mut Cursor) -> Result<OffsetCommitResponse, PrimNo> {
        let rows = Items::decode(alloc, cursor)?;
        Ok(OffsetCommitResponse { rows })
    }

    ghost laid = { offset_commit_response_laid };
}

impl Message for OffsetCommitResponse {}

/// A topic (`OffsetCommitResponseTopic`). `rows` is `partitions`.
#[derive(Drop)]
pub struct OffsetCommitResponseRow {
    pub name: Text,
    pub rows: Items<OffsetCommitResponseRowRow>,
}

impl Put for OffsetCommitResponseRow {
    ghost layout = { offset_commit_response_row };

    fn put(&self, out: &mut Vec<u8>) -> Result<(), Want> {
        self.name.put(out)?;
        self.rows.put(out)?;
        Ok(())
    }
}

impl Laid for OffsetCommitResponseRow {
    fn decode(alloc: Global, cursor: &mut Cursor) -> Result<OffsetCommitResponseRow, PrimNo> {
        let name = Text::decode(alloc, cursor)?;
        let rows = Items::decode(alloc, cursor)?;
        Ok(OffsetCommitResponseRow { name, rows })
    }

    ghost laid = { offset_commit_response_row_laid };
}

/// A partition and its code (`OffsetCommitResponsePartition`). `partition` is `partition_index`, `code` is `error_code`.
#[derive(Drop)]
pub struct OffsetCommitResponseRowRow {
    pub partition: i32,
    pub code: i16,
}

impl Put for OffsetCommitResponseRowRow {
    ghost layout = { offset_commit_response_row_row };

    fn put(&self, out: &mut Vec<u8>) -> Result<(), Want> {
        self.partition.put(out)?;
        self.code.put(out)?;
        Ok(())
    }
}

impl Laid for OffsetCommitResponseRowRow {
    fn decode(alloc: Global, cursor: &mut Cursor) -> Result<OffsetCommitResponseRowRow, PrimNo> {
        let partition = i32::decode(alloc, cursor)?;
        let code = i16::decode(alloc, cursor)?;
        Ok(OffsetCommitResponseRowRow { partition, code })
    }

    ghost laid = { offset_commit_response_row_row_laid };
}

//! SyncGroup, version 0.
ghost use Rattle.std.specs.Prelude.{IfOk};
ghost use Rattle.wire_layout.specs.Whole.{IsRead, IsWritten};
ghost use Rattle.wire_group.specs.SyncGroup.{sync_group_request, sync_group_request_laid, sync_group_request_row, sync_group_request_row_laid, sync_group_response, sync_group_response_laid};

use gate_io::{Items, Text, Want};
use std::alloc::Global;
use wire_layout::{Laid, Message, Put, WireNo, decode_piece, put_piece, read_whole, write_whole};
use wire_prim::{Cursor, PrimNo};

/// A member asks for its share, and the leader gives out the shares: `group_id`, `generation_id`, `member_id`, and
/// `assignments` as `rows`.
#[derive(Drop)]
pub struct SyncGroupRequest {
    pub group: Text,
    pub generation: i32,
    pub member: Text,
    pub rows: Items<SyncGroupRequestRow>,
}

impl SyncGroupRequest {
    /// Reads a body.
    pub fn read(alloc: Global, bytes: &[u8]) -> Result<SyncGroupRequest, WireNo>
        ensures { IsRead sync_group_request bytes.now result }
    {
        read_whole(alloc, bytes)
    }

    /// Writes a body.
    pub fn write(&self, alloc: Global) -> Result<Vec<u8>, Want>
        ensures { IfOk result (λ out. IsWritten sync_group_request 10 self.now out.items) }
    {
        write_whole(alloc, 10, self)
    }
}

impl Put for SyncGroupRequest {
    ghost layout = { sync_group_request };

    fn put(&self, out: &mut Vec<u8>) -> Result<(), Want> {
        self.group.put(out)?;
        self.generation.put(out)?;
        self.member.put(out)?;
        self.rows.put(out)?;
        Ok(())
    }
}

impl Laid for SyncGroupRequest {
    fn decode(alloc: Global, cursor: &mut Cursor) -> Result<SyncGroupRequest, PrimNo> {
        let group = Text::decode(alloc, cursor)?;
        let generation = i32::decode(alloc, cursor)?;
        let member = Text::decode(alloc, cursor)?;
        let rows = Items::decode(alloc, cursor)?;
        Ok(SyncGroupRequest {
            group,
            generation,
            member,
            rows,
        })
    }

    ghost laid = { sync_group_request_laid };
}

impl Message for SyncGroupRequest {}

/// A member's share, an `Assignment` (`SyncGroupRequestAssignment`). `member` is `member_id`.
#[derive(Drop)]
pub struct SyncGroupRequestRow {
    pub member: Text,
    pub assignment: Items<u8>,
}

impl Put for SyncGroupRequestRow {
    ghost layout = { sync_group_request_row };

    fn put(&self, out: &mut Vec<u8>) -> Result<(), Want> {
        self.member.put(out)?;
        put_piece(out, &self.assignment)?;
        Ok(())
    }
}

impl Laid for SyncGroupRequestRow {
    fn decode(alloc: Global, cursor: &mut Cursor) -> Result<SyncGroupRequestRow, PrimNo> {
        let member = Text::decode(alloc, cursor)?;
        let assignment = decode_piece(alloc, cursor)?;
        Ok(SyncGroupRequestRow { member, assignment })
    }

    ghost laid = { sync_group_request_row_laid };
}

/// The member's share, an `Assignment`. `code` is `error_code`.
#[derive(Drop)]
pub struct SyncGroupResponse {
    pub code: i16,
    pub assignment: Items<u8>,
}

impl SyncGroupResponse {
    /// Reads a body.
    pub fn read(alloc: Global, bytes: &[u8]) -> Result<SyncGroupResponse, WireNo>
        ensures { IsRead sync_group_response bytes.now result }
    {
        read_whole(alloc, bytes)
    }

    /// Writes a body.
    pub fn write(&self, alloc: Global) -> Result<Vec<u8>, Want>
        ensures { IfOk result (λ out. IsWritten sync_group_response 4 self.now out.items) }
    {
        write_whole(alloc, 4, self)
    }
}

impl Put for SyncGroupResponse {
    ghost layout = { sync_group_response };

    fn put(&self, out: &mut Vec<u8>) -> Result<(), Want> {
        self.code.put(out)?;
        put_piece(out, &self.assignment)?;
        Ok(())
    }
}

impl Laid for SyncGroupResponse {
    fn decode(alloc: Global, cursor: &mut Cursor) -> Result<SyncGroupResponse, PrimNo> {
        let code = i16::decode(alloc, cursor)?;
        let assignment = decode_piece(alloc, cursor)?;
        Ok(SyncGroupResponse { code, assignment })
    }

    ghost laid = { sync_group_response_laid };
}

impl Message for SyncGroupResponse {}

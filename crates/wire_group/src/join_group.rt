//! JoinGroup, version 2.
ghost use Rattle.std.specs.Prelude.{IfOk};
ghost use Rattle.wire_layout.specs.Whole.{IsRead, IsWritten};
ghost use Rattle.wire_group.specs.JoinGroup.{join_group_request, join_group_request_laid, join_group_request_row, join_group_request_row_laid, join_group_response, join_group_response_laid, join_group_response_row, join_group_response_row_laid};

use gate_io::{Items, Text, Want};
use std::alloc::Global;
use wire_layout::{Laid, Message, Put, WireNo, decode_piece, put_piece, read_whole, write_whole};
use wire_prim::{Cursor, PrimNo};

/// A member joins a group: `group_id`, `session_timeout_ms`, `rebalance_timeout_ms`, `member_id`, `protocol_type`, and
/// `protocols` as `rows`. Times are in milliseconds.
#[derive(Drop)]
pub struct JoinGroupRequest {
    pub group: Text,
    pub session_ms: i32,
    pub rebalance_ms: i32,
    pub member: Text,
    pub protocol_type: Text,
    pub rows: Items<JoinGroupRequestRow>,
}

impl JoinGroupRequest {
    /// Reads a body.
    pub fn read(alloc: Global, bytes: &[u8]) -> Result<JoinGroupRequest, WireNo>
        ensures { IsRead join_group_request bytes.now result }
    {
        read_whole(alloc, bytes)
    }

    /// Writes a body.
    pub fn write(&self, alloc: Global) -> Result<Vec<u8>, Want>
        ensures { IfOk result (λ out. IsWritten join_group_request 10 self.now out.items) }
    {
        write_whole(alloc, 10, self)
    }
}

impl Put for JoinGroupRequest {
    ghost layout = { join_group_request };

    fn put(&self, out: &mut Vec<u8>) -> Result<(), Want> {
        self.group.put(out)?;
        self.session_ms.put(out)?;
        self.rebalance_ms.put(out)?;
        self.member.put(out)?;
        self.protocol_type.put(out)?;
        self.rows.put(out)?;
        Ok(())
    }
}

impl Laid for JoinGroupRequest {
    fn decode(alloc: Global, cursor: &mut Cursor) -> Result<JoinGroupRequest, PrimNo> {
        let group = Text::decode(alloc, cursor)?;
        let session_ms = i32::decode(alloc, cursor)?;
        let rebalance_ms = i32::decode(alloc, cursor)?;
        let member = Text::decode(alloc, cursor)?;
        let protocol_type = Text::decode(alloc, cursor)?;
        let rows = Items::decode(alloc, cursor)?;
        Ok(JoinGroupRequest {
            group,
            session_ms,
            rebalance_ms,
            member,
            protocol_type,
            rows,
        })
    }

    ghost laid = { join_group_request_laid };
}

impl Message for JoinGroupRequest {}

/// A protocol that the member offers, with its `Subscription` (`JoinGroupRequestProtocol`).
#[derive(Drop)]
pub struct JoinGroupRequestRow {
    pub name: Text,
    pub metadata: Items<u8>,
}

impl Put for JoinGroupRequestRow {
    ghost layout = { join_group_request_row };

    fn put(&self, out: &mut Vec<u8>) -> Result<(), Want> {
        self.name.put(out)?;
        put_piece(out, &self.metadata)?;
        Ok(())
    }
}

impl Laid for JoinGroupRequestRow {
    fn decode(alloc: Global, cursor: &mut Cursor) -> Result<JoinGroupRequestRow, PrimNo> {
        let name = Text::decode(alloc, cursor)?;
        let metadata = decode_piece(alloc, cursor)?;
        Ok(JoinGroupRequestRow { name, metadata })
    }

    ghost laid = { join_group_request_row_laid };
}

/// The generation that a member has joined: `throttle_time_ms`, `error_code`, `generation_id`, `protocol_name`, `leader`,
/// `member_id`, and `members` as `rows`.
#[derive(Drop)]
pub struct JoinGroupResponse {
    pub throttle_ms: i32,
    pub code: i16,
    pub generation: i32,
    pub protocol: Text,
    pub leader: Text,
    pub member: Text,
    pub rows: Items<JoinGroupResponseRow>,
}

impl JoinGroupResponse {
    /// Reads a body.
    pub fn read(alloc: Global, bytes: &[u8]) -> Result<JoinGroupResponse, WireNo>
        ensures { IsRead join_group_response bytes.now result }
    {
        read_whole(alloc, bytes)
    }

    /// Writes a body.
    pub fn write(&self, alloc: Global) -> Result<Vec<u8>, Want>
        ensures { IfOk result (λ out. IsWritten join_group_response 4 self.now out.items) }
    {
        write_whole(alloc, 4, self)
    }
}

impl Put for JoinGroupResponse {
    ghost layout = { join_group_response };

    fn put(&self, out: &mut Vec<u8>) -> Result<(), Want> {
        self.throttle_ms.put(out)?;
        self.code.put(out)?;
        self.generation.put(out)?;
        self.protocol.put(out)?;
        self.leader.put(out)?;
        self.member.put(out)?;
        self.rows.put(out)?;
        Ok(())
    }
}

impl Laid for JoinGroupResponse {
    fn decode(alloc: Global, cursor: &mut Cursor) -> Result<JoinGroupResponse, PrimNo> {
        let throttle_ms = i32::decode(alloc, cursor)?;
        let code = i16::decode(alloc, cursor)?;
        let generation = i32::decode(alloc, cursor)?;
        let protocol = Text::decode(alloc, cursor)?;
        let leader = Text::decode(alloc, cursor)?;
        let member = Text::decode(alloc, cursor)?;
        let rows = Items::decode(alloc, cursor)?;
        Ok(JoinGroupResponse {
            throttle_ms,
            code,
            generation,
            protocol,
            leader,
            member,
            rows,
        })
    }

    ghost laid = { join_group_response_laid };
}

impl Message for JoinGroupResponse {}

/// A member, with its `Subscription`, for the leader (`JoinGroupResponseMember`). `member` is `member_id`.
#[derive(Drop)]
pub struct JoinGroupResponseRow {
    pub member: Text,
    pub metadata: Items<u8>,
}

impl Put for JoinGroupResponseRow {
    ghost layout = { join_group_response_row };

    fn put(&self, out: &mut Vec<u8>) -> Result<(), Want> {
        self.member.put(out)?;
        put_piece(out, &self.metadata)?;
        Ok(())
    }
}

impl Laid for JoinGroupResponseRow {
    fn decode(alloc: Global, cursor: &mut Cursor) -> Result<JoinGroupResponseRow, PrimNo> {
        let member = Text::decode(alloc, cursor)?;
        let metadata = decode_piece(alloc, cursor)?;
        Ok(JoinGroupResponseRow { member, metadata })
    }

    ghost laid = { join_group_response_row_laid };
}

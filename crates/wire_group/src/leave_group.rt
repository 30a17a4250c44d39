//! LeaveGroup, version 0.
ghost use Rattle.std.specs.Prelude.{IfOk};
ghost use Rattle.wire_layout.specs.Whole.{IsRead, IsWritten};
ghost use Rattle.wire_group.specs.LeaveGroup.{leave_group_request, leave_group_request_laid, leave_group_response, leave_group_response_laid};

use gate_io::{Text, Want};
use std::alloc::Global;
use wire_layout::{Laid, Message, Put, WireNo, read_whole, write_whole};
use wire_prim::{Cursor, PrimNo};

/// A member leaves its group: `group_id` and `member_id`.
#[derive(Drop)]
pub struct LeaveGroupRequest {
    pub group: Text,
    pub member: Text,
}

impl LeaveGroupRequest {
    /// Reads a body.
    pub fn read(alloc: Global, bytes: &[u8]) -> Result<LeaveGroupRequest, WireNo>
        ensures { IsRead leave_group_request bytes.now result }
    {
        read_whole(alloc, bytes)
    }

    /// Writes a body.
    pub fn write(&self, alloc: Global) -> Result<Vec<u8>, Want>
        ensures { IfOk result (λ out. IsWritten leave_group_request 10 self.now out.items) }
    {
        write_whole(alloc, 10, self)
    }
}

impl Put for LeaveGroupRequest {
    ghost layout = { leave_group_request };

    fn put(&self, out: &mut Vec<u8>) -> Result<(), Want> {
        self.group.put(out)?;
        self.member.put(out)?;
        Ok(())
    }
}

impl Laid for LeaveGroupRequest {
    fn decode(alloc: Global, cursor: &mut Cursor) -> Result<LeaveGroupRequest, PrimNo> {
        let group = Text::decode(alloc, cursor)?;
        let member = Text::decode(alloc, cursor)?;
        Ok(LeaveGroupRequest { group, member })
    }

    ghost laid = { leave_group_request_laid };
}

impl Message for LeaveGroupRequest {}

/// Whether it left. `code` is `error_code`.
#[derive(Drop)]
pub struct LeaveGroupResponse {
    pub code: i16,
}

impl LeaveGroupResponse {
    /// Reads a body.
    pub fn read(alloc: Global, bytes: &[u8]) -> Result<LeaveGroupResponse, WireNo>
        ensures { IsRead leave_group_response bytes.now result }
    {
        read_whole(alloc, bytes)
    }

    /// Writes a body.
    pub fn write(&self, alloc: Global) -> Result<Vec<u8>, Want>
        ensures { IfOk result (λ out. IsWritten leave_group_response 4 self.now out.items) }
    {
        write_whole(alloc, 4, self)
    }
}

impl Put for LeaveGroupResponse {
    ghost layout = { leave_group_response };

    fn put(&self, out: &mut Vec<u8>) -> Result<(), Want> {
        self.code.put(out)?;
        Ok(())
    }
}

impl Laid for LeaveGroupResponse {
    fn decode(alloc: Global, cursor: &mut Cursor) -> Result<LeaveGroupResponse, PrimNo> {
        let code = i16::decode(alloc, cursor)?;
        Ok(LeaveGroupResponse { code })
    }

    ghost laid = { leave_group_response_laid };
}

impl Message for LeaveGroupResponse {}

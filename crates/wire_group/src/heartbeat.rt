//! Heartbeat, version 0.
ghost use Rattle.std.specs.Prelude.{IfOk};
ghost use Rattle.wire_layout.specs.Whole.{IsRead, IsWritten};
ghost use Rattle.wire_group.specs.Heartbeat.{heartbeat_request, heartbeat_request_laid, heartbeat_response, heartbeat_response_laid};

use gate_io::{Text, Want};
use std::alloc::Global;
use wire_layout::{Laid, Message, Put, WireNo, read_whole, write_whole};
use wire_prim::{Cursor, PrimNo};

/// A member's sign of life: `group_id`, `generation_id` and `member_id`.
#[derive(Drop)]
pub struct HeartbeatRequest {
    pub group: Text,
    pub generation: i32,
    pub member: Text,
}

impl HeartbeatRequest {
    /// Reads a body.
    pub fn read(alloc: Global, bytes: &[u8]) -> Result<HeartbeatRequest, WireNo>
        ensures { IsRead heartbeat_request bytes.now result }
    {
        read_whole(alloc, bytes)
    }

    /// Writes a body.
    pub fn write(&self, alloc: Global) -> Result<Vec<u8>, Want>
        ensures { IfOk result (λ out. IsWritten heartbeat_request 10 self.now out.items) }
    {
        write_whole(alloc, 10, self)
    }
}

impl Put for HeartbeatRequest {
    ghost layout = { heartbeat_request };

    fn put(&self, out: &mut Vec<u8>) -> Result<(), Want> {
        self.group.put(out)?;
        self.generation.put(out)?;
        self.member.put(out)?;
        Ok(())
    }
}

impl Laid for HeartbeatRequest {
    fn decode(alloc: Global, cursor: &mut Cursor) -> Result<HeartbeatRequest, PrimNo> {
        let group = Text::decode(alloc, cursor)?;
        let generation = i32::decode(alloc, cursor)?;
        let member = Text::decode(alloc, cursor)?;
        Ok(HeartbeatRequest {
            group,
            generation,
            member,
        })
    }

    ghost laid = { heartbeat_request_laid };
}

impl Message for HeartbeatRequest {}

/// Whether the member still belongs to its group. `code` is `error_code`.
#[derive(Drop)]
pub struct HeartbeatResponse {
    pub code: i16,
}

impl HeartbeatResponse {
    /// Reads a body.
    pub fn read(alloc: Global, bytes: &[u8]) -> Result<HeartbeatResponse, WireNo>
        ensures { IsRead heartbeat_response bytes.now result }
    {
        read_whole(alloc, bytes)
    }

    /// Writes a body.
    pub fn write(&self, alloc: Global) -> Result<Vec<u8>, Want>
        ensures { IfOk result (λ out. IsWritten heartbeat_response 4 self.now out.items) }
    {
        write_whole(alloc, 4, self)
    }
}

impl Put for HeartbeatResponse {
    ghost layout = { heartbeat_response };

    fn put(&self, out: &mut Vec<u8>) -> Result<(), Want> {
        self.code.put(out)?;
        Ok(())
    }
}

impl Laid for HeartbeatResponse {
    fn decode(alloc: Global, cursor: &mut Cursor) -> Result<HeartbeatResponse, PrimNo> {
        let code = i16::decode(alloc, cursor)?;
        Ok(HeartbeatResponse { code })
    }

    ghost laid = { heartbeat_response_laid };
}

impl Message for HeartbeatResponse {}

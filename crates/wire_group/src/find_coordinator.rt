//! FindCoordinator, version 0.
ghost use Rattle.std.specs.Prelude.{IfOk};
ghost use Rattle.wire_layout.specs.Whole.{IsRead, IsWritten};
ghost use Rattle.wire_group.specs.FindCoordinator.{find_coordinator_request, find_coordinator_request_laid, find_coordinator_response, find_coordinator_response_laid};

use gate_io::{Text, Want};
use std::alloc::Global;
use wire_layout::{Laid, Message, Put, WireNo, read_whole, write_whole};
use wire_prim::{Cursor, PrimNo};

/// Asks for the broker that coordinates a group. `group` is `key`.
#[derive(Drop)]
pub struct FindCoordinatorRequest {
    pub group: Text,
}

impl FindCoordinatorRequest {
    /// Reads a body.
    pub fn read(alloc: Global, bytes: &[u8]) -> Result<FindCoordinatorRequest, WireNo>
        ensures { IsRead find_coordinator_request bytes.now result }
    {
        read_whole(alloc, bytes)
    }

    /// Writes a body.
    pub fn write(&self, alloc: Global) -> Result<Vec<u8>, Want>
        ensures { IfOk result (λ out. IsWritten find_coordinator_request 10 self.now out.items) }
    {
        write_whole(alloc, 10, self)
    }
}

impl Put for FindCoordinatorRequest {
    ghost layout = { find_coordinator_request };

    fn put(&self, out: &mut Vec<u8>) -> Result<(), Want> {
        self.group.put(out)?;
        Ok(())
    }
}

impl Laid for FindCoordinatorRequest {
    fn decode(alloc: Global, cursor: &mut Cursor) -> Result<FindCoordinatorRequest, PrimNo> {
        let group = Text::decode(alloc, cursor)?;
        Ok(FindCoordinatorRequest { group })
    }

    ghost laid = { find_coordinator_request_laid };
}

impl Message for FindCoordinatorRequest {}

/// The broker that coordinates a group. `code` is `error_code`, `node` is `node_id`.
#[derive(Drop)]
pub struct FindCoordinatorResponse {
    pub code: i16,
    pub node: i32,
    pub host: Text,
    pub port: i32,
}

impl FindCoordinatorResponse {
    /// Reads a body.
    pub fn read(alloc: Global, bytes: &[u8]) -> Result<FindCoordinatorResponse, WireNo>
        ensures { IsRead find_coordinator_response bytes.now result }
    {
        read_whole(alloc, bytes)
    }

    /// Writes a body.
    pub fn write(&self, alloc: Global) -> Result<Vec<u8>, Want>
        ensures { IfOk result (λ out. IsWritten find_coordinator_response 4 self.now out.items) }
    {
        write_whole(alloc, 4, self)
    }
}

impl Put for FindCoordinatorResponse {
    ghost layout = { find_coordinator_response };

    fn put(&self, out: &mut Vec<u8>) -> Result<(), Want> {
        self.code.put(out)?;
        self.node.put(out)?;
        self.host.put(out)?;
        self.port.put(out)?;
        Ok(())
    }
}

impl Laid for FindCoordinatorResponse {
    fn decode(alloc: Global, cursor: &mut Cursor) -> Result<FindCoordinatorResponse, PrimNo> {
        let code = i16::decode(alloc, cursor)?;
        let node = i32::decode(alloc, cursor)?;
        let host = Text::decode(alloc, cursor)?;
        let port = i32::decode(alloc, cursor)?;
        Ok(FindCoordinatorResponse {
            code,
            node,
            host,
            port,
        })
    }

    ghost laid = { find_coordinator_response_laid };
}

impl Message for FindCoordinatorResponse {}

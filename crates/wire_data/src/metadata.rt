//! Metadata, version 1.
ghost use Rattle.std.specs.Prelude.{IfOk};
ghost use Rattle.wire_layout.specs.Whole.{IsRead, IsWritten};
ghost use Rattle.wire_data.specs.Metadata.{metadata_request, metadata_request_laid, metadata_response_row, metadata_response_row_laid, metadata_response_row2_row, metadata_response_row2_row_laid};

use gate_io::{Items, Text, Want};
use std::alloc::Global;
use wire_layout::{Laid, Message, Put, WireNo, read_whole, write_whole};
use wire_prim::{Cursor, PrimNo};

/// Asks for topics, all of them where it names none. `name` is the names of `topics`.
#[derive(Drop)]
pub struct MetadataRequest {
    pub name: Option<Items<Text>>,
}

impl MetadataRequest {
    /// Reads a body.
    pub fn read(alloc: Global, bytes: &[u8]) -> Result<MetadataRequest, WireNo>
        ensures { IsRead metadata_request bytes.now result }
    {
        read_whole(alloc, bytes)
    }

    /// Writes a body.
    pub fn write(&self, alloc: Global) -> Result<Vec<u8>, Want>
        ensures { IfOk result (λ out. IsWritten metadata_request 10 self.now out.items) }
    {
        write_whole(alloc, 10, self)
    }
}

impl Put for MetadataRequest {
    ghost layout = { metadata_request };

    fn put(&self, out: &mut Vec<u8>) -> Result<(), Want> {
        self.name.put(out)?;
        Ok(())
    }
}

impl Laid for MetadataRequest {
    fn decode(alloc: Global, cursor: &mut Cursor) -> Result<MetadataRequest, PrimNo> {
        let name = Option::decode(alloc, cursor)?;
        Ok(MetadataRequest { name })
    }

    ghost laid = { metadata_request_laid };
}

impl Message for MetadataRequest {}

/// A broker (`MetadataResponseBroker`). `node` is `node_id`.
#[derive(Drop)]
pub struct MetadataResponseRow {
    pub node: i32,
    pub host: Text,
    pub port: i32,
    pub rack: Option<Text>,
}

impl Put for MetadataResponseRow {
    ghost layout = { metadata_response_row };

    fn put(&self, out: &mut Vec<u8>) -> Result<(), Want> {
        self.node.put(out)?;
        self.host.put(out)?;
        self.port.put(out)?;
        self.rack.put(out)?;
        Ok(())
    }
}

impl Laid for MetadataResponseRow {
    fn decode(alloc: Global, cursor: &mut Cursor) -> Result<MetadataResponseRow, PrimNo> {
        let node = i32::decode(alloc, cursor)?;
        let host = Text::decode(alloc, cursor)?;
        let port = i32::decode(alloc, cursor)?;
        let rack = Option::decode(alloc, cursor)?;
        Ok(MetadataResponseRow {
            node,
            host,
            port,
            rack,
        })
    }

    ghost laid = { metadata_response_row_laid };
}

/// A partition (`MetadataResponsePartition`). `code` is `error_code`, `partition` is `partition_index`, `leader` is
/// `leader_id`, `replica` is `replica_nodes`, `in_sync` is `isr_nodes`.
#[derive(Drop)]
pub struct MetadataResponseRow2Row {
    pub code: i16,
    pub partition: i32,
    pub leader: i32,
    pub replica: Items<i32>,
    pub in_sync: Items<i32>,
}

impl Put for MetadataResponseRow2Row {
    ghost layout = { metadata_response_row2_row };

    fn put(&self, out: &mut Vec<u8>) -> Result<(), Want> {
        self.code.put(out)?;
        self.partition.put(out)?;
        self.leader.put(out)?;
        self.replica.put(out)?;
        self.in_sync.put(out)?;
        Ok(())
    }
}

impl Laid for MetadataResponseRow2Row {
    fn decode(alloc: Global, cursor: &mut Cursor) -> Result<MetadataResponseRow2Row, PrimNo> {
        let code = i16::decode(alloc, cursor)?;
        let partition = i32::decode(alloc, cursor)?;
        let leader = i32::decode(alloc, cursor)?;
        let replica = Items::decode(alloc, cursor)?;
        let in_sync = Items::decode(alloc, cursor)?;
        Ok(MetadataResponseRow2Row {
            code,
            partition,
            leader,
            replica,
            in_sync,
        })
    }

    ghost laid = { metadata_response_row2_row_laid };
}

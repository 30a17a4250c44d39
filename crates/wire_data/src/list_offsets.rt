//! ListOffsets, version 1.
ghost use Rattle.std.specs.Prelude.{IfOk};
ghost use Rattle.wire_layout.specs.Whole.{IsRead, IsWritten};
ghost use Rattle.wire_data.specs.ListOffsets.{list_offsets_request, list_offsets_request_laid, list_offsets_request_row, list_offsets_request_row_laid, list_offsets_request_row_row, list_offsets_request_row_row_laid, list_offsets_response, list_offsets_response_laid, list_offsets_response_row, list_offsets_response_row_laid, list_offsets_response_row_row, list_offsets_response_row_row_laid};

use gate_io::{Items, Text, Want};
use std::alloc::Global;
use wire_layout::{Laid, Message, Put, WireNo, read_whole, write_whole};
use wire_prim::{Cursor, PrimNo};

/// Asks for offsets by time. `replica` is `replica_id`, `rows` is `topics`.
#[derive(Drop)]
pub struct ListOffsetsRequest {
    pub replica: i32,
    pub rows: Items<ListOffsetsRequestRow>,
}

impl ListOffsetsRequest {
    /// Reads a body.
    pub fn read(alloc: Global, bytes: &[u8]) -> Result<ListOffsetsRequest, WireNo>
        ensures { IsRead list_offsets_request bytes.now result }
    {
        read_whole(alloc, bytes)
    }

    /// Writes a body.
    pub fn write(&self, alloc: Global) -> Result<Vec<u8>, Want>
        ensures { IfOk result (λ out. IsWritten list_offsets_request 10 self.now out.items) }
    {
        write_whole(alloc, 10, self)
    }
}

impl Put for ListOffsetsRequest {
    ghost layout = { list_offsets_request };

    fn put(&self, out: &mut Vec<u8>) -> Result<(), Want> {
        self.replica.put(out)?;
        self.rows.put(out)?;
        Ok(())
    }
}

impl Laid for ListOffsetsRequest {
    fn decode(alloc: Global, cursor: &mut Cursor) -> Result<ListOffsetsRequest, PrimNo> {
        let replica = i32::decode(alloc, cursor)?;
        let rows = Items::decode(alloc, cursor)?;
        Ok(ListOffsetsRequest { replica, rows })
    }

    ghost laid = { list_offsets_request_laid };
}

impl Message for ListOffsetsRequest {}

/// A topic (`ListOffsetsTopic`). `rows` is `partitions`.
#[derive(Drop)]
pub struct ListOffsetsRequestRow {
    pub name: Text,
    pub rows: Items<ListOffsetsRequestRowRow>,
}

impl Put for ListOffsetsRequestRow {
    ghost layout = { list_offsets_request_row };

    fn put(&self, out: &mut Vec<u8>) -> Result<(), Want> {
        self.name.put(out)?;
        self.rows.put(out)?;
        Ok(())
    }
}

impl Laid for ListOffsetsRequestRow {
    fn decode(alloc: Global, cursor: &mut Cursor) -> Result<ListOffsetsRequestRow, PrimNo> {
        let name = Text::decode(alloc, cursor)?;
        let rows = Items::decode(alloc, cursor)?;
        Ok(ListOffsetsRequestRow { name, rows })
    }

    ghost laid = { list_offsets_request_row_laid };
}

/// A partition and a time in milliseconds (`ListOffsetsPartition`): -1 is its end, -2 its start. `partition` is
/// `partition_index`.
#[derive(Drop)]
pub struct ListOffsetsRequestRowRow {
    pub partition: i32,
    pub timestamp: i64,
}

impl Put for ListOffsetsRequestRowRow {
    ghost layout = { list_offsets_request_row_row };

    fn put(&self, out: &mut Vec<u8>) -> Result<(), Want> {
        self.partition.put(out)?;
        self.timestamp.put(out)?;
        Ok(())
    }
}

impl Laid for ListOffsetsRequestRowRow {
    fn decode(alloc: Global, cursor: &mut Cursor) -> Result<ListOffsetsRequestRowRow, PrimNo> {
        let partition = i32::decode(alloc, cursor)?;
        let timestamp = i64::decode(alloc, cursor)?;
        Ok(ListOffsetsRequestRowRow {
            partition,
            timestamp,
        })
    }

    ghost laid = { list_offsets_request_row_row_laid };
}

/// Offsets by time. `rows` is `topics`.
#[derive(Drop)]
pub struct ListOffsetsResponse {
    pub rows: Items<ListOffsetsResponseRow>,
}

impl ListOffsetsResponse {
    /// Reads a body.
    pub fn read(alloc: Global, bytes: &[u8]) -> Result<ListOffsetsResponse, WireNo>
        ensures { IsRead list_offsets_response bytes.now result }
    {
        read_whole(alloc, bytes)
    }

    /// Writes a body.
    pub fn write(&self, alloc: Global) -> Result<Vec<u8>, Want>
        ensures { IfOk result (λ out. IsWritten list_offsets_response 4 self.now out.items) }
    {
        write_whole(alloc, 4, self)
    }
}

impl Put for ListOffsetsResponse {
    ghost layout = { list_offsets_response };

    fn put(&self, out: &mut Vec<u8>) -> Result<(), Want> {
        self.rows.put(out)?;
        Ok(())
    }
}

impl Laid for ListOffsetsResponse {
    fn decode(alloc: Global, cursor: &mut Cursor) -> Result<ListOffsetsResponse, PrimNo> {
        let rows = Items::decode(alloc, cursor)?;
        Ok(ListOffsetsResponse { rows })
    }

    ghost laid = { list_offsets_response_laid };
}

impl Message for ListOffsetsResponse {}

/// A topic (`ListOffsetsTopicResponse`). `rows` is `partitions`.
#[derive(Drop)]
pub struct ListOffsetsResponseRow {
    pub name: Text,
    pub rows: Items<ListOffsetsResponseRowRow>,
}

impl Put for ListOffsetsResponseRow {
    ghost layout = { list_offsets_response_row };

    fn put(&self, out: &mut Vec<u8>) -> Result<(), Want> {
        self.name.put(out)?;
        self.rows.put(out)?;
        Ok(())
    }
}

impl Laid for ListOffsetsResponseRow {
    fn decode(alloc: Global, cursor: &mut Cursor) -> Result<ListOffsetsResponseRow, PrimNo> {
        let name = Text::decode(alloc, cursor)?;
        let rows = Items::decode(alloc, cursor)?;
        Ok(ListOffsetsResponseRow { name, rows })
    }

    ghost laid = { list_offsets_response_row_laid };
}

/// A partition and its offset (`ListOffsetsPartitionResponse`). `partition` is `partition_index`, `code` is `error_code`.
#[derive(Drop)]
pub struct ListOffsetsResponseRowRow {
    pub partition: i32,
    pub code: i16,
    pub timestamp: i64,
    pub offset: i64,
}

impl Put for ListOffsetsResponseRowRow {
    ghost layout = { list_offsets_response_row_row };

    fn put(&self, out: &mut Vec<u8>) -> Result<(), Want> {
        self.partition.put(out)?;
        self.code.put(out)?;
        self.timestamp.put(out)?;
        self.offset.put(out)?;
        Ok(())
    }
}

impl Laid for ListOffsetsResponseRowRow {
    fn decode(alloc: Global, cursor: &mut Cursor) -> Result<ListOffsetsResponseRowRow, PrimNo> {
        let partition = i32::decode(alloc, cursor)?;
        let code = i16::decode(alloc, cursor)?;
        let timestamp = i64::decode(alloc, cursor)?;
        let offset = i64::decode(alloc, cursor)?;
        Ok(ListOffsetsResponseRowRow {
            partition,
            code,
            timestamp,
            offset,
        })
    }

    ghost laid = { list_offsets_response_row_row_laid };
}

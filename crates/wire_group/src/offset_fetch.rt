//! OffsetFetch, version 1.
ghost use Rattle.std.specs.Prelude.{IfOk};
ghost use Rattle.wire_layout.specs.Whole.{IsRead, IsWritten};
ghost use Rattle.wire_group.specs.OffsetFetch.{offset_fetch_request, offset_fetch_request_laid, offset_fetch_request_row, offset_fetch_request_row_laid, offset_fetch_response, offset_fetch_response_laid, offset_fetch_response_row, offset_fetch_response_row_laid, offset_fetch_response_row_row, offset_fetch_response_row_row_laid};

use gate_io::{Items, Text, Want};
use std::alloc::Global;
use wire_layout::{Laid, Message, Put, WireNo, read_whole, write_whole};
use wire_prim::{Cursor, PrimNo};

/// Asks for the offsets that are kept for a group. `group` is `group_id`, `rows` is `topics`.
#[derive(Drop)]
pub struct OffsetFetchRequest {
    pub group: Text,
    pub rows: Items<OffsetFetchRequestRow>,
}

impl OffsetFetchRequest {
    /// Reads a body.
    pub fn read(alloc: Global, bytes: &[u8]) -> Result<OffsetFetchRequest, WireNo>
        ensures { IsRead offset_fetch_request bytes.now result }
    {
        read_whole(alloc, bytes)
    }

    /// Writes a body.
    pub fn write(&self, alloc: Global) -> Result<Vec<u8>, Want>
        ensures { IfOk result (λ out. IsWritten offset_fetch_request 10 self.now out.items) }
    {
        write_whole(alloc, 10, self)
    }
}

impl Put for OffsetFetchRequest {
    ghost layout = { offset_fetch_request };

    fn put(&self, out: &mut Vec<u8>) -> Result<(), Want> {
        self.group.put(out)?;
        self.rows.put(out)?;
        Ok(())
    }
}

impl Laid for OffsetFetchRequest {
    fn decode(alloc: Global, cursor: &mut Cursor) -> Result<OffsetFetchRequest, PrimNo> {
        let group = Text::decode(alloc, cursor)?;
        let rows = Items::decode(alloc, cursor)?;
        Ok(OffsetFetchRequest { group, rows })
    }

    ghost laid = { offset_fetch_request_laid };
}

impl Message for OffsetFetchRequest {}

/// A topic and its partitions (`OffsetFetchRequestTopic`). `partition` is `partition_indexes`.
#[derive(Drop)]
pub struct OffsetFetchRequestRow {
    pub name: Text,
    pub partition: Items<i32>,
}

impl Put for OffsetFetchRequestRow {
    ghost layout = { offset_fetch_request_row };

    fn put(&self, out: &mut Vec<u8>) -> Result<(), Want> {
        self.name.put(out)?;
        self.partition.put(out)?;
        Ok(())
    }
}

impl Laid for OffsetFetchRequestRow {
    fn decode(alloc: Global, cursor: &mut Cursor) -> Result<OffsetFetchRequestRow, PrimNo> {
        let name = Text::decode(alloc, cursor)?;
        let partition = Items::decode(alloc, cursor)?;
        Ok(OffsetFetchRequestRow { name, partition })
    }

    ghost laid = { offset_fetch_request_row_laid };
}

/// The offsets that are kept. `rows` is `topics`.
#[derive(Drop)]
pub struct OffsetFetchResponse {
    pub rows: Items<OffsetFetchResponseRow>,
}

impl OffsetFetchResponse {
    /// Reads a body.
    pub fn read(alloc: Global, bytes: &[u8]) -> Result<OffsetFetchResponse, WireNo>
        ensures { IsRead offset_fetch_response bytes.now result }
    {
        read_whole(alloc, bytes)
    }

    /// Writes a body.
    pub fn write(&self, alloc: Global) -> Result<Vec<u8>, Want>
        ensures { IfOk result (λ out. IsWritten offset_fetch_response 4 self.now out.items) }
    {
        write_whole(alloc, 4, self)
    }
}

impl Put for OffsetFetchResponse {
    ghost layout = { offset_fetch_response };

    fn put(&self, out: &mut Vec<u8>) -> Result<(), Want> {
        self.rows.put(out)?;
        Ok(())
    }
}

impl Laid for OffsetFetchResponse {
    fn decode(alloc: Global, cursor: &mut Cursor) -> Result<OffsetFetchResponse, PrimNo> {
        let rows = Items::decode(alloc, cursor)?;
        Ok(OffsetFetchResponse { rows })
    }

    ghost laid = { offset_fetch_response_laid };
}

impl Message for OffsetFetchResponse {}

/// A topic (`OffsetFetchResponseTopic`). `rows` is `partitions`.
#[derive(Drop)]
pub struct OffsetFetchResponseRow {
    pub name: Text,
    pub rows: Items<OffsetFetchResponseRowRow>,
}

impl Put for OffsetFetchResponseRow {
    ghost layout = { offset_fetch_response_row };

    fn put(&self, out: &mut Vec<u8>) -> Result<(), Want> {
        self.name.put(out)?;
        self.rows.put(out)?;
        Ok(())
    }
}

impl Laid for OffsetFetchResponseRow {
    fn decode(alloc: Global, cursor: &mut Cursor) -> Result<OffsetFetchResponseRow, PrimNo> {
        let name = Text::decode(alloc, cursor)?;
        let rows = Items::decode(alloc, cursor)?;
        Ok(OffsetFetchResponseRow { name, rows })
    }

    ghost laid = { offset_fetch_response_row_laid };
}

/// A partition and its offset, -1 where none is kept (`OffsetFetchResponsePartition`). `partition` is `partition_index`,
/// `offset` is `committed_offset`, `code` is `error_code`.
#[derive(Drop)]
pub struct OffsetFetchResponseRowRow {
    pub partition: i32,
    pub offset: i64,
    pub metadata: Option<Text>,
    pub code: i16,
}

impl Put for OffsetFetchResponseRowRow {
    ghost layout = { offset_fetch_response_row_row };

    fn put(&self, out: &mut Vec<u8>) -> Result<(), Want> {
        self.partition.put(out)?;
        self.offset.put(out)?;
        self.metadata.put(out)?;
        self.code.put(out)?;
        Ok(())
    }
}

impl Laid for OffsetFetchResponseRowRow {
    fn decode(alloc: Global, cursor: &mut Cursor) -> Result<OffsetFetchResponseRowRow, PrimNo> {
        let partition = i32::decode(alloc, cursor)?;
        let offset = i64::decode(alloc, cursor)?;
        let metadata = Option::decode(alloc, cursor)?;
        let code = i16::decode(alloc, cursor)?;
        Ok(OffsetFetchResponseRowRow {
            partition,
            offset,
            metadata,
            code,
        })
    }

    ghost laid = { offset_fetch_response_row_row_laid };
}

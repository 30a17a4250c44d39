//! Produce, version 3.
ghost use Rattle.std.specs.Prelude.{IfOk};
ghost use Rattle.wire_layout.specs.Whole.{IsRead, IsWritten};
ghost use Rattle.wire_data.specs.Produce.{produce_request, produce_request_laid, produce_request_row, produce_request_row_laid, produce_request_row_row, produce_request_row_row_laid, produce_response, produce_response_laid, produce_response_row, produce_response_row_laid, produce_response_row_row, produce_response_row_row_laid};

use gate_io::{Items, Text, Want};
use std::alloc::Global;
use wire_layout::{
    Laid, Message, Put, WireNo, decode_nullable_piece, put_nullable_piece, read_whole, write_whole,
};
use wire_prim::{Cursor, PrimNo};

/// Appends batches to partitions. `rows` is `topic_data`. The timeout is in milliseconds.
#[derive(Drop)]
pub struct ProduceRequest {
    pub transactional_id: Option<Text>,
    pub acks: i16,
    pub timeout_ms: i32,
    pub rows: Items<ProduceRequestRow>,
}

impl ProduceRequest {
    /// Reads a body.
    pub fn read(alloc: Global, bytes: &[u8]) -> Result<ProduceRequest, WireNo>
        ensures { IsRead produce_request bytes.now result }
    {
        read_whole(alloc, bytes)
    }

    /// Writes a body.
    pub fn write(&self, alloc: Global) -> Result<Vec<u8>, Want>
        ensures { IfOk result (λ out. IsWritten produce_request 10 self.now out.items) }
    {
        write_whole(alloc, 10, self)
    }
}

impl Put for ProduceRequest {
    ghost layout = { produce_request };

    fn put(&self, out: &mut Vec<u8>) -> Result<(), Want> {
        self.transactional_id.put(out)?;
        self.acks.put(out)?;
        self.timeout_ms.put(out)?;
        self.rows.put(out)?;
        Ok(())
    }
}

impl Laid for ProduceRequest {
    fn decode(alloc: Global, cursor: &mut Cursor) -> Result<ProduceRequest, PrimNo> {
        let transactional_id = Option::decode(alloc, cursor)?;
        let acks = i16::decode(alloc, cursor)?;
        let timeout_ms = i32::decode(alloc, cursor)?;
        let rows = Items::decode(alloc, cursor)?;
        Ok(ProduceRequest {
            transactional_id,
            acks,
            timeout_ms,
            rows,
        })
    }

    ghost laid = { produce_request_laid };
}

impl Message for ProduceRequest {}

/// A topic (`TopicProduceData`). `rows` is `partition_data`.
#[derive(Drop)]
pub struct ProduceRequestRow {
    pub name: Text,
    pub rows: Items<ProduceRequestRowRow>,
}

impl Put for ProduceRequestRow {
    ghost layout = { produce_request_row };

    fn put(&self, out: &mut Vec<u8>) -> Result<(), Want> {
        self.name.put(out)?;
        self.rows.put(out)?;
        Ok(())
    }
}

impl Laid for ProduceRequestRow {
    fn decode(alloc: Global, cursor: &mut Cursor) -> Result<ProduceRequestRow, PrimNo> {
        let name = Text::decode(alloc, cursor)?;
        let rows = Items::decode(alloc, cursor)?;
        Ok(ProduceRequestRow { name, rows })
    }

    ghost laid = { produce_request_row_laid };
}

/// A partition and its batches (`PartitionProduceData`). `partition` is `index`, `batch` is `records`.
#[derive(Drop)]
pub struct ProduceRequestRowRow {
    pub partition: i32,
    pub batch: Option<Items<u8>>,
}

impl Put for ProduceRequestRowRow {
    ghost layout = { produce_request_row_row };

    fn put(&self, out: &mut Vec<u8>) -> Result<(), Want> {
        self.partition.put(out)?;
        put_nullable_piece(out, &self.batch)?;
        Ok(())
    }
}

impl Laid for ProduceRequestRowRow {
    fn decode(alloc: Global, cursor: &mut Cursor) -> Result<ProduceRequestRowRow, PrimNo> {
        let partition = i32::decode(alloc, cursor)?;
        let batch = decode_nullable_piece(alloc, cursor)?;
        Ok(ProduceRequestRowRow { partition, batch })
    }

    ghost laid = { produce_request_row_row_laid };
}

/// Where the batches stand. `rows` is `responses`, `throttle_ms` is `throttle_time_ms`, in milliseconds.
#[derive(Drop)]
pub struct ProduceResponse {
    pub rows: Items<ProduceResponseRow>,
    pub throttle_ms: i32,
}

impl ProduceResponse {
    /// Reads a body.
    pub fn read(alloc: Global, bytes: &[u8]) -> Result<ProduceResponse, WireNo>
        ensures { IsRead produce_response bytes.now result }
    {
        read_whole(alloc, bytes)
    }

    /// Writes a body.
    pub fn write(&self, alloc: Global) -> Result<Vec<u8>, Want>
        ensures { IfOk result (λ out. IsWritten produce_response 4 self.now out.items) }
    {
        write_whole(alloc, 4, self)
    }
}

impl Put for ProduceResponse {
    ghost layout = { produce_response };

    fn put(&self, out: &mut Vec<u8>) -> Result<(), Want> {
        self.rows.put(out)?;
        self.throttle_ms.put(out)?;
        Ok(())
    }
}

impl Laid for ProduceResponse {
    fn decode(alloc: Global, cursor: &mut Cursor) -> Result<ProduceResponse, PrimNo> {
        let rows = Items::decode(alloc, cursor)?;
        let throttle_ms = i32::decode(alloc, cursor)?;
        Ok(ProduceResponse { rows, throttle_ms })
    }

    ghost laid = { produce_response_laid };
}

impl Message for ProduceResponse {}

/// A topic (`TopicProduceResponse`). `rows` is `partition_responses`.
#[derive(Drop)]
pub struct ProduceResponseRow {
    pub name: Text,
    pub rows: Items<ProduceResponseRowRow>,
}

impl Put for ProduceResponseRow {
    ghost layout = { produce_response_row };

    fn put(&self, out: &mut Vec<u8>) -> Result<(), Want> {
        self.name.put(out)?;
        self.rows.put(out)?;
        Ok(())
    }
}

impl Laid for ProduceResponseRow {
    fn decode(alloc: Global, cursor: &mut Cursor) -> Result<ProduceResponseRow, PrimNo> {
        let name = Text::decode(alloc, cursor)?;
        let rows = Items::decode(alloc, cursor)?;
        Ok(ProduceResponseRow { name, rows })
    }

    ghost laid = { produce_response_row_laid };
}

/// A partition, and the offset of the first record (`PartitionProduceResponse`). `partition` is `index`, `code` is
/// `error_code`, `append_time` is `log_append_time_ms`.
#[derive(Drop)]
pub struct ProduceResponseRowRow {
    pub partition: i32,
    pub code: i16,
    pub base_offset: i64,
    pub append_time: i64,
}

impl Put for ProduceResponseRowRow {
    ghost layout = { produce_response_row_row };

    fn put(&self, out: &mut Vec<u8>) -> Result<(), Want> {
        self.partition.put(out)?;
        self.code.put(out)?;
        self.base_offset.put(out)?;
        self.append_time.put(out)?;
        Ok(())
    }
}

impl Laid for ProduceResponseRowRow {
    fn decode(alloc: Global, cursor: &mut Cursor) -> Result<ProduceResponseRowRow, PrimNo> {
        let partition = i32::decode(alloc, cursor)?;
        let code = i16::decode(alloc, cursor)?;
        let base_offset = i64::decode(alloc, cursor)?;
        let append_time = i64::decode(alloc, cursor)?;
        Ok(ProduceResponseRowRow {
            partition,
            code,
            base_offset,
            append_time,
        })
    }

    ghost laid = { produce_response_row_row_laid };
}

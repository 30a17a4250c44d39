//! Fetch, version 4.
ghost use Rattle.std.specs.Prelude.{IfOk};
ghost use Rattle.wire_layout.specs.Whole.{IsRead, IsWritten};
ghost use Rattle.wire_data.specs.Fetch.{fetch_request, fetch_request_laid, fetch_request_row, fetch_request_row_laid, fetch_request_row_row, fetch_request_row_row_laid, fetch_response, fetch_response_laid, fetch_response_row, fetch_response_row_laid, fetch_response_row_row, fetch_response_row_row_laid, fetch_response_row_row_row, fetch_response_row_row_row_laid};

use gate_io::{Items, Text, Want};
use std::alloc::Global;
use wire_layout::{
    Laid, Message, Put, WireNo, decode_nullable_piece, put_nullable_piece, read_whole, write_whole,
};
use wire_prim::{Cursor, PrimNo};

/// Asks for batches of partitions. `replica` is `replica_id`, `isolation` is `isolation_level`, `rows` is `topics`. The wait
/// is in milliseconds.
#[derive(Drop)]
pub struct FetchRequest {
    pub replica: i32,
    pub max_wait_ms: i32,
    pub min_bytes: i32,
    pub max_bytes: i32,
    pub isolation: i8,
    pub rows: Items<FetchRequestRow>,
}

impl FetchRequest {
    /// Reads a body.
    pub fn read(alloc: Global, bytes: &[u8]) -> Result<FetchRequest, WireNo>
        ensures { IsRead fetch_request bytes.now result }
    {
        read_whole(alloc, bytes)
    }

    /// Writes a body.
    pub fn write(&self, alloc: Global) -> Result<Vec<u8>, Want>
        ensures { IfOk result (λ out. IsWritten fetch_request 10 self.now out.items) }
    {
        write_whole(alloc, 10, self)
    }
}

impl Put for FetchRequest {
    ghost layout = { fetch_request };

    fn put(&self, out: &mut Vec<u8>) -> Result<(), Want> {
        self.replica.put(out)?;
        self.max_wait_ms.put(out)?;
        self.min_bytes.put(out)?;
        self.max_bytes.put(out)?;
        self.isolation.put(out)?;
        self.rows.put(out)?;
        Ok(())
    }
}

impl Laid for FetchRequest {
    fn decode(alloc: Global, cursor: &mut Cursor) -> Result<FetchRequest, PrimNo> {
        let replica = i32::decode(alloc, cursor)?;
        let max_wait_ms = i32::decode(alloc, cursor)?;
        let min_bytes = i32::decode(alloc, cursor)?;
        let max_bytes = i32::decode(alloc, cursor)?;
        let isolation = i8::decode(alloc, cursor)?;
        let rows = Items::decode(alloc, cursor)?;
        Ok(FetchRequest {
            replica,
            max_wait_ms,
            min_bytes,
            max_bytes,
            isolation,
            rows,
        })
    }

    ghost laid = { fetch_request_laid };
}

impl Message for FetchRequest {}

/// A topic (`FetchTopic`). `name` is `topic`, `rows` is `partitions`.
#[derive(Drop)]
pub struct FetchRequestRow {
    pub name: Text,
    pub rows: Items<FetchRequestRowRow>,
}

impl Put for FetchRequestRow {
    ghost layout = { fetch_request_row };

    fn put(&self, out: &mut Vec<u8>) -> Result<(), Want> {
        self.name.put(out)?;
        self.rows.put(out)?;
        Ok(())
    }
}

impl Laid for FetchRequestRow {
    fn decode(alloc: Global, cursor: &mut Cursor) -> Result<FetchRequestRow, PrimNo> {
        let name = Text::decode(alloc, cursor)?;
        let rows = Items::decode(alloc, cursor)?;
        Ok(FetchRequestRow { name, rows })
    }

    ghost laid = { fetch_request_row_laid };
}

/// A partition, and the offset from which it is asked (`FetchPartition`). `offset` is `fetch_offset`, `max_bytes` is
/// `partition_max_bytes`.
#[derive(Drop)]
pub struct FetchRequestRowRow {
    pub partition: i32,
    pub offset: i64,
    pub max_bytes: i32,
}

impl Put for FetchRequestRowRow {
    ghost layout = { fetch_request_row_row };

    fn put(&self, out: &mut Vec<u8>) -> Result<(), Want> {
        self.partition.put(out)?;
        self.offset.put(out)?;
        self.max_bytes.put(out)?;
        Ok(())
    }
}

impl Laid for FetchRequestRowRow {
    fn decode(alloc: Global, cursor: &mut Cursor) -> Result<FetchRequestRowRow, PrimNo> {
        let partition = i32::decode(alloc, cursor)?;
        let offset = i64::decode(alloc, cursor)?;
        let max_bytes = i32::decode(alloc, cursor)?;
        Ok(FetchRequestRowRow {
            partition,
            offset,
            max_bytes,
        })
    }

    ghost laid = { fetch_request_row_row_laid };
}

/// The batches of partitions. `throttle_ms` is `throttle_time_ms`, in milliseconds, `rows` is `responses`.
#[derive(Drop)]
pub struct FetchResponse {
    pub throttle_ms: i32,
    pub rows: Items<FetchResponseRow>,
}

impl FetchResponse {
    /// Reads a body.
    pub fn read(alloc: Global, bytes: &[u8]) -> Result<FetchResponse, WireNo>
        ensures { IsRead fetch_response bytes.now result }
    {
        read_whole(alloc, bytes)
    }

    /// Writes a body.
    pub fn write(&self, alloc: Global) -> Result<Vec<u8>, Want>
        ensures { IfOk result (λ out. IsWritten fetch_response 4 self.now out.items) }
    {
        write_whole(alloc, 4, self)
    }
}

impl Put for FetchResponse {
    ghost layout = { fetch_response };

    fn put(&self, out: &mut Vec<u8>) -> Result<(), Want> {
        self.throttle_ms.put(out)?;
        self.rows.put(out)?;
        Ok(())
    }
}

impl Laid for FetchResponse {
    fn decode(alloc: Global, cursor: &mut Cursor) -> Result<FetchResponse, PrimNo> {
        let throttle_ms = i32::decode(alloc, cursor)?;
        let rows = Items::decode(alloc, cursor)?;
        Ok(FetchResponse { throttle_ms, rows })
    }

    ghost laid = { fetch_response_laid };
}

impl Message for FetchResponse {}

/// A topic (`FetchableTopicResponse`). `name` is `topic`, `rows` is `partitions`.
#[derive(Drop)]
pub struct FetchResponseRow {
    pub name: Text,
    pub rows: Items<FetchResponseRowRow>,
}

impl Put for FetchResponseRow {
    ghost layout = { fetch_response_row };

    fn put(&self, out: &mut Vec<u8>) -> Result<(), Want> {
        self.name.put(out)?;
        self.rows.put(out)?;
        Ok(())
    }
}

impl Laid for FetchResponseRow {
    fn decode(alloc: Global, cursor: &mut Cursor) -> Result<FetchResponseRow, PrimNo> {
        let name = Text::decode(alloc, cursor)?;
        let rows = Items::decode(alloc, cursor)?;
        Ok(FetchResponseRow { name, rows })
    }

    ghost laid = { fetch_response_row_laid };
}

/// A partition and its batches, of which the last may be cut (`PartitionData`). `partition` is `partition_index`, `code` is
/// `error_code`, `stable_offset` is `last_stable_offset`, `rows` is `aborted_transactions`, `batches` is `records`.
#[derive(Drop)]
pub struct FetchResponseRowRow {
    pub partition: i32,
    pub code: i16,
    pub high_watermark: i64,
    pub stable_offset: i64,
    pub rows: Option<Items<FetchResponseRowRowRow>>,
    pub batches: Option<Items<u8>>,
}

impl Put for FetchResponseRowRow {
    ghost layout = { fetch_response_row_row };

    fn put(&self, out: &mut Vec<u8>) -> Result<(), Want> {
        self.partition.put(out)?;
        self.code.put(out)?;
        self.high_watermark.put(out)?;
        self.stable_offset.put(out)?;
        self.rows.put(out)?;
        put_nullable_piece(out, &self.batches)?;
        Ok(())
    }
}

impl Laid for FetchResponseRowRow {
    fn decode(alloc: Global, cursor: &mut Cursor) -> Result<FetchResponseRowRow, PrimNo> {
        let partition = i32::decode(alloc, cursor)?;
        let code = i16::decode(alloc, cursor)?;
        let high_watermark = i64::decode(alloc, cursor)?;
        let stable_offset = i64::decode(alloc, cursor)?;
        let rows = Option::decode(alloc, cursor)?;
        let batches = decode_nullable_piece(alloc, cursor)?;
        Ok(FetchResponseRowRow {
            partition,
            code,
            high_watermark,
            stable_offset,
            rows,
            batches,
        })
    }

    ghost laid = { fetch_response_row_row_laid };
}

/// A transaction that was aborted (`AbortedTransaction`). `producer` is `producer_id`, `first` is `first_offset`.
#[derive(Drop)]
pub struct FetchResponseRowRowRow {
    pub producer: i64,
    pub first: i64,
}

impl Put for FetchResponseRowRowRow {
    ghost layout = { fetch_response_row_row_row };

    fn put(&self, out: &mut Vec<u8>) -> Result<(), Want> {
        self.producer.put(out)?;
        self.first.put(out)?;
        Ok(())
    }
}

impl Laid for FetchResponseRowRowRow {
    fn decode(alloc: Global, cursor: &mut Cursor) -> Result<FetchResponseRowRowRow, PrimNo> {
        let producer = i64::decode(alloc, cursor)?;
        let first = i64::decode(alloc, cursor)?;
        Ok(FetchResponseRowRowRow { producer, first })
    }

    ghost laid = { fetch_response_row_row_row_laid };
}

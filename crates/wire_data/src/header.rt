//! The headers.
ghost use Rattle.std.specs.Prelude.{IfOk};
ghost use Rattle.wire_layout.specs.Whole.{IsReadInFront, IsWritten};
ghost use Rattle.wire_data.specs.Header.{request_header, request_header_laid, response_header, response_header_laid};

use gate_io::{Text, Want};
use std::alloc::Global;
use wire_layout::{Laid, Message, Put, WireNo, read_front, write_whole};
use wire_prim::{Cursor, PrimNo};

/// What stands before a request's body (request header, version 1): `request_api_key`, `request_api_version`,
/// `correlation_id` and `client_id`.
#[derive(Drop)]
pub struct RequestHeader {
    pub key: i16,
    pub version: i16,
    pub correlation: i32,
    pub client: Option<Text>,
}

impl RequestHeader {
    /// Reads it from the front of a frame without its size, and says how many bytes it took.
    pub fn read(alloc: Global, bytes: &[u8]) -> Result<(RequestHeader, usize), WireNo>
        ensures { IsReadInFront request_header bytes.now result }
    {
        read_front(alloc, bytes)
    }

    /// Writes it.
    pub fn write(&self, alloc: Global) -> Result<Vec<u8>, Want>
        ensures { IfOk result (λ out. IsWritten request_header 0 self.now out.items) }
    {
        write_whole(alloc, 0, self)
    }
}

impl Put for RequestHeader {
    ghost layout = { request_header };

    fn put(&self, out: &mut Vec<u8>) -> Result<(), Want> {
        self.key.put(out)?;
        self.version.put(out)?;
        self.correlation.put(out)?;
        self.client.put(out)?;
        Ok(())
    }
}

impl Laid for RequestHeader {
    fn decode(alloc: Global, cursor: &mut Cursor) -> Result<RequestHeader, PrimNo> {
        let key = i16::decode(alloc, cursor)?;
        let version = i16::decode(alloc, cursor)?;
        let correlation = i32::decode(alloc, cursor)?;
        let client = Option::decode(alloc, cursor)?;
        Ok(RequestHeader {
            key,
            version,
            correlation,
            client,
        })
    }

    ghost laid = { request_header_laid };
}

impl Message for RequestHeader {}

/// What stands before a response's body (response header, version 0): `correlation_id`.
#[derive(Drop)]
pub struct ResponseHeader {
    pub correlation: i32,
}

impl ResponseHeader {
    /// Reads it from the front of a frame without its size, and says how many bytes it took.
    pub fn read(alloc: Global, bytes: &[u8]) -> Result<(ResponseHeader, usize), WireNo>
        ensures { IsReadInFront response_header bytes.now result }
    {
        read_front(alloc, bytes)
    }

    /// Writes it.
    pub fn write(&self, alloc: Global) -> Result<Vec<u8>, Want>
        ensures { IfOk result (λ out. IsWritten response_header 0 self.now out.items) }
    {
        write_whole(alloc, 0, self)
    }
}

impl Put for ResponseHeader {
    ghost layout = { response_header };

    fn put(&self, out: &mut Vec<u8>) -> Result<(), Want> {
        self.correlation.put(out)?;
        Ok(())
    }
}

impl Laid for ResponseHeader {
    fn decode(alloc: Global, cursor: &mut Cursor) -> Result<ResponseHeader, PrimNo> {
        let correlation = i32::decode(alloc, cursor)?;
        Ok(ResponseHeader { correlation })
    }

    ghost laid = { response_header_laid };
}

impl Message for ResponseHeader {}

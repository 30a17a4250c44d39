//! ApiVersions, version 0.
ghost use Rattle.std.specs.Prelude.{IfOk};
ghost use Rattle.wire_layout.specs.Whole.{IsRead, IsWritten};
ghost use Rattle.wire_data.specs.ApiVersions.{api_versions_request, api_versions_request_laid, api_versions_response, api_versions_response_laid, api_versions_response_row, api_versions_response_row_laid};

use gate_io::{Items, Want};
use std::alloc::Global;
use wire_layout::{Laid, Message, Put, WireNo, read_whole, write_whole};
use wire_prim::{Cursor, PrimNo};

/// Asks which versions the broker knows. Its body is empty.
#[derive(Drop)]
pub struct ApiVersionsRequest {}

impl ApiVersionsRequest {
    /// Reads a body.
    pub fn read(alloc: Global, bytes: &[u8]) -> Result<ApiVersionsRequest, WireNo>
        ensures { IsRead api_versions_request bytes.now result }
    {
        read_whole(alloc, bytes)
    }

    /// Writes a body.
    pub fn write(&self, alloc: Global) -> Result<Vec<u8>, Want>
        ensures { IfOk result (λ out. IsWritten api_versions_request 10 self.now out.items) }
    {
        write_whole(alloc, 10, self)
    }
}

impl Put for ApiVersionsRequest {
    ghost layout = { api_versions_request };

    fn put(&self, _out: &mut Vec<u8>) -> Result<(), Want> {
        Ok(())
    }
}

impl Laid for ApiVersionsRequest {
    fn decode(_alloc: Global, _cursor: &mut Cursor) -> Result<ApiVersionsRequest, PrimNo> {
        Ok(ApiVersionsRequest {})
    }

    ghost laid = { api_versions_request_laid };
}

impl Message for ApiVersionsRequest {}

/// The versions that the broker knows: `error_code`, and `api_keys` as `rows`.
#[derive(Drop)]
pub struct ApiVersionsResponse {
    pub code: i16,
    pub rows: Items<ApiVersionsResponseRow>,
}

impl ApiVersionsResponse {
    /// Reads a body.
    pub fn read(alloc: Global, bytes: &[u8]) -> Result<ApiVersionsResponse, WireNo>
        ensures { IsRead api_versions_response bytes.now result }
    {
        read_whole(alloc, bytes)
    }

    /// Writes a body.
    pub fn write(&self, alloc: Global) -> Result<Vec<u8>, Want>
        ensures { IfOk result (λ out. IsWritten api_versions_response 4 self.now out.items) }
    {
        write_whole(alloc, 4, self)
    }
}

impl Put for ApiVersionsResponse {
    ghost layout = { api_versions_response };

    fn put(&self, out: &mut Vec<u8>) -> Result<(), Want> {
        self.code.put(out)?;
        self.rows.put(out)?;
        Ok(())
    }
}

impl Laid for ApiVersionsResponse {
    fn decode(alloc: Global, cursor: &mut Cursor) -> Result<ApiVersionsResponse, PrimNo> {
        let code = i16::decode(alloc, cursor)?;
        let rows = Items::decode(alloc, cursor)?;
        Ok(ApiVersionsResponse { code, rows })
    }

    ghost laid = { api_versions_response_laid };
}

impl Message for ApiVersionsResponse {}

/// The lowest and highest version of a message (`ApiVersion`): `api_key`, `min_version`, `max_version`.
#[derive(Drop)]
pub struct ApiVersionsResponseRow {
    pub key: i16,
    pub min: i16,
    pub max: i16,
}

impl Put for ApiVersionsResponseRow {
    ghost layout = { api_versions_response_row };

    fn put(&self, out: &mut Vec<u8>) -> Result<(), Want> {
        self.key.put(out)?;
        self.min.put(out)?;
        self.max.put(out)?;
        Ok(())
    }
}

impl Laid for ApiVersionsResponseRow {
    fn decode(alloc: Global, cursor: &mut Cursor) -> Result<ApiVersionsResponseRow, PrimNo> {
        let key = i16::decode(alloc, cursor)?;
        let min = i16::decode(alloc, cursor)?;
        let max = i16::decode(alloc, cursor)?;
        Ok(ApiVersionsResponseRow { key, min, max })
    }

    ghost laid = { api_versions_response_row_laid };
}

//! The messages of a broker about topics, their records and versions, and the headers, each both ways.
#![tactic(auto)]

mod api_versions;
mod fetch;
mod header;
mod list_offsets;
mod metadata;
mod metadata_response;
mod produce;

pub use api_versions::{ApiVersionsRequest, ApiVersionsResponse, ApiVersionsResponseRow};
pub use fetch::{
    FetchRequest, FetchRequestRow, FetchRequestRowRow, FetchResponse, FetchResponseRow,
    FetchResponseRowRow, FetchResponseRowRowRow,
};
pub use header::{RequestHeader, ResponseHeader};
pub use list_offsets::{
    ListOffsetsRequest, ListOffsetsRequestRow, ListOffsetsRequestRowRow, ListOffsetsResponse,
    ListOffsetsResponseRow, ListOffsetsResponseRowRow,
};
pub use metadata::{MetadataRequest, MetadataResponseRow, MetadataResponseRow2Row};
pub use metadata_response::{MetadataResponse, MetadataResponseRow2, responses_tell_themselves};
pub use produce::{
    ProduceRequest, ProduceRequestRow, ProduceRequestRowRow, ProduceResponse, ProduceResponseRow,
    ProduceResponseRowRow,
};
pub use wire_layout::WireNo;

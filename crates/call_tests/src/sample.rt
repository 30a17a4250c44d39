//! Requests for tests.

use gate_io::{Items, Text};
use http::Method;
use http_conn::Request;
use std::alloc::{AllocError, Global};
use std::test::Fail;

/// A field's value, or none where it is empty.
fn value_of(alloc: Global, text: &str) -> Result<Option<Items<u8>>, AllocError> {
    if text.is_empty() {
        return Ok(None);
    }
    Ok(Some(Items::from_slice(alloc, text.as_bytes())?))
}

/// A request without a query, in no encoding.
pub(crate) fn request_of(
    alloc: Global,
    method: &str,
    path: &str,
    accept: &str,
    content_type: &str,
    body: &str,
) -> Result<Request, Fail> {
    let method = Method::from_bytes(alloc, method.as_bytes())?;
    let path = Text::from_str(alloc, path)?;
    let query = Text::from_str(alloc, "")?;
    let accept = value_of(alloc, accept)?;
    let content_type = value_of(alloc, content_type)?;
    Ok(Request {
        method,
        path,
        query,
        accept,
        content_type,
        encoded: false,
        close: false,
        expects: false,
        body: Items::from_slice(alloc, body.as_bytes())?,
    })
}

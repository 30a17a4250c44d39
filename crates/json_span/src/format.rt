/// The form in which keys and values of records are written and shown.
#[derive(Clone, Copy, Debug, PartialEq, Eq)]
pub enum Format {
    /// Bytes, in base64.
    Binary,
    /// JSON values as they stand.
    Json,
    /// Data of an Avro schema, in Avro's JSON encoding.
    Avro,
}

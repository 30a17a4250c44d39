use gate_io::Text;

/// A schema's id and its Parsing Canonical Form.
#[derive(Debug, Drop)]
pub struct SchemaRow {
    pub id: u32,
    pub canonical: Text,
}

/// Why a call of a keeper has no answer.
#[derive(Clone, Copy, Debug, PartialEq, Eq)]
pub enum KeepNo {
    /// The keeper failed, and counted it. Whether an `add` had its effect isn't known.
    Fault,
    /// Out of memory. Whether an `add` had its effect isn't known.
    Want,
}

//! The schemas of the tests.

pub(crate) const BEHIND: &str =
    r#"{"type":"record","name":"Pair","fields":[{"name":"b","type":"string"},{"name":"a","type":"int"}]}"#;

pub(crate) const BOOLEAN: &str = r#""boolean""#;

pub(crate) const BYTES: &str = r#""bytes""#;

pub(crate) const CELL: &str =
    r#"{"type":"record","name":"Cell","namespace":"n","fields":[{"name":"next","type":["null","Cell"]}]}"#;

pub(crate) const CHOICE: &str = r#"["null","string"]"#;

pub(crate) const COUNTS: &str = r#"{"type":"map","values":"int"}"#;

pub(crate) const EMPTY_FIXED: &str = r#"{"type":"fixed","name":"F","size":0}"#;

pub(crate) const FOO: &str = r#"{"type":"enum","name":"Foo","symbols":["A","B","C","D"]}"#;

pub(crate) const INT: &str = r#""int""#;

pub(crate) const INTS: &str = r#"{"type":"array","items":"int"}"#;

pub(crate) const INT_LISTS: &str = r#"{"type":"array","items":{"type":"array","items":"int"}}"#;

pub(crate) const LETTERS: &str = r#"{"type":"enum","name":"E","symbols":["A","B"]}"#;

pub(crate) const LINE: &str =
    r#"{"type":"record","namespace":"shop","name":"Line","doc":"x","fields":[{"name":"n","type":{"type":"long"},"default":0}]}"#;

pub(crate) const LIST: &str =
    r#"{"type":"record","name":"LongList","fields":[{"name":"value","type":"long"},{"name":"next","type":["null","LongList"]}]}"#;

pub(crate) const LONG: &str = r#""long""#;

pub(crate) const LONGS: &str = r#"{"type":"array","items":"long"}"#;

pub(crate) const MANY: &str =
    r#"["boolean","int",{"type":"array","items":"int"},{"type":"map","values":"int"},{"type":"fixed","name":"shop.F","size":1},{"type":"enum","name":"E","symbols":["A","B"]},{"type":"record","name":"shop.Line","fields":[{"name":"n","type":"long"}]}]"#;

pub(crate) const MAP: &str = r#"{"type":"map","values":"long"}"#;

pub(crate) const MAYBE_BYTES: &str = r#"{"type":"map","values":["null","bytes"]}"#;

pub(crate) const NO_FIELDS: &str = r#"{"type":"record","name":"None","fields":[]}"#;

pub(crate) const NULL: &str = r#""null""#;

pub(crate) const NULLS: &str = r#"{"type":"array","items":"null"}"#;

pub(crate) const NULL_LISTS: &str = r#"{"type":"array","items":{"type":"array","items":"null"}}"#;

pub(crate) const OTHER_CHOICE: &str = r#"["string","null"]"#;

pub(crate) const PAIR: &str =
    r#"{"type":"record","name":"P","fields":[{"name":"a","type":"int"},{"name":"b","type":"string"}]}"#;

pub(crate) const PERHAPS: &str = r#"{"type":"array","items":["null","int"]}"#;

pub(crate) const STRING: &str = r#""string""#;

pub(crate) const TEST: &str =
    r#"{"type":"record","name":"test","fields":[{"name":"a","type":"long"},{"name":"b","type":"string"}]}"#;

pub(crate) const TREE: &str =
    r#"{"type":"record","name":"T","fields":[{"name":"v","type":"int"},{"name":"n","type":["null","T"]}]}"#;

pub(crate) const TWO: &str = r#"{"type":"fixed","name":"F","size":2}"#;

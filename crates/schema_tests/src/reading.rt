//! Schemas and their canonical forms, by hand from the Avro specification, "Schema Declaration", "Names" and "Transforming
//! into Parsing Canonical Form".
ghost use Rattle.avro_schema.specs.Nodes.{HasNode};

use avro_schema::{Field, Kind, Schema, SchemaNo};
use std::alloc::Global;
use std::process::Abort;
use std::test::Fail;

/// Texts and their canonical forms.
const READ: [(&str, &str); 20] = [
    (r#""long""#, r#""long""#),
    (r#"{"type":"string","logicalType":"uuid"}"#, r#""string""#),
    (r#"{"type":{"type":"int"}}"#, r#""int""#),
    (r#" [ "null" , "string" ] "#, r#"["null","string"]"#),
    ("[]", "[]"),
    (
        r#"{"items":"int","type":"array","default":[]}"#,
        r#"{"type":"array","items":"int"}"#,
    ),
    (
        r#"{"type":"map","values":["null","bytes"]}"#,
        r#"{"type":"map","values":["null","bytes"]}"#,
    ),
    (
        r#"{"type":"record","namespace":"shop","name":"Line","doc":"x","fields":[{"name":"n","type":{"type":"long"},"default":0}]}"#,
        r#"{"name":"shop.Line","type":"record","fields":[{"name":"n","type":"long"}]}"#,
    ),
    // the namespace of a fullname, and not the attribute
    (
        r#"{"type":"enum","name":"a.b.E","namespace":"c","aliases":["9"],"symbols":["A","_b1"]}"#,
        r#"{"name":"a.b.E","type":"enum","symbols":["A","_b1"]}"#,
    ),
    // a size as a number and as a text, without leading zeros
    (
        r#"{"type":"fixed","name":"F","size":16}"#,
        r#"{"name":"F","type":"fixed","size":16}"#,
    ),
    (
        r#"{"type":"fixed","name":"F","size":"0016"}"#,
        r#"{"name":"F","type":"fixed","size":16}"#,
    ),
    (
        r#"{"type":"fixed","name":"F","size":1048576}"#,
        r#"{"name":"F","type":"fixed","size":1048576}"#,
    ),
    // namespaces are inherited from the enclosing type, and left by the empty one
    (
        r#"{"type":"record","name":"x.R","fields":[{"name":"e","type":{"type":"enum","name":"E","symbols":[]}},{"name":"f","type":"E"},{"name":"g","type":"x.E"}]}"#,
        r#"{"name":"x.R","type":"record","fields":[{"name":"e","type":{"name":"x.E","type":"enum","symbols":[]}},{"name":"f","type":"x.E"},{"name":"g","type":"x.E"}]}"#,
    ),
    (
        r#"{"type":"record","name":"x.R","fields":[{"name":"e","type":{"type":"fixed","name":"F","namespace":"","size":0}}]}"#,
        r#"{"name":"x.R","type":"record","fields":[{"name":"e","type":{"name":"F","type":"fixed","size":0}}]}"#,
    ),
    // a type that leads back to itself
    (
        r#"{"type":"record","name":"L","fields":[{"name":"next","type":["null","L"]}]}"#,
        r#"{"name":"L","type":"record","fields":[{"name":"next","type":["null","L"]}]}"#,
    ),
    // two named types, and one array beside one map
    (
        r#"[{"type":"fixed","name":"A","size":1},{"type":"fixed","name":"B","size":1},{"type":"array","items":"A"},{"type":"map","values":"A"}]"#,
        r#"[{"name":"A","type":"fixed","size":1},{"name":"B","type":"fixed","size":1},{"type":"array","items":"A"},{"type":"map","values":"A"}]"#,
    ),
    // the last of several members counts
    (r#"{"type":"int","type":"long"}"#, r#""long""#),
    // escapes in names
    (
        r#"{"typ\u0065":"f\u0069xed","name":"\u0046","size":1}"#,
        r#"{"name":"F","type":"fixed","size":1}"#,
    ),
    // words of the specification are names elsewhere
    (
        r#"{"type":"record","name":"record","fields":[{"name":"type","type":["null","record"]}]}"#,
        r#"{"name":"record","type":"record","fields":[{"name":"type","type":["null","record"]}]}"#,
    ),
    (
        r#"{"type":"enum","name":"n.array","symbols":[]}"#,
        r#"{"name":"n.array","type":"enum","symbols":[]}"#,
    ),
];

/// Texts and the names of their refusals.
const REFUSED: [(&str, &str); 50] = [
    ("", "NotJson"),
    (r#""int"#, "NotJson"),
    ("int", "NotJson"),
    ("1", "BadType"),
    ("null", "BadType"),
    ("{}", "BadType"),
    (r#"{"type":true}"#, "BadType"),
    (r#"{"type":"array"}"#, "BadType"),
    (r#"{"type":"map","items":"int"}"#, "BadType"),
    (r#"{"type":"record","fields":[]}"#, "BadType"),
    (r#"{"type":"record","name":1,"fields":[]}"#, "BadType"),
    (r#"{"type":"record","name":"R"}"#, "BadType"),
    (
        r#"{"type":"record","name":"R","namespace":1,"fields":[]}"#,
        "BadType",
    ),
    (r#"{"type":"record","name":"R","fields":[1]}"#, "BadType"),
    (
        r#"{"type":"record","name":"R","fields":[{"name":"a"}]}"#,
        "BadType",
    ),
    (
        r#"{"type":"record","name":"R","fields":[{"name":"a","type":"int"},{"name":"a","type":"long"}]}"#,
        "BadType",
    ),
    (
        r#"{"type":"enum","name":"E","symbols":["A","A"]}"#,
        "BadType",
    ),
    (r#"{"type":"enum","name":"E","symbols":[1]}"#, "BadType"),
    (r#"{"type":"fixed","name":"F","size":1048577}"#, "BadType"),
    (r#"{"type":"fixed","name":"F","size":-1}"#, "BadType"),
    (r#"{"type":"fixed","name":"F","size":1.0}"#, "BadType"),
    (r#"{"type":"fixed","name":"F","size":""}"#, "BadType"),
    (r#"["null",["int"]]"#, "BadType"),
    (r#"["null",{"type":["int"]}]"#, "BadType"),
    (r#"["null",["double"]]"#, "BadType"),
    (r#"["int","string","int"]"#, "BadType"),
    (
        r#"[{"type":"array","items":"int"},{"type":"array","items":"long"}]"#,
        "BadType",
    ),
    (r#"[{"type":"fixed","name":"F","size":1},"F"]"#, "BadType"),
    (r#""R""#, "UnknownName"),
    (r#""array""#, "UnknownName"),
    (r#""Long""#, "UnknownName"),
    (
        r#"["F",{"type":"fixed","name":"F","size":1}]"#,
        "UnknownName",
    ),
    (
        r#"{"type":"record","name":"x.R","fields":[{"name":"a","type":{"type":"fixed","name":"y.F","size":1}},{"name":"b","type":"F"}]}"#,
        "UnknownName",
    ),
    (
        r#"[{"type":"fixed","name":"F","size":1},{"type":"enum","name":"F","symbols":[]}]"#,
        "Redefined",
    ),
    (
        r#"{"type":"record","name":"R","fields":[{"name":"a","type":{"type":"record","name":"R","fields":[]}}]}"#,
        "Redefined",
    ),
    (r#"{"type":"fixed","name":"9F","size":1}"#, "BadName"),
    (r#"{"type":"fixed","name":"a.9F","size":1}"#, "BadName"),
    (r#"{"type":"fixed","name":"a..F","size":1}"#, "BadName"),
    (r#"{"type":"fixed","name":".F","size":1}"#, "BadName"),
    (r#"{"type":"fixed","name":"","size":1}"#, "BadName"),
    (r#"{"type":"fixed","name":"F-G","size":1}"#, "BadName"),
    (
        r#"{"type":"fixed","name":"F","namespace":"a-b","size":1}"#,
        "BadName",
    ),
    (r#"{"type":"fixed","name":"int","size":1}"#, "BadName"),
    (r#"{"type":"fixed","name":"a.double","size":1}"#, "BadName"),
    (r#"{"type":"fixed","name":"map","size":1}"#, "BadName"),
    (
        r#"{"type":"record","name":"R","fields":[{"name":"a.b","type":"int"}]}"#,
        "BadName",
    ),
    (
        r#"{"type":"enum","name":"E","symbols":["A",""]}"#,
        "BadName",
    ),
    (r#""double""#, "Float"),
    (r#"{"type":"float"}"#, "Float"),
    (r#"["null","float"]"#, "Float"),
];

/// The name of a refusal.
fn name_of(alloc: Global, no: SchemaNo) -> Result<String, Fail> {
    Ok(format!(in alloc; "{no:?}")?)
}

/// The canonical form of a schema.
fn form_of(alloc: Global, schema: &Schema) -> Result<String, Fail> {
    Ok(schema.canonical(alloc)?)
}

/// What reading answers: the canonical form, or the refusal's name.
fn answer(alloc: Global, text: &str) -> Result<String, Fail> {
    match Schema::read(alloc, text) {
        Ok(schema) => form_of(alloc, &schema),
        Err(no) => name_of(alloc, no),
    }
}

/// What reading as a canonical form answers.
fn canonical_answer(alloc: Global, text: &str) -> Result<String, Fail> {
    match Schema::read_canonical(alloc, text) {
        Ok(schema) => form_of(alloc, &schema),
        Err(no) => name_of(alloc, no),
    }
}

/// Each text is answered so.
fn answer_so(rt: &impl Abort, alloc: Global, cases: &[(&str, &str)]) -> Result<(), Fail> {
    for (text, expected) in cases {
        let told = answer(alloc, text)?;
        assert_eq!(rt; told.as_str(), *expected, "{text}");
    }
    Ok(())
}

/// Each text is answered so if it is read as a canonical form.
fn canonical_so(rt: &impl Abort, alloc: Global, cases: &[(&str, &str)]) -> Result<(), Fail> {
    for (text, expected) in cases {
        let told = canonical_answer(alloc, text)?;
        assert_eq!(rt; told.as_str(), *expected, "{text}");
    }
    Ok(())
}

/// Each canonical form is that of itself.
fn stay_so(rt: &impl Abort, alloc: Global, cases: &[(&str, &str)]) -> Result<(), Fail> {
    for (_, form) in cases {
        let told = canonical_answer(alloc, form)?;
        assert_eq!(rt; told.as_str(), *form);
    }
    Ok(())
}

#[test]
fn reads_schemas_and_writes_their_canonical_form(rt: HostRuntime) -> Result<(), Fail> {
    answer_so(&rt, rt.alloc(), &READ)
}

#[test]
fn reads_canonical_forms_as_themselves(rt: HostRuntime) -> Result<(), Fail> {
    stay_so(&rt, rt.alloc(), &READ)
}

#[test]
fn refuses_what_is_no_schema(rt: HostRuntime) -> Result<(), Fail> {
    answer_so(&rt, rt.alloc(), &REFUSED)
}

const FULLNAMES: &str =
    r#"{"name":"x.R","type":"record","fields":[{"name":"a","type":{"name":"F","type":"fixed","size":1}},{"name":"b","type":"F"}]}"#;

const INHERITED: &str =
    r#"{"name":"x.R","type":"record","fields":[{"name":"a","type":{"name":"x.F","type":"fixed","size":1}},{"name":"b","type":"x.F"}]}"#;

// In canonical reading each name is a fullname, whatever encloses it.
#[test]
fn takes_each_name_of_a_canonical_form_as_a_fullname(rt: HostRuntime) -> Result<(), Fail> {
    canonical_so(&rt, rt.alloc(), &[(FULLNAMES, FULLNAMES)])
}

#[test]
fn takes_names_inside_a_record_as_in_its_namespace(rt: HostRuntime) -> Result<(), Fail> {
    answer_so(&rt, rt.alloc(), &[(FULLNAMES, INHERITED)])
}

/// So many of the one text, then the middle, then so many of the other.
fn nested(
    alloc: Global,
    count: usize,
    before: &str,
    middle: &str,
    after: &str,
) -> Result<String, Fail> {
    let mut text = String::new(alloc);
    for _ in 0..count {
        text.push_str(before)?;
    }
    text.push_str(middle)?;
    for _ in 0..count {
        text.push_str(after)?;
    }
    Ok(text)
}

/// What reading answers, or "itself" for the text.
fn answer_or_itself(alloc: Global, text: &str) -> Result<String, Fail> {
    let told = answer(alloc, text)?;
    if told.as_str() == text {
        return Ok(String::from_str(alloc, "itself")?);
    }
    Ok(told)
}

const ARRAY: &str = r#"{"type":"array","items":"#;

/// So many of the one text, then the middle, then so many of the other, and the answer.
const LEVELS: [(usize, &str, &str, &str, &str); 4] = [
    (64, ARRAY, r#""int""#, "}", "itself"),
    (65, ARRAY, r#""int""#, "}", "TooDeep"),
    (64, ARRAY, r#"{"type":"int"}"#, "}", "TooDeep"),
    (128, "[", "", "]", "TooDeep"), // a JSON text nested deeper than any that is read
];

/// Each nested text is answered so.
fn nest_so(
    rt: &impl Abort,
    alloc: Global,
    cases: &[(usize, &str, &str, &str, &str)],
) -> Result<(), Fail> {
    for (count, before, middle, after, expected) in cases {
        let text = nested(alloc, *count, before, middle, after)?;
        let told = answer_or_itself(alloc, text.as_str())?;
        assert_eq!(rt; told.as_str(), *expected, "{count} levels");
    }
    Ok(())
}

#[test]
fn reads_64_levels_and_no_more(rt: HostRuntime) -> Result<(), Fail> {
    nest_so(&rt, rt.alloc(), &LEVELS)
}

/// The middle of a name of 65,500 letters around it, the length of the canonical form, and the answer.
const LONG: [(&str, &str); 2] = [("b", "65536 itself"), ("ab", "65537 TooLong")];

/// The canonical form of a fixed of a name with this middle: 9 bytes before the name and 26 behind it.
fn long_fixed(alloc: Global, middle: &str) -> Result<String, Fail> {
    let name = nested(alloc, 32750, "a", middle, "a")?;
    nested(
        alloc,
        1,
        r#"{"name":""#,
        name.as_str(),
        r#"","type":"fixed","size":1}"#,
    )
}

/// The length of a text, and what reading it answers.
fn length_and_answer(alloc: Global, text: &str) -> Result<String, Fail> {
    let told = answer_or_itself(alloc, text)?;
    Ok(format!(in alloc; "{} {}", text.len(), told.as_str())?)
}

/// Each long form is answered so.
fn end_so(rt: &impl Abort, alloc: Global, cases: &[(&str, &str)]) -> Result<(), Fail> {
    for (middle, expected) in cases {
        let text = long_fixed(alloc, middle)?;
        let told = length_and_answer(alloc, text.as_str())?;
        assert_eq!(rt; told.as_str(), *expected);
    }
    Ok(())
}

#[test]
fn reads_canonical_forms_of_65536_bytes_and_no_longer(rt: HostRuntime) -> Result<(), Fail> {
    end_so(&rt, rt.alloc(), &LONG)
}

/// Texts, and what is looked up of them: the name of the root, and the name, the kind and the parts of the node of its items,
/// or else of the root.
const PARTS: [(&str, &str); 5] = [
    (
        r#"{"type":"record","name":"R","fields":[{"name":"a","type":"int"},{"name":"b","type":"R"}]}"#,
        "R R Record a b",
    ),
    (
        r#"{"type":"array","items":{"type":"enum","name":"E","symbols":["A","B"]}}"#,
        "array E Enum 2 Some(1)",
    ),
    (
        r#"["null","bytes","string"]"#,
        "union union Union 3 Some(2)",
    ),
    (r#"["null","bytes"]"#, "union union Union 2 None"),
    (r#"{"type":"fixed","name":"F","size":7}"#, "F F Fixed(7)"),
];

/// The names of fields, each behind a blank.
fn field_names(alloc: Global, fields: &[Field]) -> Result<String, Fail> {
    let mut text = String::new(alloc);
    for field in fields {
        text.push_str(" ")?;
        text.push_str(field.name.as_str())?;
    }
    Ok(text)
}

/// A count and a place, each behind a blank.
fn count_and_place(alloc: Global, count: usize, place: Option<usize>) -> Result<String, Fail> {
    Ok(format!(in alloc; " {count} {place:?}")?)
}

/// The parts of a node: a record's fields, the number of an enum's symbols and the place of `B` among them, and the number of a
/// union's branches and the place of `string`.
fn parts_of(alloc: Global, schema: &Schema, node: u32) -> Result<String, Fail>
    requires { HasNode schema.now node }
{
    match schema.kind(node) {
        Kind::Record => field_names(alloc, schema.fields(node)),
        Kind::Enum => count_and_place(alloc, schema.symbols(node).len(), schema.symbol(node, "B")),
        Kind::Union => count_and_place(
            alloc,
            schema.branches(node).len(),
            schema.branch(node, "string"),
        ),
        _ => Ok(String::new(alloc)),
    }
}

/// The node of an array's items, or else the root.
fn inner(schema: &Schema) -> u32
    ensures { HasNode schema.now result }
{
    match schema.kind(schema.root()) {
        Kind::Array(items) => items,
        _ => schema.root(),
    }
}

/// The names of the root and of the inner node, and its kind and parts.
fn looked_up(alloc: Global, schema: &Schema) -> Result<String, Fail> {
    let node = inner(schema);
    let parts = parts_of(alloc, schema, node)?;
    let outer = schema.branch_name(schema.root());
    let name = schema.branch_name(node);
    let kind = schema.kind(node);
    Ok(format!(in alloc; "{outer} {name} {kind:?}{}", parts.as_str())?)
}

/// What is looked up of the schema of a text.
fn look(alloc: Global, text: &str) -> Result<String, Fail> {
    match Schema::read(alloc, text) {
        Ok(schema) => looked_up(alloc, &schema),
        Err(no) => name_of(alloc, no),
    }
}

/// Each schema has these parts.
fn look_so(rt: &impl Abort, alloc: Global, cases: &[(&str, &str)]) -> Result<(), Fail> {
    for (text, expected) in cases {
        let told = look(alloc, text)?;
        assert_eq!(rt; told.as_str(), *expected, "{text}");
    }
    Ok(())
}

#[test]
fn looks_up_the_parts_of_types(rt: HostRuntime) -> Result<(), Fail> {
    look_so(&rt, rt.alloc(), &PARTS)
}

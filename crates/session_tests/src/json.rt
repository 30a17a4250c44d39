//! Sessions of records in the JSON format over two partitions of `orders`. The expected bodies are written by
//! hand after docs/API.md, and base64 is that of coreutils' `base64`.

use crate::exchange::{
    ASSIGN, BINARY, BINARY_BODY, BOTH, CREATE, Exchange, JSON, JSON_BODY, MADE, NO_CONTENT,
    NOT_FOUND, OK, PARTITION_0, PLAIN, PLAIN_BODY, PRODUCE, RECORDS, UNREADABLE, WAITING,
    is_session,
};
use std::test::Fail;

const FAILED: &str = "500 Internal Server Error";

const NOT_ACCEPTABLE: &str = "406 Not Acceptable";

const UNSUPPORTED: &str = "415 Unsupported Media Type";

const ONE_BYTE: &str = "GET /consumers/g/instances/c1/records?timeout=0&max_bytes=1";

const CREATED: Exchange<'static> = Exchange {
    line: CREATE,
    fields: PLAIN_BODY,
    body: "{\"name\":\"c1\",\"format\":\"json\",\"auto.offset.reset\":\"earliest\"}",
    status: OK,
    media: PLAIN,
    told: MADE,
};

const ASSIGNED: Exchange<'static> = Exchange {
    line: ASSIGN,
    fields: PLAIN_BODY,
    body: PARTITION_0,
    status: NO_CONTENT,
    media: PLAIN,
    told: "",
};

const BOTH_ASSIGNED: Exchange<'static> = Exchange {
    line: ASSIGN,
    fields: PLAIN_BODY,
    body: BOTH,
    status: NO_CONTENT,
    media: PLAIN,
    told: "",
};

/// An instance that shows the bytes as they are stored.
const BINARY_CREATED: Exchange<'static> = Exchange {
    line: CREATE,
    fields: PLAIN_BODY,
    body: "{\"name\":\"c2\",\"auto.offset.reset\":\"earliest\"}",
    status: OK,
    media: PLAIN,
    told: "{\"instance_id\":\"c2\",\"base_uri\":\"http://localhost:8082/consumers/g/instances/c2\"}",
};

const BINARY_ASSIGNED: Exchange<'static> = Exchange {
    line: "POST /consumers/g/instances/c2/assignments",
    fields: PLAIN_BODY,
    body: PARTITION_0,
    status: NO_CONTENT,
    media: PLAIN,
    told: "",
};

const BINARY_RECORDS: &str = "GET /consumers/g/instances/c2/records?timeout=0";

/// The stored text is that of the value without white space between its tokens, and null is stored null.
/// What another wrote with white space is shown without it.
const SHOWN: [Exchange<'static>; 8] = [
    Exchange {
        line: PRODUCE,
        fields: JSON_BODY,
        body: "{\"records\":[{\"value\":{\"p\":1.50, \"a\":[ ]},\"partition\":0},{\"key\":\"k\",\"value\":null,\"partition\":0},{\"value\": true ,\"partition\":0}]}",
        status: OK,
        media: PLAIN,
        told: "{\"offsets\":[{\"partition\":0,\"offset\":0,\"error_code\":null,\"error\":null},{\"partition\":0,\"offset\":1,\"error_code\":null,\"error\":null},{\"partition\":0,\"offset\":2,\"error_code\":null,\"error\":null}],\"key_schema_id\":null,\"value_schema_id\":null}",
    },
    Exchange {
        line: PRODUCE,
        fields: BINARY_BODY,
        body: "{\"records\":[{\"key\":\"Nw==\",\"value\":\"IHsgImEiIDogWzEsIDJdIH0g\",\"partition\":0}]}",
        status: OK,
        media: PLAIN,
        told: "{\"offsets\":[{\"partition\":0,\"offset\":3,\"error_code\":null,\"error\":null}],\"key_schema_id\":null,\"value_schema_id\":null}",
    },
    CREATED,
    ASSIGNED,
    Exchange {
        line: RECORDS,
        fields: "",
        body: "",
        status: OK,
        media: JSON,
        told: "[{\"topic\":\"orders\",\"key\":null,\"value\":{\"p\":1.50,\"a\":[]},\"partition\":0,\"offset\":0},{\"topic\":\"orders\",\"key\":\"k\",\"value\":null,\"partition\":0,\"offset\":1},{\"topic\":\"orders\",\"key\":null,\"value\":true,\"partition\":0,\"offset\":2},{\"topic\":\"orders\",\"key\":7,\"value\":{\"a\":[1,2]},\"partition\":0,\"offset\":3}]",
    },
    BINARY_CREATED,
    BINARY_ASSIGNED,
    Exchange {
        line: BINARY_RECORDS,
        fields: "",
        body: "",
        status: OK,
        media: BINARY,
        told: "[{\"topic\":\"orders\",\"key\":null,\"value\":\"eyJwIjoxLjUwLCJhIjpbXX0=\",\"partition\":0,\"offset\":0},{\"topic\":\"orders\",\"key\":\"Imsi\",\"value\":null,\"partition\":0,\"offset\":1},{\"topic\":\"orders\",\"key\":null,\"value\":\"dHJ1ZQ==\",\"partition\":0,\"offset\":2},{\"topic\":\"orders\",\"key\":\"Nw==\",\"value\":\"IHsgImEiIDogWzEsIDJdIH0g\",\"partition\":0,\"offset\":3}]",
    },
];

/// The bytes `no` are no JSON text: they are told again and again, and nothing moves. An instance of the
/// binary format is shown them.
const UNREAD: [Exchange<'static>; 9] = [
    Exchange {
        line: PRODUCE,
        fields: BINARY_BODY,
        body: "{\"records\":[{\"value\":\"bm8=\",\"partition\":0}]}",
        status: OK,
        media: PLAIN,
        told: "{\"offsets\":[{\"partition\":0,\"offset\":0,\"error_code\":null,\"error\":null}],\"key_schema_id\":null,\"value_schema_id\":null}",
    },
    CREATED,
    ASSIGNED,
    Exchange {
        line: RECORDS,
        fields: "",
        body: "",
        status: FAILED,
        media: PLAIN,
        told: "{\"error_code\":50002,\"message\":\"Record does not read: topic orders, partition 0, offset 0, reason 2.\"}",
    },
    Exchange {
        line: RECORDS,
        fields: "",
        body: "",
        status: FAILED,
        media: PLAIN,
        told: "{\"error_code\":50002,\"message\":\"Record does not read: topic orders, partition 0, offset 0, reason 2.\"}",
    },
    BINARY_CREATED,
    BINARY_ASSIGNED,
    Exchange {
        line: BINARY_RECORDS,
        fields: "",
        body: "",
        status: OK,
        media: BINARY,
        told: "[{\"topic\":\"orders\",\"key\":null,\"value\":\"bm8=\",\"partition\":0,\"offset\":0}]",
    },
    Exchange {
        line: RECORDS,
        fields: "",
        body: "",
        status: FAILED,
        media: PLAIN,
        told: "{\"error_code\":50002,\"message\":\"Record does not read: topic orders, partition 0, offset 0, reason 2.\"}",
    },
];

/// The row before it is shown at once, though the instance waits for more bytes. Then it is the first that
/// is met, and it is told at once too.
const BEFORE: [Exchange<'static>; 6] = [
    Exchange {
        line: PRODUCE,
        fields: BINARY_BODY,
        body: "{\"records\":[{\"value\":\"MQ==\",\"partition\":0},{\"value\":\"bm8=\",\"partition\":0},{\"value\":\"Mg==\",\"partition\":0}]}",
        status: OK,
        media: PLAIN,
        told: "{\"offsets\":[{\"partition\":0,\"offset\":0,\"error_code\":null,\"error\":null},{\"partition\":0,\"offset\":1,\"error_code\":null,\"error\":null},{\"partition\":0,\"offset\":2,\"error_code\":null,\"error\":null}],\"key_schema_id\":null,\"value_schema_id\":null}",
    },
    Exchange {
        line: CREATE,
        fields: PLAIN_BODY,
        body: "{\"name\":\"c1\",\"format\":\"json\",\"auto.offset.reset\":\"earliest\",\"fetch.min.bytes\":100}",
        status: OK,
        media: PLAIN,
        told: MADE,
    },
    ASSIGNED,
    Exchange {
        line: WAITING,
        fields: "",
        body: "",
        status: OK,
        media: JSON,
        told: "[{\"topic\":\"orders\",\"key\":null,\"value\":1,\"partition\":0,\"offset\":0}]",
    },
    Exchange {
        line: WAITING,
        fields: "",
        body: "",
        status: FAILED,
        media: PLAIN,
        told: "{\"error_code\":50002,\"message\":\"Record does not read: topic orders, partition 0, offset 1, reason 2.\"}",
    },
    Exchange {
        line: WAITING,
        fields: "",
        body: "",
        status: FAILED,
        media: PLAIN,
        told: "{\"error_code\":50002,\"message\":\"Record does not read: topic orders, partition 0, offset 1, reason 2.\"}",
    },
];

/// A key has to read too, and no bytes are no JSON text. Of two such rows the first of the walk is told.
const KEYS: [Exchange<'static>; 6] = [
    Exchange {
        line: PRODUCE,
        fields: BINARY_BODY,
        body: "{\"records\":[{\"key\":\"\",\"value\":\"MQ==\",\"partition\":1},{\"key\":\"bm8=\",\"value\":\"Mg==\",\"partition\":0}]}",
        status: OK,
        media: PLAIN,
        told: "{\"offsets\":[{\"partition\":1,\"offset\":0,\"error_code\":null,\"error\":null},{\"partition\":0,\"offset\":0,\"error_code\":null,\"error\":null}],\"key_schema_id\":null,\"value_schema_id\":null}",
    },
    CREATED,
    BOTH_ASSIGNED,
    Exchange {
        line: RECORDS,
        fields: "",
        body: "",
        status: FAILED,
        media: PLAIN,
        told: "{\"error_code\":50002,\"message\":\"Record does not read: topic orders, partition 0, offset 0, reason 2.\"}",
    },
    Exchange {
        line: ASSIGN,
        fields: PLAIN_BODY,
        body: "{\"partitions\":[{\"topic\":\"orders\",\"partition\":1}]}",
        status: NO_CONTENT,
        media: PLAIN,
        told: "",
    },
    Exchange {
        line: RECORDS,
        fields: "",
        body: "",
        status: FAILED,
        media: PLAIN,
        told: "{\"error_code\":50002,\"message\":\"Record does not read: topic orders, partition 1, offset 0, reason 2.\"}",
    },
];

/// A row that doesn't read ends its own partition alone: the other's rows are shown, and it is told where
/// there are none.
const OTHERS: [Exchange<'static>; 8] = [
    Exchange {
        line: PRODUCE,
        fields: BINARY_BODY,
        body: "{\"records\":[{\"value\":\"bm8=\",\"partition\":0},{\"value\":\"MQ==\",\"partition\":1},{\"value\":\"Mg==\",\"partition\":1}]}",
        status: OK,
        media: PLAIN,
        told: "{\"offsets\":[{\"partition\":0,\"offset\":0,\"error_code\":null,\"error\":null},{\"partition\":1,\"offset\":0,\"error_code\":null,\"error\":null},{\"partition\":1,\"offset\":1,\"error_code\":null,\"error\":null}],\"key_schema_id\":null,\"value_schema_id\":null}",
    },
    CREATED,
    BOTH_ASSIGNED,
    Exchange {
        line: RECORDS,
        fields: "",
        body: "",
        status: OK,
        media: JSON,
        told: "[{\"topic\":\"orders\",\"key\":null,\"value\":1,\"partition\":1,\"offset\":0},{\"topic\":\"orders\",\"key\":null,\"value\":2,\"partition\":1,\"offset\":1}]",
    },
    Exchange {
        line: RECORDS,
        fields: "",
        body: "",
        status: FAILED,
        media: PLAIN,
        told: "{\"error_code\":50002,\"message\":\"Record does not read: topic orders, partition 0, offset 0, reason 2.\"}",
    },
    Exchange {
        line: PRODUCE,
        fields: JSON_BODY,
        body: "{\"records\":[{\"value\":3,\"partition\":1}]}",
        status: OK,
        media: PLAIN,
        told: "{\"offsets\":[{\"partition\":1,\"offset\":2,\"error_code\":null,\"error\":null}],\"key_schema_id\":null,\"value_schema_id\":null}",
    },
    Exchange {
        line: RECORDS,
        fields: "",
        body: "",
        status: OK,
        media: JSON,
        told: "[{\"topic\":\"orders\",\"key\":null,\"value\":3,\"partition\":1,\"offset\":2}]",
    },
    Exchange {
        line: RECORDS,
        fields: "",
        body: "",
        status: FAILED,
        media: PLAIN,
        told: "{\"error_code\":50002,\"message\":\"Record does not read: topic orders, partition 0, offset 0, reason 2.\"}",
    },
];

/// The instance's format has to be among those that Accept names, unless that names a type for all of them.
const ACCEPTED: [Exchange<'static>; 13] = [
    Exchange {
        line: PRODUCE,
        fields: JSON_BODY,
        body: "{\"records\":[{\"value\":1,\"partition\":0},{\"value\":2,\"partition\":0},{\"value\":3,\"partition\":0},{\"value\":4,\"partition\":0}]}",
        status: OK,
        media: PLAIN,
        told: "{\"offsets\":[{\"partition\":0,\"offset\":0,\"error_code\":null,\"error\":null},{\"partition\":0,\"offset\":1,\"error_code\":null,\"error\":null},{\"partition\":0,\"offset\":2,\"error_code\":null,\"error\":null},{\"partition\":0,\"offset\":3,\"error_code\":null,\"error\":null}],\"key_schema_id\":null,\"value_schema_id\":null}",
    },
    CREATED,
    ASSIGNED,
    Exchange {
        line: ONE_BYTE,
        fields: "Accept: application/vnd.kafka.binary.v2+json\r\n",
        body: "",
        status: NOT_ACCEPTABLE,
        media: PLAIN,
        told: "{\"error_code\":40601,\"message\":\"Consumer format does not match the Accept header.\"}",
    },
    Exchange {
        line: ONE_BYTE,
        fields: "Accept: application/vnd.kafka.avro.v2+json, application/vnd.kafka.binary.v2+json\r\n",
        body: "",
        status: NOT_ACCEPTABLE,
        media: PLAIN,
        told: "{\"error_code\":40601,\"message\":\"Consumer format does not match the Accept header.\"}",
    },
    Exchange {
        line: ONE_BYTE,
        fields: "Accept: text/html\r\n",
        body: "",
        status: NOT_ACCEPTABLE,
        media: PLAIN,
        told: "{\"error_code\":406,\"message\":\"Not acceptable.\"}",
    },
    Exchange {
        line: "GET /consumers/g/instances/c3/records",
        fields: "Accept: application/vnd.kafka.binary.v2+json\r\n",
        body: "",
        status: NOT_FOUND,
        media: PLAIN,
        told: "{\"error_code\":40403,\"message\":\"Consumer instance not found.\"}",
    },
    Exchange {
        line: ONE_BYTE,
        fields: "Accept: application/vnd.kafka.binary.v2+json, Application/VND.kafka.JSON.v2+json;q=0.1\r\n",
        body: "",
        status: OK,
        media: JSON,
        told: "[{\"topic\":\"orders\",\"key\":null,\"value\":1,\"partition\":0,\"offset\":0}]",
    },
    Exchange {
        line: ONE_BYTE,
        fields: "Accept: */*\r\n",
        body: "",
        status: OK,
        media: JSON,
        told: "[{\"topic\":\"orders\",\"key\":null,\"value\":2,\"partition\":0,\"offset\":1}]",
    },
    Exchange {
        line: ONE_BYTE,
        fields: "Accept: application/vnd.kafka.binary.v2+json, application/*\r\n",
        body: "",
        status: OK,
        media: JSON,
        told: "[{\"topic\":\"orders\",\"key\":null,\"value\":3,\"partition\":0,\"offset\":2}]",
    },
    Exchange {
        line: ONE_BYTE,
        fields: "Accept: application/vnd.kafka.v2+json\r\n",
        body: "",
        status: OK,
        media: JSON,
        told: "[{\"topic\":\"orders\",\"key\":null,\"value\":4,\"partition\":0,\"offset\":3}]",
    },
    BINARY_CREATED,
    Exchange {
        line: BINARY_RECORDS,
        fields: "Accept: application/vnd.kafka.json.v2+json\r\n",
        body: "",
        status: NOT_ACCEPTABLE,
        media: PLAIN,
        told: "{\"error_code\":40601,\"message\":\"Consumer format does not match the Accept header.\"}",
    },
];

/// A text keeps its white space and its escapes, a number its digits, and an object its members as they
/// stand, repeats too. Of a record's own members of one name the last counts.
const KEPT: [Exchange<'static>; 4] = [
    Exchange {
        line: PRODUCE,
        fields: JSON_BODY,
        body: "{\"records\":[{\"key\":\" a\\u0041\\/\\t é\",\"value\": { \"b\" : 1 , \"a\" : [ 1e999 , -0 , 1.0E+2 ] , \"b\" : null } ,\"partition\":0},{\"value\":1,\"value\":\"last\",\"partition\":0}]}",
        status: OK,
        media: PLAIN,
        told: "{\"offsets\":[{\"partition\":0,\"offset\":0,\"error_code\":null,\"error\":null},{\"partition\":0,\"offset\":1,\"error_code\":null,\"error\":null}],\"key_schema_id\":null,\"value_schema_id\":null}",
    },
    CREATED,
    ASSIGNED,
    Exchange {
        line: RECORDS,
        fields: "",
        body: "",
        status: OK,
        media: JSON,
        told: "[{\"topic\":\"orders\",\"key\":\" a\\u0041\\/\\t é\",\"value\":{\"b\":1,\"a\":[1e999,-0,1.0E+2],\"b\":null},\"partition\":0,\"offset\":0},{\"topic\":\"orders\",\"key\":null,\"value\":\"last\",\"partition\":0,\"offset\":1}]",
    },
];

/// A text of 127 levels reads, and one of 128 doesn't, be it a body or what is stored. In a body a value
/// begins on the fourth level.
const DEEP: [Exchange<'static>; 7] = [
    Exchange {
        line: PRODUCE,
        fields: JSON_BODY,
        body: "{\"records\":[{\"value\":[[[[[[[[[[[[[[[[[[[[[[[[[[[[[[[[[[[[[[[[[[[[[[[[[[[[[[[[[[[[[[[[[[[[[[[[[[[[[[[[[[[[[[[[[[[[[[[[[[[[[[[[[[[[[[[[[[[[[[[[[[[[]]]]]]]]]]]]]]]]]]]]]]]]]]]]]]]]]]]]]]]]]]]]]]]]]]]]]]]]]]]]]]]]]]]]]]]]]]]]]]]]]]]]]]]]]]]]]]]]]]]]]]]]]]]]]]]]]]]]]]]]]]]],\"partition\":0}]}",
        status: OK,
        media: PLAIN,
        told: "{\"offsets\":[{\"partition\":0,\"offset\":0,\"error_code\":null,\"error\":null}],\"key_schema_id\":null,\"value_schema_id\":null}",
    },
    Exchange {
        line: PRODUCE,
        fields: JSON_BODY,
        body: "{\"records\":[{\"value\":[[[[[[[[[[[[[[[[[[[[[[[[[[[[[[[[[[[[[[[[[[[[[[[[[[[[[[[[[[[[[[[[[[[[[[[[[[[[[[[[[[[[[[[[[[[[[[[[[[[[[[[[[[[[[[[[[[[[[[[[[[[[[]]]]]]]]]]]]]]]]]]]]]]]]]]]]]]]]]]]]]]]]]]]]]]]]]]]]]]]]]]]]]]]]]]]]]]]]]]]]]]]]]]]]]]]]]]]]]]]]]]]]]]]]]]]]]]]]]]]]]]]]]]]]],\"partition\":0}]}",
        status: UNREADABLE,
        media: PLAIN,
        told: "{\"error_code\":422,\"message\":\"Body does not read.\"}",
    },
    Exchange {
        line: PRODUCE,
        fields: BINARY_BODY,
        body: "{\"records\":[{\"value\":\"W1tbW1tbW1tbW1tbW1tbW1tbW1tbW1tbW1tbW1tbW1tbW1tbW1tbW1tbW1tbW1tbW1tbW1tbW1tbW1tbW1tbW1tbW1tbW1tbW1tbW1tbW1tbW1tbW1tbW1tbW1tbW1tbW1tbW1tbW1tbW1tbW1tbW1tbW1tbW1tbW1tbW1tbW11dXV1dXV1dXV1dXV1dXV1dXV1dXV1dXV1dXV1dXV1dXV1dXV1dXV1dXV1dXV1dXV1dXV1dXV1dXV1dXV1dXV1dXV1dXV1dXV1dXV1dXV1dXV1dXV1dXV1dXV1dXV1dXV1dXV1dXV1dXV1dXV1dXV1dXV1dXV1dXV1dXV1dXV0=\",\"partition\":0},{\"value\":\"W1tbW1tbW1tbW1tbW1tbW1tbW1tbW1tbW1tbW1tbW1tbW1tbW1tbW1tbW1tbW1tbW1tbW1tbW1tbW1tbW1tbW1tbW1tbW1tbW1tbW1tbW1tbW1tbW1tbW1tbW1tbW1tbW1tbW1tbW1tbW1tbW1tbW1tbW1tbW1tbW1tbW1tbW1tdXV1dXV1dXV1dXV1dXV1dXV1dXV1dXV1dXV1dXV1dXV1dXV1dXV1dXV1dXV1dXV1dXV1dXV1dXV1dXV1dXV1dXV1dXV1dXV1dXV1dXV1dXV1dXV1dXV1dXV1dXV1dXV1dXV1dXV1dXV1dXV1dXV1dXV1dXV1dXV1dXV1dXV1dXQ==\",\"partition\":0}]}",
        status: OK,
        media: PLAIN,
        told: "{\"offsets\":[{\"partition\":0,\"offset\":1,\"error_code\":null,\"error\":null},{\"partition\":0,\"offset\":2,\"error_code\":null,\"error\":null}],\"key_schema_id\":null,\"value_schema_id\":null}",
    },
    CREATED,
    ASSIGNED,
    Exchange {
        line: RECORDS,
        fields: "",
        body: "",
        status: OK,
        media: JSON,
        told: "[{\"topic\":\"orders\",\"key\":null,\"value\":[[[[[[[[[[[[[[[[[[[[[[[[[[[[[[[[[[[[[[[[[[[[[[[[[[[[[[[[[[[[[[[[[[[[[[[[[[[[[[[[[[[[[[[[[[[[[[[[[[[[[[[[[[[[[[[[[[[[[[[[[[[[]]]]]]]]]]]]]]]]]]]]]]]]]]]]]]]]]]]]]]]]]]]]]]]]]]]]]]]]]]]]]]]]]]]]]]]]]]]]]]]]]]]]]]]]]]]]]]]]]]]]]]]]]]]]]]]]]]]]]]]]]]]],\"partition\":0,\"offset\":0},{\"topic\":\"orders\",\"key\":null,\"value\":[[[[[[[[[[[[[[[[[[[[[[[[[[[[[[[[[[[[[[[[[[[[[[[[[[[[[[[[[[[[[[[[[[[[[[[[[[[[[[[[[[[[[[[[[[[[[[[[[[[[[[[[[[[[[[[[[[[[[[[[[[[[[[[]]]]]]]]]]]]]]]]]]]]]]]]]]]]]]]]]]]]]]]]]]]]]]]]]]]]]]]]]]]]]]]]]]]]]]]]]]]]]]]]]]]]]]]]]]]]]]]]]]]]]]]]]]]]]]]]]]]]]]]]]]]]]]],\"partition\":0,\"offset\":1}]",
    },
    Exchange {
        line: RECORDS,
        fields: "",
        body: "",
        status: FAILED,
        media: PLAIN,
        told: "{\"error_code\":50002,\"message\":\"Record does not read: topic orders, partition 0, offset 2, reason 2.\"}",
    },
];

/// The format of a body is that of its type alone. In each of them -0 is partition 0, and any number reads
/// in a member that is ignored.
const TYPES: [Exchange<'static>; 12] = [
    Exchange {
        line: PRODUCE,
        fields: "Content-Type: Application/VND.kafka.JSON.v2+json ; charset=utf-8\r\n",
        body: "{\"records\":[{\"value\":\"S2Fma2E=\",\"partition\":-0}],\"key_schema\":1e999}",
        status: OK,
        media: PLAIN,
        told: "{\"offsets\":[{\"partition\":0,\"offset\":0,\"error_code\":null,\"error\":null}],\"key_schema_id\":null,\"value_schema_id\":null}",
    },
    Exchange {
        line: PRODUCE,
        fields: BINARY_BODY,
        body: "{\"records\":[{\"value\":\"S2Fma2E=\",\"partition\":-0}],\"value_schema\":1e999}",
        status: OK,
        media: PLAIN,
        told: "{\"offsets\":[{\"partition\":0,\"offset\":1,\"error_code\":null,\"error\":null}],\"key_schema_id\":null,\"value_schema_id\":null}",
    },
    Exchange {
        line: "POST /topics/orders/partitions/1",
        fields: JSON_BODY,
        body: "{\"records\":[{\"value\":[],\"partition\":0}]}",
        status: OK,
        media: PLAIN,
        told: "{\"offsets\":[{\"partition\":1,\"offset\":0,\"error_code\":null,\"error\":null}],\"key_schema_id\":null,\"value_schema_id\":null}",
    },
    Exchange {
        line: PRODUCE,
        fields: BINARY_BODY,
        body: "{\"records\":[{\"value\":[],\"partition\":0}]}",
        status: UNREADABLE,
        media: PLAIN,
        told: "{\"error_code\":422,\"message\":\"Body does not read.\"}",
    },
    Exchange {
        line: PRODUCE,
        fields: JSON_BODY,
        body: "{\"records\":[{\"value\":01,\"partition\":0}]}",
        status: UNREADABLE,
        media: PLAIN,
        told: "{\"error_code\":422,\"message\":\"Body does not read.\"}",
    },
    Exchange {
        line: PRODUCE,
        fields: "Content-Type: application/vnd.kafka.avro.v2+json\r\n",
        body: "{\"records\":[{\"value\":1,\"partition\":0}]}",
        status: UNSUPPORTED,
        media: PLAIN,
        told: "{\"error_code\":415,\"message\":\"Unsupported media type.\"}",
    },
    Exchange {
        line: CREATE,
        fields: PLAIN_BODY,
        body: "{\"name\":\"c1\",\"format\":\"avro\"}",
        status: UNREADABLE,
        media: PLAIN,
        told: "{\"error_code\":42204,\"message\":\"Invalid consumer configuration.\"}",
    },
    Exchange {
        line: CREATE,
        fields: PLAIN_BODY,
        body: "{\"name\":\"c1\",\"format\":\"JSON\"}",
        status: UNREADABLE,
        media: PLAIN,
        told: "{\"error_code\":42204,\"message\":\"Invalid consumer configuration.\"}",
    },
    CREATED,
    ASSIGNED,
    Exchange {
        line: ONE_BYTE,
        fields: "",
        body: "",
        status: OK,
        media: JSON,
        told: "[{\"topic\":\"orders\",\"key\":null,\"value\":\"S2Fma2E=\",\"partition\":0,\"offset\":0}]",
    },
    Exchange {
        line: RECORDS,
        fields: "",
        body: "",
        status: FAILED,
        media: PLAIN,
        told: "{\"error_code\":50002,\"message\":\"Record does not read: topic orders, partition 0, offset 1, reason 2.\"}",
    },
];

#[test]
fn json_is_shown_as_json_and_as_base64(rt: HostRuntime) -> Result<(), Fail> {
    is_session(&rt, rt.alloc(), &SHOWN, "0 at 0\n")
}

#[test]
fn a_row_that_does_not_read_is_told_and_nothing_moves(rt: HostRuntime) -> Result<(), Fail> {
    is_session(&rt, rt.alloc(), &UNREAD, "0 at 0\n")
}

#[test]
fn rows_before_one_that_does_not_read_are_shown_first(rt: HostRuntime) -> Result<(), Fail> {
    is_session(&rt, rt.alloc(), &BEFORE, "0 at 0\n")
}

#[test]
fn a_key_that_does_not_read_is_told(rt: HostRuntime) -> Result<(), Fail> {
    is_session(&rt, rt.alloc(), &KEYS, "0 at 0\n")
}

#[test]
fn rows_of_other_partitions_are_shown(rt: HostRuntime) -> Result<(), Fail> {
    is_session(&rt, rt.alloc(), &OTHERS, "0 at 0\n")
}

#[test]
fn the_format_of_the_instance_has_to_be_accepted(rt: HostRuntime) -> Result<(), Fail> {
    is_session(&rt, rt.alloc(), &ACCEPTED, "0 at 0\n")
}

#[test]
fn texts_are_kept_as_they_were_sent(rt: HostRuntime) -> Result<(), Fail> {
    is_session(&rt, rt.alloc(), &KEPT, "0 at 0\n")
}

#[test]
fn texts_of_127_levels_are_stored_and_shown(rt: HostRuntime) -> Result<(), Fail> {
    is_session(&rt, rt.alloc(), &DEEP, "0 at 0\n")
}

#[test]
fn the_type_of_a_body_gives_its_format(rt: HostRuntime) -> Result<(), Fail> {
    is_session(&rt, rt.alloc(), &TYPES, "0 at 0\n")
}

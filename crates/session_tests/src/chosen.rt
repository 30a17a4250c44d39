//! Sessions of records that name no partition, over topics of three and of eight. What Kafka's Java client
//! makes of the keys is by a program of its own after its `Utils.murmur2`, which gives the hashes of its
//! `UtilsTest` (`21`: -973932308, `foobar`: -790332482, `abc`: 479470107).

use crate::exchange::{BINARY_BODY, Exchange, JSON_BODY, OK, PLAIN, is_session_of};
use std::test::Fail;

const TOPICS: [&str; 3] = ["session", "three:3", "eight:8"];

/// Keys of 0, 2, 3, 4, 6, 3, 24, 26 and 2 bytes; the hashes of the second, fourth, fifth, seventh and eighth
/// have the sign bit.
const KEYED: [Exchange<'static>; 2] = [
    Exchange {
        line: "POST /topics/three",
        fields: BINARY_BODY,
        body: "{\"records\":[{\"key\":\"\"},{\"key\":\"MjE=\"},{\"key\":\"YWJj\"},{\"key\":\"YWJjZA==\"},{\"key\":\"Zm9vYmFy\"},{\"key\":\"//79\"},{\"key\":\"YS1saXR0bGUtYml0LWxvbmctc3RyaW5n\"},{\"key\":\"YS1saXR0bGUtYml0LWxvbmdlci1zdHJpbmc=\"},{\"key\":\"azM=\"}]}",
        status: OK,
        media: PLAIN,
        told: "{\"offsets\":[{\"partition\":0,\"offset\":0,\"error_code\":null,\"error\":null},{\"partition\":0,\"offset\":1,\"error_code\":null,\"error\":null},{\"partition\":0,\"offset\":2,\"error_code\":null,\"error\":null},{\"partition\":2,\"offset\":0,\"error_code\":null,\"error\":null},{\"partition\":0,\"offset\":3,\"error_code\":null,\"error\":null},{\"partition\":2,\"offset\":1,\"error_code\":null,\"error\":null},{\"partition\":2,\"offset\":2,\"error_code\":null,\"error\":null},{\"partition\":2,\"offset\":3,\"error_code\":null,\"error\":null},{\"partition\":1,\"offset\":0,\"error_code\":null,\"error\":null}],\"key_schema_id\":null,\"value_schema_id\":null}",
    },
    Exchange {
        line: "POST /topics/eight",
        fields: BINARY_BODY,
        body: "{\"records\":[{\"key\":\"\"},{\"key\":\"MjE=\"},{\"key\":\"YWJj\"},{\"key\":\"YWJjZA==\"},{\"key\":\"Zm9vYmFy\"},{\"key\":\"//79\"},{\"key\":\"YS1saXR0bGUtYml0LWxvbmctc3RyaW5n\"},{\"key\":\"YS1saXR0bGUtYml0LWxvbmdlci1zdHJpbmc=\"},{\"key\":\"azM=\"}]}",
        status: OK,
        media: PLAIN,
        told: "{\"offsets\":[{\"partition\":1,\"offset\":0,\"error_code\":null,\"error\":null},{\"partition\":4,\"offset\":0,\"error_code\":null,\"error\":null},{\"partition\":3,\"offset\":0,\"error_code\":null,\"error\":null},{\"partition\":4,\"offset\":1,\"error_code\":null,\"error\":null},{\"partition\":6,\"offset\":0,\"error_code\":null,\"error\":null},{\"partition\":4,\"offset\":2,\"error_code\":null,\"error\":null},{\"partition\":0,\"offset\":0,\"error_code\":null,\"error\":null},{\"partition\":3,\"offset\":1,\"error_code\":null,\"error\":null},{\"partition\":0,\"offset\":1,\"error_code\":null,\"error\":null}],\"key_schema_id\":null,\"value_schema_id\":null}",
    },
];

/// A record without a key goes by its index in the request, whatever stands before it.
const KEYLESS: [Exchange<'static>; 2] = [
    Exchange {
        line: "POST /topics/three",
        fields: BINARY_BODY,
        body: "{\"records\":[{\"value\":\"S2Fma2E=\"},{\"key\":\"YWJj\"},{\"key\":null},{\"partition\":2},{},{\"value\":null}]}",
        status: OK,
        media: PLAIN,
        told: "{\"offsets\":[{\"partition\":0,\"offset\":0,\"error_code\":null,\"error\":null},{\"partition\":0,\"offset\":1,\"error_code\":null,\"error\":null},{\"partition\":2,\"offset\":0,\"error_code\":null,\"error\":null},{\"partition\":2,\"offset\":1,\"error_code\":null,\"error\":null},{\"partition\":1,\"offset\":0,\"error_code\":null,\"error\":null},{\"partition\":2,\"offset\":2,\"error_code\":null,\"error\":null}],\"key_schema_id\":null,\"value_schema_id\":null}",
    },
    Exchange {
        line: "POST /topics/three",
        fields: BINARY_BODY,
        body: "{\"records\":[{},{}]}",
        status: OK,
        media: PLAIN,
        told: "{\"offsets\":[{\"partition\":0,\"offset\":2,\"error_code\":null,\"error\":null},{\"partition\":1,\"offset\":1,\"error_code\":null,\"error\":null}],\"key_schema_id\":null,\"value_schema_id\":null}",
    },
];

/// The key of a record in JSON is the text that is stored, the quotes of a string with it.
const JSON_KEYS: [Exchange<'static>; 1] = [Exchange {
    line: "POST /topics/eight",
    fields: JSON_BODY,
    body: "{\"records\":[{\"key\":\"abc\"},{\"key\":null},{\"key\":{ \"id\" : 7 }},{\"key\":7},{\"key\": 7 }]}",
    status: OK,
    media: PLAIN,
    told: "{\"offsets\":[{\"partition\":4,\"offset\":0,\"error_code\":null,\"error\":null},{\"partition\":1,\"offset\":0,\"error_code\":null,\"error\":null},{\"partition\":5,\"offset\":0,\"error_code\":null,\"error\":null},{\"partition\":3,\"offset\":0,\"error_code\":null,\"error\":null},{\"partition\":3,\"offset\":1,\"error_code\":null,\"error\":null}],\"key_schema_id\":null,\"value_schema_id\":null}",
}];

#[test]
fn keys_choose_as_the_java_client_does(rt: HostRuntime) -> Result<(), Fail> {
    is_session_of(&rt, rt.alloc(), &TOPICS, &KEYED, "0 at 0\n")
}

#[test]
fn records_without_a_key_go_by_their_index(rt: HostRuntime) -> Result<(), Fail> {
    is_session_of(&rt, rt.alloc(), &TOPICS, &KEYLESS, "0 at 0\n")
}

#[test]
fn keys_in_json_choose_by_their_text(rt: HostRuntime) -> Result<(), Fail> {
    is_session_of(&rt, rt.alloc(), &TOPICS, &JSON_KEYS, "0 at 0\n")
}

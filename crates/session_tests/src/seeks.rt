//! Sessions of consumers that seek. The expected bodies are written by hand after docs/API.md.

use crate::exchange::{
    ASSIGN, BINARY, BINARY_BODY, BOTH, CREATE, Exchange, JSON, MADE, NO_CONTENT, NOT_FOUND, OK,
    PARTITION_0, PLAIN, PLAIN_BODY, PRODUCE, RECORDS, UNREADABLE, is_session,
};
use std::test::Fail;

const CONFLICT: &str = "409 Conflict";

const FAILED: &str = "500 Internal Server Error";

const SEEK: &str = "POST /consumers/g/instances/c1/positions";

const TO_START: &str = "POST /consumers/g/instances/c1/positions/beginning";

const TO_END: &str = "POST /consumers/g/instances/c1/positions/end";

const SUBSCRIPTION: &str = "GET /consumers/g/instances/c1/subscription";

const TEN_BYTES: &str = "GET /consumers/g/instances/c1/records?timeout=0&max_bytes=10";

const NOT_ASSIGNED: &str =
    "{\"error_code\":40990,\"message\":\"Partition is not assigned to this instance.\"}";

const CREATED: Exchange<'static> = Exchange {
    line: CREATE,
    fields: PLAIN_BODY,
    body: "{\"name\":\"c1\",\"auto.offset.reset\":\"earliest\"}",
    status: OK,
    media: PLAIN,
    told: MADE,
};

const ASSIGNED: Exchange<'static> = Exchange {
    line: ASSIGN,
    fields: PLAIN_BODY,
    body: PARTITION_0,
    status: NO_CONTENT,
    media: PLAIN,
    told: "",
};

const BOTH_ASSIGNED: Exchange<'static> = Exchange {
    line: ASSIGN,
    fields: PLAIN_BODY,
    body: BOTH,
    status: NO_CONTENT,
    media: PLAIN,
    told: "",
};

/// What was read is read again from the position on. A partition that isn't assigned moves none.
const BACK: [Exchange<'static>; 14] = [
    Exchange {
        line: PRODUCE,
        fields: BINARY_BODY,
        body: "{\"records\":[{\"value\":\"S2Fma2E=\",\"partition\":0},{\"value\":\"S2Fma2E=\",\"partition\":0},{\"value\":\"S2Fma2E=\",\"partition\":0}]}",
        status: OK,
        media: PLAIN,
        told: "{\"offsets\":[{\"partition\":0,\"offset\":0,\"error_code\":null,\"error\":null},{\"partition\":0,\"offset\":1,\"error_code\":null,\"error\":null},{\"partition\":0,\"offset\":2,\"error_code\":null,\"error\":null}],\"key_schema_id\":null,\"value_schema_id\":null}",
    },
    CREATED,
    ASSIGNED,
    Exchange {
        line: TEN_BYTES,
        fields: "",
        body: "",
        status: OK,
        media: BINARY,
        told: "[{\"topic\":\"orders\",\"key\":null,\"value\":\"S2Fma2E=\",\"partition\":0,\"offset\":0},{\"topic\":\"orders\",\"key\":null,\"value\":\"S2Fma2E=\",\"partition\":0,\"offset\":1}]",
    },
    Exchange {
        line: SEEK,
        fields: PLAIN_BODY,
        body: "{\"offsets\":[{\"topic\":\"orders\",\"partition\":0,\"offset\":1}]}",
        status: NO_CONTENT,
        media: PLAIN,
        told: "",
    },
    Exchange {
        line: RECORDS,
        fields: "",
        body: "",
        status: OK,
        media: BINARY,
        told: "[{\"topic\":\"orders\",\"key\":null,\"value\":\"S2Fma2E=\",\"partition\":0,\"offset\":1},{\"topic\":\"orders\",\"key\":null,\"value\":\"S2Fma2E=\",\"partition\":0,\"offset\":2}]",
    },
    Exchange {
        line: SEEK,
        fields: PLAIN_BODY,
        body: "{\"offsets\":[{\"topic\":\"orders\",\"partition\":1,\"offset\":0}]}",
        status: CONFLICT,
        media: PLAIN,
        told: NOT_ASSIGNED,
    },
    Exchange {
        line: RECORDS,
        fields: "",
        body: "",
        status: OK,
        media: BINARY,
        told: "[]",
    },
    Exchange {
        line: SEEK,
        fields: PLAIN_BODY,
        body: "{\"offsets\":[{\"topic\":\"orders\",\"partition\":0,\"offset\":0},{\"topic\":\"orders\",\"partition\":1,\"offset\":0}]}",
        status: CONFLICT,
        media: PLAIN,
        told: NOT_ASSIGNED,
    },
    Exchange {
        line: RECORDS,
        fields: "",
        body: "",
        status: OK,
        media: BINARY,
        told: "[]",
    },
    Exchange {
        line: SEEK,
        fields: PLAIN_BODY,
        body: "{\"offsets\":[]}",
        status: NO_CONTENT,
        media: PLAIN,
        told: "",
    },
    Exchange {
        line: RECORDS,
        fields: "",
        body: "",
        status: OK,
        media: BINARY,
        told: "[]",
    },
    Exchange {
        line: SEEK,
        fields: PLAIN_BODY,
        body: "{\"offsets\":[{\"topic\":\"orders\",\"partition\":0,\"offset\":0},{\"topic\":\"orders\",\"partition\":0,\"offset\":2},{\"topic\":\"orders\",\"partition\":0,\"offset\":1}]}",
        status: NO_CONTENT,
        media: PLAIN,
        told: "",
    },
    Exchange {
        line: RECORDS,
        fields: "",
        body: "",
        status: OK,
        media: BINARY,
        told: "[{\"topic\":\"orders\",\"key\":null,\"value\":\"S2Fma2E=\",\"partition\":0,\"offset\":1},{\"topic\":\"orders\",\"key\":null,\"value\":\"S2Fma2E=\",\"partition\":0,\"offset\":2}]",
    },
];

/// A position behind the end is out of range, so the next read begins by the reset setting.
const BEYOND: [Exchange<'static>; 9] = [
    Exchange {
        line: PRODUCE,
        fields: BINARY_BODY,
        body: "{\"records\":[{\"value\":\"S2Fma2E=\",\"partition\":0},{\"value\":\"S2Fma2E=\",\"partition\":0},{\"value\":\"S2Fma2E=\",\"partition\":0}]}",
        status: OK,
        media: PLAIN,
        told: "{\"offsets\":[{\"partition\":0,\"offset\":0,\"error_code\":null,\"error\":null},{\"partition\":0,\"offset\":1,\"error_code\":null,\"error\":null},{\"partition\":0,\"offset\":2,\"error_code\":null,\"error\":null}],\"key_schema_id\":null,\"value_schema_id\":null}",
    },
    CREATED,
    ASSIGNED,
    Exchange {
        line: SEEK,
        fields: PLAIN_BODY,
        body: "{\"offsets\":[{\"topic\":\"orders\",\"partition\":0,\"offset\":99}]}",
        status: NO_CONTENT,
        media: PLAIN,
        told: "",
    },
    Exchange {
        line: RECORDS,
        fields: "",
        body: "",
        status: OK,
        media: BINARY,
        told: "[{\"topic\":\"orders\",\"key\":null,\"value\":\"S2Fma2E=\",\"partition\":0,\"offset\":0},{\"topic\":\"orders\",\"key\":null,\"value\":\"S2Fma2E=\",\"partition\":0,\"offset\":1},{\"topic\":\"orders\",\"key\":null,\"value\":\"S2Fma2E=\",\"partition\":0,\"offset\":2}]",
    },
    Exchange {
        line: SEEK,
        fields: PLAIN_BODY,
        body: "{\"offsets\":[{\"topic\":\"orders\",\"partition\":0,\"offset\":9223372036854775807}]}",
        status: NO_CONTENT,
        media: PLAIN,
        told: "",
    },
    Exchange {
        line: RECORDS,
        fields: "",
        body: "",
        status: OK,
        media: BINARY,
        told: "[{\"topic\":\"orders\",\"key\":null,\"value\":\"S2Fma2E=\",\"partition\":0,\"offset\":0},{\"topic\":\"orders\",\"key\":null,\"value\":\"S2Fma2E=\",\"partition\":0,\"offset\":1},{\"topic\":\"orders\",\"key\":null,\"value\":\"S2Fma2E=\",\"partition\":0,\"offset\":2}]",
    },
    Exchange {
        line: SEEK,
        fields: PLAIN_BODY,
        body: "{\"offsets\":[{\"topic\":\"orders\",\"partition\":0,\"offset\":3}]}",
        status: NO_CONTENT,
        media: PLAIN,
        told: "",
    },
    Exchange {
        line: RECORDS,
        fields: "",
        body: "",
        status: OK,
        media: BINARY,
        told: "[]",
    },
];

/// With `latest` what comes behind is read.
const LATEST: [Exchange<'static>; 7] = [
    Exchange {
        line: PRODUCE,
        fields: BINARY_BODY,
        body: "{\"records\":[{\"value\":\"S2Fma2E=\",\"partition\":0},{\"value\":\"S2Fma2E=\",\"partition\":0},{\"value\":\"S2Fma2E=\",\"partition\":0}]}",
        status: OK,
        media: PLAIN,
        told: "{\"offsets\":[{\"partition\":0,\"offset\":0,\"error_code\":null,\"error\":null},{\"partition\":0,\"offset\":1,\"error_code\":null,\"error\":null},{\"partition\":0,\"offset\":2,\"error_code\":null,\"error\":null}],\"key_schema_id\":null,\"value_schema_id\":null}",
    },
    Exchange {
        line: CREATE,
        fields: PLAIN_BODY,
        body: "{\"name\":\"c1\"}",
        status: OK,
        media: PLAIN,
        told: MADE,
    },
    ASSIGNED,
    Exchange {
        line: SEEK,
        fields: PLAIN_BODY,
        body: "{\"offsets\":[{\"topic\":\"orders\",\"partition\":0,\"offset\":99}]}",
        status: NO_CONTENT,
        media: PLAIN,
        told: "",
    },
    Exchange {
        line: RECORDS,
        fields: "",
        body: "",
        status: OK,
        media: BINARY,
        told: "[]",
    },
    Exchange {
        line: PRODUCE,
        fields: BINARY_BODY,
        body: "{\"records\":[{\"value\":\"S2Fma2E=\",\"partition\":0}]}",
        status: OK,
        media: PLAIN,
        told: "{\"offsets\":[{\"partition\":0,\"offset\":3,\"error_code\":null,\"error\":null}],\"key_schema_id\":null,\"value_schema_id\":null}",
    },
    Exchange {
        line: RECORDS,
        fields: "",
        body: "",
        status: OK,
        media: BINARY,
        told: "[{\"topic\":\"orders\",\"key\":null,\"value\":\"S2Fma2E=\",\"partition\":0,\"offset\":3}]",
    },
];

/// To the end and back to the beginning, of those partitions alone that are listed.
const EDGES: [Exchange<'static>; 19] = [
    Exchange {
        line: PRODUCE,
        fields: BINARY_BODY,
        body: "{\"records\":[{\"value\":\"S2Fma2E=\",\"partition\":0},{\"value\":\"S2Fma2E=\",\"partition\":0}]}",
        status: OK,
        media: PLAIN,
        told: "{\"offsets\":[{\"partition\":0,\"offset\":0,\"error_code\":null,\"error\":null},{\"partition\":0,\"offset\":1,\"error_code\":null,\"error\":null}],\"key_schema_id\":null,\"value_schema_id\":null}",
    },
    Exchange {
        line: PRODUCE,
        fields: BINARY_BODY,
        body: "{\"records\":[{\"value\":\"S2Fma2E=\",\"partition\":1}]}",
        status: OK,
        media: PLAIN,
        told: "{\"offsets\":[{\"partition\":1,\"offset\":0,\"error_code\":null,\"error\":null}],\"key_schema_id\":null,\"value_schema_id\":null}",
    },
    CREATED,
    BOTH_ASSIGNED,
    Exchange {
        line: TO_END,
        fields: PLAIN_BODY,
        body: "{\"partitions\":[{\"topic\":\"orders\",\"partition\":0}]}",
        status: NO_CONTENT,
        media: PLAIN,
        told: "",
    },
    Exchange {
        line: RECORDS,
        fields: "",
        body: "",
        status: OK,
        media: BINARY,
        told: "[{\"topic\":\"orders\",\"key\":null,\"value\":\"S2Fma2E=\",\"partition\":1,\"offset\":0}]",
    },
    Exchange {
        line: PRODUCE,
        fields: BINARY_BODY,
        body: "{\"records\":[{\"value\":\"S2Fma2E=\",\"partition\":0}]}",
        status: OK,
        media: PLAIN,
        told: "{\"offsets\":[{\"partition\":0,\"offset\":2,\"error_code\":null,\"error\":null}],\"key_schema_id\":null,\"value_schema_id\":null}",
    },
    Exchange {
        line: RECORDS,
        fields: "",
        body: "",
        status: OK,
        media: BINARY,
        told: "[{\"topic\":\"orders\",\"key\":null,\"value\":\"S2Fma2E=\",\"partition\":0,\"offset\":2}]",
    },
    Exchange {
        line: TO_START,
        fields: PLAIN_BODY,
        body: "{\"partitions\":[{\"topic\":\"orders\",\"partition\":0},{\"topic\":\"orders\",\"partition\":1},{\"topic\":\"orders\",\"partition\":0}]}",
        status: NO_CONTENT,
        media: PLAIN,
        told: "",
    },
    Exchange {
        line: RECORDS,
        fields: "",
        body: "",
        status: OK,
        media: BINARY,
        told: "[{\"topic\":\"orders\",\"key\":null,\"value\":\"S2Fma2E=\",\"partition\":1,\"offset\":0},{\"topic\":\"orders\",\"key\":null,\"value\":\"S2Fma2E=\",\"partition\":0,\"offset\":0},{\"topic\":\"orders\",\"key\":null,\"value\":\"S2Fma2E=\",\"partition\":0,\"offset\":1},{\"topic\":\"orders\",\"key\":null,\"value\":\"S2Fma2E=\",\"partition\":0,\"offset\":2}]",
    },
    Exchange {
        line: TO_START,
        fields: PLAIN_BODY,
        body: "{\"partitions\":[]}",
        status: NO_CONTENT,
        media: PLAIN,
        told: "",
    },
    Exchange {
        line: RECORDS,
        fields: "",
        body: "",
        status: OK,
        media: BINARY,
        told: "[]",
    },
    Exchange {
        line: TO_START,
        fields: PLAIN_BODY,
        body: "{\"partitions\":[{\"topic\":\"orders\",\"partition\":0},{\"topic\":\"orders\",\"partition\":1}]}",
        status: NO_CONTENT,
        media: PLAIN,
        told: "",
    },
    Exchange {
        line: TO_END,
        fields: PLAIN_BODY,
        body: "{\"partitions\":[{\"topic\":\"orders\",\"partition\":1},{\"topic\":\"orders\",\"partition\":0}]}",
        status: NO_CONTENT,
        media: PLAIN,
        told: "",
    },
    Exchange {
        line: RECORDS,
        fields: "",
        body: "",
        status: OK,
        media: BINARY,
        told: "[]",
    },
    Exchange {
        line: TO_START,
        fields: PLAIN_BODY,
        body: "{\"partitions\":[{\"topic\":\"orders\",\"partition\":0},{\"topic\":\"orders\",\"partition\":2}]}",
        status: CONFLICT,
        media: PLAIN,
        told: NOT_ASSIGNED,
    },
    Exchange {
        line: RECORDS,
        fields: "",
        body: "",
        status: OK,
        media: BINARY,
        told: "[]",
    },
    Exchange {
        line: TO_END,
        fields: PLAIN_BODY,
        body: "{\"partitions\":[{\"topic\":\"nope\",\"partition\":0}]}",
        status: CONFLICT,
        media: PLAIN,
        told: NOT_ASSIGNED,
    },
    Exchange {
        line: RECORDS,
        fields: "",
        body: "",
        status: OK,
        media: BINARY,
        told: "[]",
    },
];

/// A record that doesn't read is passed over by a seek behind it.
const PASSED: [Exchange<'static>; 6] = [
    Exchange {
        line: PRODUCE,
        fields: BINARY_BODY,
        body: "{\"records\":[{\"value\":\"bm8=\",\"partition\":0}]}",
        status: OK,
        media: PLAIN,
        told: "{\"offsets\":[{\"partition\":0,\"offset\":0,\"error_code\":null,\"error\":null}],\"key_schema_id\":null,\"value_schema_id\":null}",
    },
    Exchange {
        line: CREATE,
        fields: PLAIN_BODY,
        body: "{\"name\":\"c1\",\"format\":\"json\",\"auto.offset.reset\":\"earliest\"}",
        status: OK,
        media: PLAIN,
        told: MADE,
    },
    ASSIGNED,
    Exchange {
        line: RECORDS,
        fields: "",
        body: "",
        status: FAILED,
        media: PLAIN,
        told: "{\"error_code\":50002,\"message\":\"Record does not read: topic orders, partition 0, offset 0, reason 2.\"}",
    },
    Exchange {
        line: SEEK,
        fields: PLAIN_BODY,
        body: "{\"offsets\":[{\"topic\":\"orders\",\"partition\":0,\"offset\":1}]}",
        status: NO_CONTENT,
        media: PLAIN,
        told: "",
    },
    Exchange {
        line: RECORDS,
        fields: "",
        body: "",
        status: OK,
        media: JSON,
        told: "[]",
    },
];

/// What doesn't read, and what names no instance, moves nothing.
const REFUSED: [Exchange<'static>; 16] = [
    Exchange {
        line: SEEK,
        fields: PLAIN_BODY,
        body: "{\"offsets\":[{\"topic\":\"orders\",\"partition\":0,\"offset\":0}]}",
        status: NOT_FOUND,
        media: PLAIN,
        told: "{\"error_code\":40403,\"message\":\"Consumer instance not found.\"}",
    },
    Exchange {
        line: TO_START,
        fields: PLAIN_BODY,
        body: "{\"partitions\":[{\"topic\":\"orders\",\"partition\":0}]}",
        status: NOT_FOUND,
        media: PLAIN,
        told: "{\"error_code\":40403,\"message\":\"Consumer instance not found.\"}",
    },
    Exchange {
        line: SUBSCRIPTION,
        fields: "",
        body: "",
        status: NOT_FOUND,
        media: PLAIN,
        told: "{\"error_code\":40403,\"message\":\"Consumer instance not found.\"}",
    },
    Exchange {
        line: PRODUCE,
        fields: BINARY_BODY,
        body: "{\"records\":[{\"value\":\"S2Fma2E=\",\"partition\":0}]}",
        status: OK,
        media: PLAIN,
        told: "{\"offsets\":[{\"partition\":0,\"offset\":0,\"error_code\":null,\"error\":null}],\"key_schema_id\":null,\"value_schema_id\":null}",
    },
    CREATED,
    ASSIGNED,
    Exchange {
        line: RECORDS,
        fields: "",
        body: "",
        status: OK,
        media: BINARY,
        told: "[{\"topic\":\"orders\",\"key\":null,\"value\":\"S2Fma2E=\",\"partition\":0,\"offset\":0}]",
    },
    Exchange {
        line: SEEK,
        fields: PLAIN_BODY,
        body: "{\"offsets\":[{\"topic\":\"orders\",\"partition\":0}]}",
        status: UNREADABLE,
        media: PLAIN,
        told: "{\"error_code\":422,\"message\":\"Body does not read.\"}",
    },
    Exchange {
        line: SEEK,
        fields: PLAIN_BODY,
        body: "{\"offsets\":[{\"topic\":\"orders\",\"partition\":0,\"offset\":-1}]}",
        status: UNREADABLE,
        media: PLAIN,
        told: "{\"error_code\":422,\"message\":\"Body does not read.\"}",
    },
    Exchange {
        line: SEEK,
        fields: PLAIN_BODY,
        body: "{\"offsets\":[{\"topic\":\"orders\",\"partition\":0,\"offset\":9223372036854775808}]}",
        status: UNREADABLE,
        media: PLAIN,
        told: "{\"error_code\":422,\"message\":\"Body does not read.\"}",
    },
    Exchange {
        line: SEEK,
        fields: PLAIN_BODY,
        body: "{\"offsets\":[{\"topic\":\"orders\",\"partition\":0,\"offset\":\"0\"}]}",
        status: UNREADABLE,
        media: PLAIN,
        told: "{\"error_code\":422,\"message\":\"Body does not read.\"}",
    },
    Exchange {
        line: SEEK,
        fields: PLAIN_BODY,
        body: "{\"offsets\":[{\"topic\":\"orders\",\"partition\":0,\"offset\":0},{\"partition\":0,\"offset\":0}]}",
        status: UNREADABLE,
        media: PLAIN,
        told: "{\"error_code\":422,\"message\":\"Body does not read.\"}",
    },
    Exchange {
        line: SEEK,
        fields: PLAIN_BODY,
        body: "{\"partitions\":[{\"topic\":\"orders\",\"partition\":0}]}",
        status: UNREADABLE,
        media: PLAIN,
        told: "{\"error_code\":422,\"message\":\"Body does not read.\"}",
    },
    Exchange {
        line: TO_END,
        fields: PLAIN_BODY,
        body: "{\"offsets\":[{\"topic\":\"orders\",\"partition\":0,\"offset\":0}]}",
        status: UNREADABLE,
        media: PLAIN,
        told: "{\"error_code\":422,\"message\":\"Body does not read.\"}",
    },
    Exchange {
        line: RECORDS,
        fields: "",
        body: "",
        status: OK,
        media: BINARY,
        told: "[]",
    },
    Exchange {
        line: SUBSCRIPTION,
        fields: "",
        body: "",
        status: OK,
        media: PLAIN,
        told: "{\"topics\":[]}",
    },
];

#[test]
fn what_was_read_is_read_again_from_the_position_on(rt: HostRuntime) -> Result<(), Fail> {
    is_session(&rt, rt.alloc(), &BACK, "0 at 0\n")
}

#[test]
fn behind_the_end_is_out_of_range(rt: HostRuntime) -> Result<(), Fail> {
    is_session(&rt, rt.alloc(), &BEYOND, "0 at 0\n")
}

#[test]
fn behind_the_end_with_latest_only_what_comes_is_read(rt: HostRuntime) -> Result<(), Fail> {
    is_session(&rt, rt.alloc(), &LATEST, "0 at 0\n")
}

#[test]
fn to_the_end_and_back_to_the_beginning(rt: HostRuntime) -> Result<(), Fail> {
    is_session(&rt, rt.alloc(), &EDGES, "0 at 0\n")
}

#[test]
fn a_seek_passes_over_what_does_not_read(rt: HostRuntime) -> Result<(), Fail> {
    is_session(&rt, rt.alloc(), &PASSED, "0 at 0\n")
}

#[test]
fn what_does_not_read_moves_nothing(rt: HostRuntime) -> Result<(), Fail> {
    is_session(&rt, rt.alloc(), &REFUSED, "0 at 0\n")
}

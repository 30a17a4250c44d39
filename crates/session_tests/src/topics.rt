//! Sessions of questions on brokers, topics and partitions, over two topics. The expected bodies are written
//! by hand after docs/API.md.

use crate::exchange::{BINARY_BODY, Exchange, NOT_FOUND, OK, PLAIN, PRODUCE, is_session_of};
use std::test::Fail;

const TOPICS: [&str; 3] = ["session", "orders:2", "a:1"];

/// Topics stand by their bytes, and the end of a partition is behind what is stored there.
const TOLD: [Exchange<'static>; 10] = [
    Exchange {
        line: "GET /brokers",
        fields: "",
        body: "",
        status: OK,
        media: PLAIN,
        told: "{\"brokers\":[1]}",
    },
    Exchange {
        line: "GET /topics",
        fields: "",
        body: "",
        status: OK,
        media: PLAIN,
        told: "[\"a\",\"orders\"]",
    },
    Exchange {
        line: "GET /topics/orders",
        fields: "",
        body: "",
        status: OK,
        media: PLAIN,
        told: "{\"name\":\"orders\",\"configs\":{},\"partitions\":[{\"partition\":0,\"leader\":1,\"replicas\":[{\"broker\":1,\"leader\":true,\"in_sync\":true}]},{\"partition\":1,\"leader\":1,\"replicas\":[{\"broker\":1,\"leader\":true,\"in_sync\":true}]}]}",
    },
    Exchange {
        line: "GET /topics/a/partitions",
        fields: "",
        body: "",
        status: OK,
        media: PLAIN,
        told: "[{\"partition\":0,\"leader\":1,\"replicas\":[{\"broker\":1,\"leader\":true,\"in_sync\":true}]}]",
    },
    Exchange {
        line: "GET /topics/orders/partitions/1",
        fields: "",
        body: "",
        status: OK,
        media: PLAIN,
        told: "{\"partition\":1,\"leader\":1,\"replicas\":[{\"broker\":1,\"leader\":true,\"in_sync\":true}]}",
    },
    Exchange {
        line: "GET /topics/orders/partitions/1/offsets",
        fields: "",
        body: "",
        status: OK,
        media: PLAIN,
        told: "{\"beginning_offset\":0,\"end_offset\":0}",
    },
    Exchange {
        line: PRODUCE,
        fields: BINARY_BODY,
        body: "{\"records\":[{\"partition\":1},{\"partition\":1},{\"partition\":0},{\"partition\":1}]}",
        status: OK,
        media: PLAIN,
        told: "{\"offsets\":[{\"partition\":1,\"offset\":0,\"error_code\":null,\"error\":null},{\"partition\":1,\"offset\":1,\"error_code\":null,\"error\":null},{\"partition\":0,\"offset\":0,\"error_code\":null,\"error\":null},{\"partition\":1,\"offset\":2,\"error_code\":null,\"error\":null}],\"key_schema_id\":null,\"value_schema_id\":null}",
    },
    Exchange {
        line: "GET /topics/orders/partitions/1/offsets",
        fields: "",
        body: "",
        status: OK,
        media: PLAIN,
        told: "{\"beginning_offset\":0,\"end_offset\":3}",
    },
    Exchange {
        line: "GET /topics/orders/partitions/0/offsets",
        fields: "",
        body: "",
        status: OK,
        media: PLAIN,
        told: "{\"beginning_offset\":0,\"end_offset\":1}",
    },
    Exchange {
        line: "GET /topics/a/partitions/0/offsets",
        fields: "",
        body: "",
        status: OK,
        media: PLAIN,
        told: "{\"beginning_offset\":0,\"end_offset\":0}",
    },
];

/// A topic or a partition that the log hasn't.
const LACKING: [Exchange<'static>; 8] = [
    Exchange {
        line: "GET /topics/nope",
        fields: "",
        body: "",
        status: NOT_FOUND,
        media: PLAIN,
        told: "{\"error_code\":40401,\"message\":\"Topic not found.\"}",
    },
    Exchange {
        line: "GET /topics/nope/partitions",
        fields: "",
        body: "",
        status: NOT_FOUND,
        media: PLAIN,
        told: "{\"error_code\":40401,\"message\":\"Topic not found.\"}",
    },
    Exchange {
        line: "GET /topics/nope/partitions/0",
        fields: "",
        body: "",
        status: NOT_FOUND,
        media: PLAIN,
        told: "{\"error_code\":40401,\"message\":\"Topic not found.\"}",
    },
    Exchange {
        line: "GET /topics/nope/partitions/0/offsets",
        fields: "",
        body: "",
        status: NOT_FOUND,
        media: PLAIN,
        told: "{\"error_code\":40401,\"message\":\"Topic not found.\"}",
    },
    Exchange {
        line: "GET /topics/a/partitions/1",
        fields: "",
        body: "",
        status: NOT_FOUND,
        media: PLAIN,
        told: "{\"error_code\":40402,\"message\":\"Partition not found.\"}",
    },
    Exchange {
        line: "GET /topics/a/partitions/1/offsets",
        fields: "",
        body: "",
        status: NOT_FOUND,
        media: PLAIN,
        told: "{\"error_code\":40402,\"message\":\"Partition not found.\"}",
    },
    Exchange {
        line: "GET /topics/a/partitions/2147483647",
        fields: "",
        body: "",
        status: NOT_FOUND,
        media: PLAIN,
        told: "{\"error_code\":40402,\"message\":\"Partition not found.\"}",
    },
    Exchange {
        line: "GET /topics/a/partitions/2147483648",
        fields: "",
        body: "",
        status: NOT_FOUND,
        media: PLAIN,
        told: "{\"error_code\":404,\"message\":\"Not found.\"}",
    },
];

#[test]
fn brokers_topics_and_partitions_are_told(rt: HostRuntime) -> Result<(), Fail> {
    is_session_of(&rt, rt.alloc(), &TOPICS, &TOLD, "0 at 0\n")
}

#[test]
fn what_the_log_lacks_is_told_apart(rt: HostRuntime) -> Result<(), Fail> {
    is_session_of(&rt, rt.alloc(), &TOPICS, &LACKING, "0 at 0\n")
}

//! Sessions of produces and consumers over two partitions of `orders`. The expected bodies are written by
//! hand after docs/API.md.

use crate::exchange::{
    ASSIGN, BINARY, BINARY_BODY, BOTH, Exchange, MADE, OK, PARTITION_0, PLAIN, PLAIN_BODY, PRODUCE,
    RECORDS, WAITING, is_session, requests_of, responses_of,
};
use crate::sessions::text;
use broker_link::{Fail as LinkFail, MemLink};
use desk::AloneDesk;
use gate_io::{Items, MemClock, MemSink, MemSource, Text};
use http_conn::ConnNo;
use proxy_cli::{Ended, serve_stream};
use std::alloc::Global;
use std::process::Abort;
use std::test::Fail;

const EARLIEST: &str = "{\"name\":\"c1\",\"auto.offset.reset\":\"earliest\"}";

const ONE_BYTE: &str = "GET /consumers/g/instances/c1/records?timeout=0&max_bytes=1";

/// A refused produce stores nothing: the offsets behind it tell.
const PRODUCES: [Exchange<'static>; 9] = [
    Exchange {
        line: PRODUCE,
        fields: BINARY_BODY,
        body: "{\"records\":[{\"value\":\"S2Fma2E=\",\"partition\":0}]}",
        status: OK,
        media: PLAIN,
        told: "{\"offsets\":[{\"partition\":0,\"offset\":0,\"error_code\":null,\"error\":null}],\"key_schema_id\":null,\"value_schema_id\":null}",
    },
    Exchange {
        line: "POST /topics/nope",
        fields: BINARY_BODY,
        body: "{\"records\":[{\"value\":\"S2Fma2E=\",\"partition\":0}]}",
        status: "404 Not Found",
        media: PLAIN,
        told: "{\"error_code\":40401,\"message\":\"Topic not found.\"}",
    },
    Exchange {
        line: PRODUCE,
        fields: BINARY_BODY,
        body: "{\"records\":[{\"value\":\"S2Fma2E=\",\"partition\":2}]}",
        status: "404 Not Found",
        media: PLAIN,
        told: "{\"error_code\":40402,\"message\":\"Partition not found.\"}",
    },
    Exchange {
        line: PRODUCE,
        fields: BINARY_BODY,
        body: "{\"records\":[]}",
        status: "422 Unprocessable Entity",
        media: PLAIN,
        told: "{\"error_code\":422,\"message\":\"Body does not read.\"}",
    },
    Exchange {
        line: PRODUCE,
        fields: BINARY_BODY,
        body: "{\"records\":[{\"value\":\"S2F\",\"partition\":0}]}",
        status: "422 Unprocessable Entity",
        media: PLAIN,
        told: "{\"error_code\":422,\"message\":\"Body does not read.\"}",
    },
    Exchange {
        line: PRODUCE,
        fields: BINARY_BODY,
        body: "{\"records\":[{\"value\":\"S2Fma2E=\",\"partition\":\"0\"}]}",
        status: "422 Unprocessable Entity",
        media: PLAIN,
        told: "{\"error_code\":422,\"message\":\"Body does not read.\"}",
    },
    Exchange {
        line: PRODUCE,
        fields: BINARY_BODY,
        body: "{\"records\":[{\"value\":\"S2Fma2E=\",\"partition\":0},{\"partition\":2}]}",
        status: "404 Not Found",
        media: PLAIN,
        told: "{\"error_code\":40402,\"message\":\"Partition not found.\"}",
    },
    Exchange {
        line: PRODUCE,
        fields: BINARY_BODY,
        body: "{\"records\":[{\"value\":\"S2Fma2E=\",\"partition\":0},{\"value\":\"S2F\",\"partition\":0}]}",
        status: "422 Unprocessable Entity",
        media: PLAIN,
        told: "{\"error_code\":422,\"message\":\"Body does not read.\"}",
    },
    Exchange {
        line: PRODUCE,
        fields: BINARY_BODY,
        body: "{\"records\":[{\"partition\":1},{\"partition\":0},{\"partition\":1}]}",
        status: OK,
        media: PLAIN,
        told: "{\"offsets\":[{\"partition\":1,\"offset\":0,\"error_code\":null,\"error\":null},{\"partition\":0,\"offset\":1,\"error_code\":null,\"error\":null},{\"partition\":1,\"offset\":1,\"error_code\":null,\"error\":null}],\"key_schema_id\":null,\"value_schema_id\":null}",
    },
];

/// Kafka's clients place the key `abc` by its hash 479470107, which is odd.
const CHOSEN: [Exchange<'static>; 4] = [
    Exchange {
        line: PRODUCE,
        fields: BINARY_BODY,
        body: "{\"records\":[{\"value\":\"S2Fma2E=\"},{\"key\":\"YWJj\"},{\"value\":\"bm8=\"},{\"partition\":1},{}]}",
        status: OK,
        media: PLAIN,
        told: "{\"offsets\":[{\"partition\":0,\"offset\":0,\"error_code\":null,\"error\":null},{\"partition\":1,\"offset\":0,\"error_code\":null,\"error\":null},{\"partition\":0,\"offset\":1,\"error_code\":null,\"error\":null},{\"partition\":1,\"offset\":1,\"error_code\":null,\"error\":null},{\"partition\":0,\"offset\":2,\"error_code\":null,\"error\":null}],\"key_schema_id\":null,\"value_schema_id\":null}",
    },
    Exchange {
        line: PRODUCE,
        fields: BINARY_BODY,
        body: "{\"records\":[{\"value\":\"S2Fma2E=\"},{\"partition\":2}]}",
        status: "404 Not Found",
        media: PLAIN,
        told: "{\"error_code\":40402,\"message\":\"Partition not found.\"}",
    },
    Exchange {
        line: "POST /topics/orders/partitions/1",
        fields: BINARY_BODY,
        body: "{\"records\":[{\"value\":\"S2Fma2E=\",\"partition\":0}]}",
        status: OK,
        media: PLAIN,
        told: "{\"offsets\":[{\"partition\":1,\"offset\":2,\"error_code\":null,\"error\":null}],\"key_schema_id\":null,\"value_schema_id\":null}",
    },
    Exchange {
        line: "POST /topics/orders/partitions/2",
        fields: BINARY_BODY,
        body: "{\"records\":[{\"value\":\"S2Fma2E=\",\"partition\":0}]}",
        status: "404 Not Found",
        media: PLAIN,
        told: "{\"error_code\":40402,\"message\":\"Partition not found.\"}",
    },
];

const NAMED: [Exchange<'static>; 7] = [
    Exchange {
        line: "POST /consumers/g",
        fields: PLAIN_BODY,
        body: EARLIEST,
        status: OK,
        media: PLAIN,
        told: MADE,
    },
    Exchange {
        line: "POST /consumers/g",
        fields: PLAIN_BODY,
        body: EARLIEST,
        status: "409 Conflict",
        media: PLAIN,
        told: "{\"error_code\":40902,\"message\":\"Consumer instance with the specified name already exists.\"}",
    },
    Exchange {
        line: "POST /consumers/g",
        fields: "",
        body: "",
        status: OK,
        media: PLAIN,
        told: "{\"instance_id\":\"auto-0-1\",\"base_uri\":\"http://localhost:8082/consumers/g/instances/auto-0-1\"}",
    },
    Exchange {
        line: "POST /consumers/g",
        fields: "",
        body: "",
        status: OK,
        media: PLAIN,
        told: "{\"instance_id\":\"auto-0-2\",\"base_uri\":\"http://localhost:8082/consumers/g/instances/auto-0-2\"}",
    },
    Exchange {
        line: "POST /consumers/g",
        fields: PLAIN_BODY,
        body: "{\"name\":\"auto-x\"}",
        status: "422 Unprocessable Entity",
        media: PLAIN,
        told: "{\"error_code\":42204,\"message\":\"Invalid consumer configuration.\"}",
    },
    Exchange {
        line: "DELETE /consumers/g/instances/c1",
        fields: "",
        body: "",
        status: "204 No Content",
        media: PLAIN,
        told: "",
    },
    Exchange {
        line: "DELETE /consumers/g/instances/c1",
        fields: "",
        body: "",
        status: "404 Not Found",
        media: PLAIN,
        told: "{\"error_code\":40403,\"message\":\"Consumer instance not found.\"}",
    },
];

const ONE_BY_ONE: [Exchange<'static>; 10] = [
    Exchange {
        line: PRODUCE,
        fields: BINARY_BODY,
        body: "{\"records\":[{\"value\":\"S2Fma2E=\",\"partition\":0},{\"value\":\"S2Fma2E=\",\"partition\":0},{\"value\":\"S2Fma2E=\",\"partition\":0}]}",
        status: OK,
        media: PLAIN,
        told: "{\"offsets\":[{\"partition\":0,\"offset\":0,\"error_code\":null,\"error\":null},{\"partition\":0,\"offset\":1,\"error_code\":null,\"error\":null},{\"partition\":0,\"offset\":2,\"error_code\":null,\"error\":null}],\"key_schema_id\":null,\"value_schema_id\":null}",
    },
    Exchange {
        line: "POST /consumers/g",
        fields: PLAIN_BODY,
        body: EARLIEST,
        status: OK,
        media: PLAIN,
        told: MADE,
    },
    Exchange {
        line: ASSIGN,
        fields: PLAIN_BODY,
        body: PARTITION_0,
        status: "204 No Content",
        media: PLAIN,
        told: "",
    },
    Exchange {
        line: "GET /consumers/g/instances/c1/assignments",
        fields: "",
        body: "",
        status: OK,
        media: PLAIN,
        told: PARTITION_0,
    },
    Exchange {
        line: ONE_BYTE,
        fields: "",
        body: "",
        status: "200 OK",
        media: BINARY,
        told: "[{\"topic\":\"orders\",\"key\":null,\"value\":\"S2Fma2E=\",\"partition\":0,\"offset\":0}]",
    },
    Exchange {
        line: ONE_BYTE,
        fields: "",
        body: "",
        status: "200 OK",
        media: BINARY,
        told: "[{\"topic\":\"orders\",\"key\":null,\"value\":\"S2Fma2E=\",\"partition\":0,\"offset\":1}]",
    },
    Exchange {
        line: ONE_BYTE,
        fields: "",
        body: "",
        status: "200 OK",
        media: BINARY,
        told: "[{\"topic\":\"orders\",\"key\":null,\"value\":\"S2Fma2E=\",\"partition\":0,\"offset\":2}]",
    },
    Exchange {
        line: ONE_BYTE,
        fields: "",
        body: "",
        status: "200 OK",
        media: BINARY,
        told: "[]",
    },
    Exchange {
        line: ASSIGN,
        fields: PLAIN_BODY,
        body: "{\"partitions\":[{\"topic\":\"orders\",\"partition\":2}]}",
        status: "404 Not Found",
        media: PLAIN,
        told: "{\"error_code\":40402,\"message\":\"Partition not found.\"}",
    },
    Exchange {
        line: "GET /consumers/g/instances/c2/records",
        fields: "",
        body: "",
        status: "404 Not Found",
        media: PLAIN,
        told: "{\"error_code\":40403,\"message\":\"Consumer instance not found.\"}",
    },
];

const ALL_AT_ONCE: [Exchange<'static>; 5] = [
    Exchange {
        line: PRODUCE,
        fields: BINARY_BODY,
        body: "{\"records\":[{\"value\":\"S2Fma2E=\",\"partition\":0},{\"value\":\"S2Fma2E=\",\"partition\":1},{\"value\":\"S2Fma2E=\",\"partition\":0},{\"value\":\"S2Fma2E=\",\"partition\":0}]}",
        status: OK,
        media: PLAIN,
        told: "{\"offsets\":[{\"partition\":0,\"offset\":0,\"error_code\":null,\"error\":null},{\"partition\":1,\"offset\":0,\"error_code\":null,\"error\":null},{\"partition\":0,\"offset\":1,\"error_code\":null,\"error\":null},{\"partition\":0,\"offset\":2,\"error_code\":null,\"error\":null}],\"key_schema_id\":null,\"value_schema_id\":null}",
    },
    Exchange {
        line: "POST /consumers/g",
        fields: PLAIN_BODY,
        body: EARLIEST,
        status: OK,
        media: PLAIN,
        told: MADE,
    },
    Exchange {
        line: ASSIGN,
        fields: PLAIN_BODY,
        body: BOTH,
        status: "204 No Content",
        media: PLAIN,
        told: "",
    },
    Exchange {
        line: RECORDS,
        fields: "",
        body: "",
        status: "200 OK",
        media: BINARY,
        told: "[{\"topic\":\"orders\",\"key\":null,\"value\":\"S2Fma2E=\",\"partition\":0,\"offset\":0},{\"topic\":\"orders\",\"key\":null,\"value\":\"S2Fma2E=\",\"partition\":0,\"offset\":1},{\"topic\":\"orders\",\"key\":null,\"value\":\"S2Fma2E=\",\"partition\":0,\"offset\":2},{\"topic\":\"orders\",\"key\":null,\"value\":\"S2Fma2E=\",\"partition\":1,\"offset\":0}]",
    },
    Exchange {
        line: RECORDS,
        fields: "",
        body: "",
        status: "200 OK",
        media: BINARY,
        told: "[]",
    },
];

/// Each read begins at the partition behind the last one that was read from.
const IN_TURN: [Exchange<'static>; 8] = [
    Exchange {
        line: PRODUCE,
        fields: BINARY_BODY,
        body: "{\"records\":[{\"value\":\"S2Fma2E=\",\"partition\":0},{\"value\":\"S2Fma2E=\",\"partition\":0},{\"value\":\"S2Fma2E=\",\"partition\":1},{\"value\":\"S2Fma2E=\",\"partition\":1}]}",
        status: OK,
        media: PLAIN,
        told: "{\"offsets\":[{\"partition\":0,\"offset\":0,\"error_code\":null,\"error\":null},{\"partition\":0,\"offset\":1,\"error_code\":null,\"error\":null},{\"partition\":1,\"offset\":0,\"error_code\":null,\"error\":null},{\"partition\":1,\"offset\":1,\"error_code\":null,\"error\":null}],\"key_schema_id\":null,\"value_schema_id\":null}",
    },
    Exchange {
        line: "POST /consumers/g",
        fields: PLAIN_BODY,
        body: EARLIEST,
        status: OK,
        media: PLAIN,
        told: MADE,
    },
    Exchange {
        line: ASSIGN,
        fields: PLAIN_BODY,
        body: BOTH,
        status: "204 No Content",
        media: PLAIN,
        told: "",
    },
    Exchange {
        line: ONE_BYTE,
        fields: "",
        body: "",
        status: "200 OK",
        media: BINARY,
        told: "[{\"topic\":\"orders\",\"key\":null,\"value\":\"S2Fma2E=\",\"partition\":0,\"offset\":0}]",
    },
    Exchange {
        line: ONE_BYTE,
        fields: "",
        body: "",
        status: "200 OK",
        media: BINARY,
        told: "[{\"topic\":\"orders\",\"key\":null,\"value\":\"S2Fma2E=\",\"partition\":1,\"offset\":0}]",
    },
    Exchange {
        line: ONE_BYTE,
        fields: "",
        body: "",
        status: "200 OK",
        media: BINARY,
        told: "[{\"topic\":\"orders\",\"key\":null,\"value\":\"S2Fma2E=\",\"partition\":0,\"offset\":1}]",
    },
    Exchange {
        line: ONE_BYTE,
        fields: "",
        body: "",
        status: "200 OK",
        media: BINARY,
        told: "[{\"topic\":\"orders\",\"key\":null,\"value\":\"S2Fma2E=\",\"partition\":1,\"offset\":1}]",
    },
    Exchange {
        line: ONE_BYTE,
        fields: "",
        body: "",
        status: "200 OK",
        media: BINARY,
        told: "[]",
    },
];

/// Looks at 0, 10, 20 and 30 ms: the last is the first that doesn't come before 25 ms are over.
const WAITED: [Exchange<'static>; 3] = [
    Exchange {
        line: "POST /consumers/g",
        fields: PLAIN_BODY,
        body: EARLIEST,
        status: OK,
        media: PLAIN,
        told: MADE,
    },
    Exchange {
        line: ASSIGN,
        fields: PLAIN_BODY,
        body: PARTITION_0,
        status: "204 No Content",
        media: PLAIN,
        told: "",
    },
    Exchange {
        line: WAITING,
        fields: "",
        body: "",
        status: "200 OK",
        media: BINARY,
        told: "[]",
    },
];

/// Three values of five bytes are as many as the instance waits for.
const ENOUGH: [Exchange<'static>; 4] = [
    Exchange {
        line: PRODUCE,
        fields: BINARY_BODY,
        body: "{\"records\":[{\"value\":\"S2Fma2E=\",\"partition\":0},{\"value\":\"S2Fma2E=\",\"partition\":0},{\"value\":\"S2Fma2E=\",\"partition\":0}]}",
        status: OK,
        media: PLAIN,
        told: "{\"offsets\":[{\"partition\":0,\"offset\":0,\"error_code\":null,\"error\":null},{\"partition\":0,\"offset\":1,\"error_code\":null,\"error\":null},{\"partition\":0,\"offset\":2,\"error_code\":null,\"error\":null}],\"key_schema_id\":null,\"value_schema_id\":null}",
    },
    Exchange {
        line: "POST /consumers/g",
        fields: PLAIN_BODY,
        body: "{\"name\":\"c1\",\"auto.offset.reset\":\"earliest\",\"fetch.min.bytes\":15}",
        status: OK,
        media: PLAIN,
        told: MADE,
    },
    Exchange {
        line: ASSIGN,
        fields: PLAIN_BODY,
        body: PARTITION_0,
        status: "204 No Content",
        media: PLAIN,
        told: "",
    },
    Exchange {
        line: WAITING,
        fields: "",
        body: "",
        status: "200 OK",
        media: BINARY,
        told: "[{\"topic\":\"orders\",\"key\":null,\"value\":\"S2Fma2E=\",\"partition\":0,\"offset\":0},{\"topic\":\"orders\",\"key\":null,\"value\":\"S2Fma2E=\",\"partition\":0,\"offset\":1},{\"topic\":\"orders\",\"key\":null,\"value\":\"S2Fma2E=\",\"partition\":0,\"offset\":2}]",
    },
];

/// The instance waits for one byte more, and is shown what there is when its time is over.
const TOO_FEW: [Exchange<'static>; 4] = [
    Exchange {
        line: PRODUCE,
        fields: BINARY_BODY,
        body: "{\"records\":[{\"value\":\"S2Fma2E=\",\"partition\":0},{\"value\":\"S2Fma2E=\",\"partition\":0},{\"value\":\"S2Fma2E=\",\"partition\":0}]}",
        status: OK,
        media: PLAIN,
        told: "{\"offsets\":[{\"partition\":0,\"offset\":0,\"error_code\":null,\"error\":null},{\"partition\":0,\"offset\":1,\"error_code\":null,\"error\":null},{\"partition\":0,\"offset\":2,\"error_code\":null,\"error\":null}],\"key_schema_id\":null,\"value_schema_id\":null}",
    },
    Exchange {
        line: "POST /consumers/g",
        fields: PLAIN_BODY,
        body: "{\"name\":\"c1\",\"auto.offset.reset\":\"earliest\",\"fetch.min.bytes\":16}",
        status: OK,
        media: PLAIN,
        told: MADE,
    },
    Exchange {
        line: ASSIGN,
        fields: PLAIN_BODY,
        body: PARTITION_0,
        status: "204 No Content",
        media: PLAIN,
        told: "",
    },
    Exchange {
        line: WAITING,
        fields: "",
        body: "",
        status: "200 OK",
        media: BINARY,
        told: "[{\"topic\":\"orders\",\"key\":null,\"value\":\"S2Fma2E=\",\"partition\":0,\"offset\":0},{\"topic\":\"orders\",\"key\":null,\"value\":\"S2Fma2E=\",\"partition\":0,\"offset\":1},{\"topic\":\"orders\",\"key\":null,\"value\":\"S2Fma2E=\",\"partition\":0,\"offset\":2}]",
    },
];

#[test]
fn a_refused_produce_stores_nothing(rt: HostRuntime) -> Result<(), Fail> {
    is_session(&rt, rt.alloc(), &PRODUCES, "0 at 0\n")
}

#[test]
fn partitions_are_chosen_by_key_or_by_place(rt: HostRuntime) -> Result<(), Fail> {
    is_session(&rt, rt.alloc(), &CHOSEN, "0 at 0\n")
}

#[test]
fn instances_are_made_named_and_deleted(rt: HostRuntime) -> Result<(), Fail> {
    is_session(&rt, rt.alloc(), &NAMED, "0 at 0\n")
}

#[test]
fn rows_are_read_one_by_one_within_max_bytes(rt: HostRuntime) -> Result<(), Fail> {
    is_session(&rt, rt.alloc(), &ONE_BY_ONE, "0 at 0\n")
}

#[test]
fn rows_of_two_partitions_stand_in_one_reply(rt: HostRuntime) -> Result<(), Fail> {
    is_session(&rt, rt.alloc(), &ALL_AT_ONCE, "0 at 0\n")
}

#[test]
fn partitions_take_turns(rt: HostRuntime) -> Result<(), Fail> {
    is_session(&rt, rt.alloc(), &IN_TURN, "0 at 0\n")
}

#[test]
fn an_empty_topic_is_looked_at_four_times(rt: HostRuntime) -> Result<(), Fail> {
    is_session(&rt, rt.alloc(), &WAITED, "0 at 30\n")
}

#[test]
fn a_look_that_finds_enough_bytes_does_not_wait(rt: HostRuntime) -> Result<(), Fail> {
    is_session(&rt, rt.alloc(), &ENOUGH, "0 at 0\n")
}

#[test]
fn a_look_that_finds_too_few_waits(rt: HostRuntime) -> Result<(), Fail> {
    is_session(&rt, rt.alloc(), &TOO_FEW, "0 at 30\n")
}

/// The broker refuses the first produce, which is the call behind its metadata, by code 6: it is
/// retriable, and nothing is stored.
const REFUSED: [Exchange<'static>; 2] = [
    Exchange {
        line: PRODUCE,
        fields: BINARY_BODY,
        body: "{\"records\":[{\"value\":\"S2Fma2E=\",\"partition\":0}]}",
        status: "500 Internal Server Error",
        media: PLAIN,
        told: "{\"error_code\":50003,\"message\":\"Kafka retriable error: broker code 6.\"}",
    },
    Exchange {
        line: PRODUCE,
        fields: BINARY_BODY,
        body: "{\"records\":[{\"value\":\"S2Fma2E=\",\"partition\":0}]}",
        status: OK,
        media: PLAIN,
        told: "{\"offsets\":[{\"partition\":0,\"offset\":0,\"error_code\":null,\"error\":null}],\"key_schema_id\":null,\"value_schema_id\":null}",
    },
];

fn refusing_link(alloc: Global) -> Result<MemLink, Fail> {
    let plans = [(Text::from_str(alloc, "orders")?, 2)];
    let mut link = MemLink::new(alloc, &plans)?;
    let mut fails = Items::new(alloc);
    fails.push(LinkFail {
        call: 1,
        after: false,
        code: 6,
    })?;
    link.script(fails, Items::new(alloc));
    Ok(link)
}

/// How many requests came and why there is no further one, and what was written.
fn told(alloc: Global, ended: Result<Ended, ConnNo>, written: &str) -> Result<String, Fail> {
    match ended {
        Ok(Ended { requests, why }) => { Ok(format!(in alloc; "{requests} {why:?}\n{written}")?) }
        Err(no) => Ok(format!(in alloc; "{no:?}\n{written}")?),
    }
}

/// Serves this input over the link that refuses, and tells how it ended.
fn served(alloc: Global, input: &str) -> Result<String, Fail> {
    let link = refusing_link(alloc)?;
    let advertise = Text::from_str(alloc, "localhost:8082")?;
    let bytes = Vec::from_slice(alloc, input.as_bytes())?;
    let mut desk = AloneDesk::new(alloc, link, advertise);
    let mut source = MemSource::new(bytes, 1_000_000, Vec::new(alloc));
    let mut sink = MemSink::new(alloc, 1_000_000, Vec::new(alloc));
    let mut clock = MemClock::new(0, Vec::new(alloc));
    let ended = serve_stream(alloc, &mut source, &mut sink, &mut desk, &mut clock);
    told(alloc, ended, text(sink.written()))
}

#[test]
fn a_produce_that_the_broker_refuses_stores_nothing(rt: HostRuntime) -> Result<(), Fail> {
    let input = requests_of(rt.alloc(), &REFUSED)?;
    let wanted = responses_of(rt.alloc(), "2 End\n", &REFUSED)?;
    let told = served(rt.alloc(), input.as_str())?;
    assert_eq!(rt; told.as_str(), wanted.as_str());
    Ok(())
}

const CLOSED: &str =
    "1 Closed\nHTTP/1.1 404 Not Found\r\nContent-Type: application/vnd.kafka.v2+json\r\nContent-Length: 41\r\nConnection: close\r\n\r\n{\"error_code\":404,\"message\":\"Not found.\"}";

#[test]
fn a_request_that_closes_is_the_last_that_is_answered(rt: HostRuntime) -> Result<(), Fail> {
    let told = served(rt.alloc(), "GET / HTTP/1.0\n\nGET / HTTP/1.0\n\n")?;
    assert_eq!(rt; told.as_str(), CLOSED);
    Ok(())
}

use rest_routes::limits_of;
use std::alloc::Global;
use std::process::Abort;
use std::test::Fail;

/// The limits of a query: the wait and the bytes, where it gives them.
type Given = Option<(Option<u64>, Option<u64>)>;

/// Each query gives the limits beside it, or is refused.
fn queries_give(rt: &impl Abort, alloc: Global, cases: &[(&str, Given)]) -> Result<(), Fail> {
    for (place, (query, want)) in cases.iter().enumerate() {
        let limits = match limits_of(alloc, query)? {
            Some(limits) => Some((limits.timeout, limits.max_bytes)),
            None => None,
        };
        assert_eq!(rt; limits, *want, "case {place}");
    }
    Ok(())
}

// A field without `=` is a name with an empty value: URL Standard, application/x-www-form-urlencoded.
const QUERIES: [(&str, Given); 22] = [
    ("", Some((None, None))),
    ("timeout=25", Some((Some(25), None))),
    ("max_bytes=1", Some((None, Some(1)))),
    ("max_bytes=1&timeout=25", Some((Some(25), Some(1)))),
    ("timeout=0&timeout=7&timeout=x", Some((Some(0), None))),
    ("a=1&&timeout=5&=9&", Some((Some(5), None))),
    (
        "timeout=099999999999999999",
        Some((Some(99_999_999_999_999_999), None)),
    ),
    (
        "Timeout=x&xtimeout=x&time+out=x&x=timeout=5",
        Some((None, None)),
    ),
    ("tim%65out=%32%35&timeout=x", Some((Some(25), None))),
    ("tim%2565out=x&max%5Fbytes=1", Some((None, Some(1)))),
    ("timeout=1+", None),
    ("timeout=%2b1", None),
    ("timeout=%2531", None),
    ("timeout=0000000000000000001", None),
    ("timeout=", None),
    ("timeout", None),
    ("timeout=2a", None),
    ("timeout=-1", None),
    ("timeout=+1", None),
    ("timeout==1", None),
    ("timeout=x&timeout=1", None),
    ("timeout=1&max_bytes=x", None),
];

#[test]
fn reads_the_limits_of_a_query(rt: HostRuntime) -> Result<(), Fail> {
    queries_give(&rt, rt.alloc(), &QUERIES)
}

use rest_routes::is_topic_name;
use std::alloc::Global;
use std::process::Abort;
use std::test::Fail;

/// The name of `x` so often is a topic's, or not.
fn names_are_taken(rt: &impl Abort, alloc: Global, cases: &[(usize, bool)]) -> Result<(), Fail> {
    for (count, is_taken) in cases {
        let mut name = String::new(alloc);
        for _ in 0..*count {
            name.push_str("x")?;
        }
        assert_eq!(rt; is_topic_name(name.as_str()), *is_taken, "length {count}");
    }
    Ok(())
}

const LENGTHS: [(usize, bool); 4] = [(0, false), (1, true), (249, true), (250, false)];

#[test]
fn takes_names_of_1_to_249_characters(rt: HostRuntime) -> Result<(), Fail> {
    names_are_taken(&rt, rt.alloc(), &LENGTHS)
}

use broker_link::Edge;
use gate_io::{Items, Text};
use rest_calls::{Call, Format, Question, Settings, key_of};
use std::alloc::Global;
use std::test::Fail;

fn key_of_a_create(alloc: Global) -> Result<Items<u8>, Fail> {
    let group = Text::from_str(alloc, "g")?;
    let name = Text::from_str(alloc, "c1")?;
    let settings = Settings {
        format: Format::Binary,
        reset: Edge::End,
        min_bytes: 1,
        timeout_ms: 1000,
    };
    let call = Call::Create {
        group,
        name: Some(name),
        settings,
    };
    Ok(key_of(alloc, &call)?)
}

#[test]
fn the_key_of_a_create_is_the_group_a_zero_byte_and_the_name(rt: HostRuntime) -> Result<(), Fail> {
    let key = key_of_a_create(rt.alloc())?;
    assert!(rt; key.as_slice() == b"g\0c1".as_slice());
    Ok(())
}

fn key_of_a_topic(alloc: Global) -> Result<Items<u8>, Fail> {
    let call = Call::Ask(Question::Partitions(Text::from_str(alloc, "orders")?));
    Ok(key_of(alloc, &call)?)
}

#[test]
fn the_key_of_a_question_is_its_topic(rt: HostRuntime) -> Result<(), Fail> {
    let key = key_of_a_topic(rt.alloc())?;
    assert!(rt; key.as_slice() == b"orders".as_slice());
    Ok(())
}

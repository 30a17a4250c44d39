use command_words::{Command, WordNo, read_words};
use std::alloc::{AllocError, Global};
use std::process::Abort;
use std::test::Fail;

/// The words as a shell splits them, at single spaces.
fn words_in(alloc: Global, line: &str) -> Result<Vec<String>, AllocError> {
    let mut words = Vec::new(alloc);
    for word in line.split(' ') {
        words.push(String::from_str(alloc, word)?)?;
    }
    Ok(words)
}

/// A command as a text, or the text that is shown for words that don't read.
fn shown(alloc: Global, read: &Result<Command, WordNo>) -> Result<String, AllocError> {
    let mut out = String::new(alloc);
    match read {
        Ok(Command::Session(words)) => {
            out.push_str(words.advertise.as_str())?;
            if words.schemas.is_some() {
                out.push_str(" with schemas")?;
            }
            for (name, count) in words.topics.as_slice() {
                let name = name.as_str();
                let topic = format!(in alloc; " {name}={count}")?;
                out.push_str(topic.as_str())?;
            }
        }
        Err(WordNo::Bad(text)) => out.push_str(text.as_str())?,
        Err(WordNo::Want) => out.push_str("want")?,
    }
    Ok(out)
}

fn told(alloc: Global, line: &str) -> Result<String, AllocError> {
    let words = words_in(alloc, line)?;
    shown(alloc, &read_words(alloc, words.as_slice()))
}

/// Lines, and the session that each asks for.
const SESSIONS: [(&str, &str); 19] = [
    ("session orders:2", "localhost:8082 orders=2"),
    ("session b:1 a:64 c:9", "localhost:8082 b=1 a=64 c=9"),
    ("session a:0000000064", "localhost:8082 a=64"),
    ("session A.b_c-9:7 a:1", "localhost:8082 A.b_c-9=7 a=1"),
    ("session ...:1 _:2 0:3", "localhost:8082 ...=1 _=2 0=3"),
    (
        "session a:1 b:1 c:1 d:1 e:1 f:1 g:1 h:1 i:1 j:1 k:1 l:1 m:1 n:1 o:1 p:1",
        "localhost:8082 a=1 b=1 c=1 d=1 e=1 f=1 g=1 h=1 i=1 j=1 k=1 l=1 m=1 n=1 o=1 p=1",
    ),
    ("session --advertise=h:1 orders:2", "h:1 orders=2"),
    ("session orders:2 --advertise h:1", "h:1 orders=2"),
    ("session a:1 --advertise h b:1", "h a=1 b=1"),
    ("session a:1 --advertise=h=2 b:1", "h=2 a=1 b=1"),
    ("session -- orders:2", "localhost:8082 orders=2"),
    ("session a:1 -- b:1", "localhost:8082 a=1 b=1"),
    ("session a:1 --", "localhost:8082 a=1"),
    ("session a:1 A:1", "localhost:8082 a=1 A=1"),
    ("session --advertise x -- a:1", "x a=1"),
    ("session --advertise=- o:1", "- o=1"),
    ("session --advertise=-x o:1", "-x o=1"),
    ("session -- -a:1", "localhost:8082 -a=1"),
    ("session -- --advertise:1", "localhost:8082 --advertise=1"),
];

/// Lines that ask for no command.
const OTHERS: [&str; 54] = [
    "",
    "session",
    "Session orders:2",
    "orders:2",
    "orders:2 session",
    "help",
    "--help",
    "-h",
    "--advertise=h:1 session o:1",
    "session orders",
    "session orders:",
    "session :2",
    "session orders:0",
    "session orders:65",
    "session orders:+2",
    "session orders:-1",
    "session orders:2x",
    "session orders:2:3",
    "session orders:00000000002",
    "session orders:4294967298",
    "session orders:9999999999",
    "session .:1",
    "session ..:1",
    "session -a:1",
    "session --port:1",
    "session a/b:1",
    "session \u{e9}:1",
    "session orders:1 orders:2",
    "session a:1 b:1 a:1",
    "session orders:2 ",
    "session a:1 b:1 c:1 d:1 e:1 f:1 g:1 h:1 i:1 j:1 k:1 l:1 m:1 n:1 o:1 p:1 q:1",
    "session --advertise a --advertise b o:1",
    "session --advertise=a --advertise=b o:1",
    "session --advertise - o:1",
    "session --advertise -x o:1",
    "session --advertise= o:1",
    "session --advertise",
    "session --advertise h:1",
    "session o:1 --advertise",
    "session -- o:1 --advertise h:1",
    "session -",
    "session --",
    "session o:1 -- --",
    "-- session o:1",
    "session --adv=x o:1",
    "session --advertise -- o:1",
    "session --advertise --schemas o:1",
    "session --advertise  o:1",
    "session --advertise=a o:1 --advertise b",
    "session o:1 -",
    "session -a o:1",
    "session --help",
    "session o:1 -h",
    "session help",
];

/// Lines of commands that aren't built, and options of theirs in a session.
const LATER: [&str; 22] = [
    "session --schemas f o:1",
    "session --schemas=f o:1",
    "session o:1 --schemas f",
    "session --broker h:1 o:1",
    "session --port 1 o:1",
    "session --workers=1 o:1",
    "session --connections 1 o:1",
    "serve",
    "serve --broker h:1",
    "serve --broker=h:1 --port 8082 --workers 4 --connections 1 --schemas f --advertise h:1",
    "serve o:1",
    "broker",
    "broker o:1",
    "broker --port 9092 --connections=1 a:1 b:1",
    "broker -- o:1",
    "flood",
    "flood 1 1",
    "flood 0 1",
    "flood 100000 4294967295",
    "send --broker h:1 o",
    "registry --schemas f --port 1 --connections 1",
    "mirror --from a:1 --to b:1 --store f o",
];

/// Each line reads as this.
fn read_so(rt: &impl Abort, alloc: Global, cases: &[(&str, &str)]) -> Result<(), Fail> {
    for (line, wanted) in cases {
        let text = told(alloc, line)?;
        assert_eq!(rt; text.as_str(), *wanted, "{line}");
    }
    Ok(())
}

/// Each line is answered with the usage.
fn show_usage(rt: &impl Abort, alloc: Global, lines: &[&str]) -> Result<(), Fail> {
    for line in lines {
        let text = told(alloc, line)?;
        let wanted = "usage: restgate session [--advertise HOST:PORT] TOPIC:PARTS [TOPIC:PARTS ..]";
        assert_eq!(rt; text.as_str(), wanted, "{line}");
    }
    Ok(())
}

/// A session with a topic of so long a name.
fn with_name_of(alloc: Global, length: u32) -> Result<Vec<String>, AllocError> {
    let mut word = String::new(alloc);
    for _ in 0..length {
        word.push_str("x")?;
    }
    word.push_str(":1")?;
    let mut words = words_in(alloc, "session")?;
    words.push(word)?;
    Ok(words)
}

fn is_read(alloc: Global, words: &[String]) -> bool {
    read_words(alloc, words).is_ok()
}

#[test]
fn reads_the_topics_and_the_name_of_a_session(rt: HostRuntime) -> Result<(), Fail> {
    read_so(&rt, rt.alloc(), &SESSIONS)
}

#[test]
fn shows_the_usage_for_other_words(rt: HostRuntime) -> Result<(), Fail> {
    show_usage(&rt, rt.alloc(), &OTHERS)
}

#[test]
fn shows_the_usage_for_commands_that_are_not_built(rt: HostRuntime) -> Result<(), Fail> {
    show_usage(&rt, rt.alloc(), &LATER)
}

#[test]
fn takes_names_of_up_to_249_characters(rt: HostRuntime) -> Result<(), Fail> {
    let alloc = rt.alloc();
    let longest = with_name_of(alloc, 249)?;
    assert!(rt; is_read(alloc, longest.as_slice()));
    let longer = with_name_of(alloc, 250)?;
    assert!(rt; !is_read(alloc, longer.as_slice()));
    Ok(())
}

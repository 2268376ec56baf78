use names::Priority;
use script::answer::{Answered, Misread};
use script::line::Reply;
use script::parse::read_line;
use script::run::run_script;
use std::alloc::{AllocError, Global};
use std::test::Fail;

// A reply as desk prints it, but for reasons; nothing for a blank line.
fn shown(number: usize, reply: Reply, heap: Global) -> Result<String, AllocError> {
    match reply {
        Ok(None) => Ok(String::new(heap)),
        Ok(Some(answered)) => answered.to_string(heap),
        Err(mistake) => Misread { number, mistake }.to_string(heap),
    }
}

// A line as line 7, its call accepted.
fn told(text: &[u8], heap: Global) -> Result<String, AllocError> {
    let accepted = |call| Answered {
        call,
        answer: Ok(()),
    };
    shown(7, read_line(text).map(|asked| asked.map(accepted)), heap)
}

#[test]
fn lines(rt: HostRuntime) -> Result<(), Fail> {
    let heap = rt.alloc();
    let cases: [(&[u8], &str); 22] = [
        (b"", ""),
        (b" \t\r", ""),
        (b"# enter 1 2 3 4", ""),
        (b"  #", ""),
        (b"enter 1 20 50 50", "entered 1"),
        (b"\tenter  255\t0 4294967295 007 \r", "entered 255"),
        (b"strike 4", "struck 4"),
        (b"strike 4# its row", "struck 4"),
        (b"cap 2 1", "capped 2 at 1"),
        (
            b"Cap 2 1",
            "line 7: not a call; calls begin with enter, strike or cap",
        ),
        (
            b"capp 2 1",
            "line 7: not a call; calls begin with enter, strike or cap",
        ),
        (
            b"4",
            "line 7: not a call; calls begin with enter, strike or cap",
        ),
        (b"strike", "line 7: too few arguments"),
        (b"strike #4", "line 7: too few arguments"),
        (b"enter 1 20 50", "line 7: too few arguments"),
        (b"strike 4 4", "line 7: too many arguments"),
        (b"cap 2 -1", "line 7: argument 2 is not a whole number"),
        (
            b"enter +1 20 50 50",
            "line 7: argument 1 is not a whole number",
        ),
        (
            b"enter 1 20 5,0 50",
            "line 7: argument 3 is not a whole number",
        ),
        (b"enter 256 20 50 50", "line 7: argument 1 is too large"),
        (
            b"enter 1 20 50 4294967296",
            "line 7: argument 4 is too large",
        ),
        (
            b"cap 2 99999999999999999999999",
            "line 7: argument 2 is too large",
        ),
    ];
    for (text, expected) in cases {
        let line = told(text, heap)?;
        assert_eq!(rt; line.as_str(), expected);
    }
    Ok(())
}

#[test]
fn a_script(rt: HostRuntime) -> Result<(), Fail> {
    let script = b"enter 1 20 50 50\nenter 1\n\nstrike 2\ncap 1 1";
    let report = run_script(script, rt.alloc())?;
    let expected = [
        "entered 1",
        "line 2: too few arguments",
        "",
        "refused 6 at 2",
        "capped 1 at 1",
    ];
    assert_eq!(rt; report.replies.len(), expected.len());
    for (number, (reply, line)) in (1..).zip(report.replies.iter().zip(&expected)) {
        let text = shown(number, *reply, rt.alloc())?;
        assert_eq!(rt; text.as_str(), *line);
    }
    assert!(rt; report.sheet.row(Priority(1)).is_some());
    assert!(rt; report.sheet.row(Priority(2)).is_none());
    Ok(())
}

//! Whole lines, and what the contracts don't say: that lines are made. What is expected was worked out by a small model of the
//! rules in another language, and never by this crate.
use super::*;
use craft_base::{Op, Request, Shape};
use std::alloc::Global;
use std::test::Fail;
use world_model::{Inner, Line};

/// How many frames were sent before each line of the storm of seed 7 for five members, and the line.
const SEVEN: &str = "\
0 tick 4 2
0 tick 4 1
0 up 2
0 tick 3 4
1 call 4 3 5 putif=0 67 05050505050505050505050505050505050505050505050505050505050505050505050505050505050505
1 take 1
1 up 0
1 take 1
3 take 3
6 take 1
9 take 9
12 tick 1 3
15 take 8
18 take 5
21 tick 0 2
24 take 18
27 take 9
30 take 28
33 take 12
36 take 6
39 take 5
42 take 21
45 call 1 4 23 get 64 -
48 take 43
51 up 2
54 up 3
57 take 49
60 take 46
63 tick 3 6
66 take 53
69 take 60
72 tick 3 6
75 take 27
78 call 3 4 34 get 66 -
81 take 63
84 take 47
87 tick 3 6
90 take 81
93 take 86
96 take 93
99 tick 3 2
102 tick 1 3
105 take 103
108 tick 2 1
111 tick 3 6
114 take 96
117 tick 0 2
120 tick 2 0
123 tick 0 7
126 tick 1 0
129 take 85
132 take 91
135 take 94
138 take 79
141 take 127
144 take 97
147 tick 4 7
150 take 87
153 call 0 2 59 putif=0 66 3b3b3b3b3b3b
156 tick 0 2
";

/// A seed, how many frames were sent, and the line 300 that is made of the seed's first three words. The third word of seed 21
/// counts back by 63 where it can.
const FIRSTS: &str = "\
13 100 down 1
28 100 up 1
226 100 up 4
40 100 up 1
65 100 tick 2 2
270 100 take 67
34 100 take 59
68 100 call 4 2 300 putif=0 65 2c2c2c2c2c2c2c2c2c2c2c2c2c2c2c2c2c2c
274 100 call 2 2 300 del 64 -
169 100 call 2 1 300 del 61 -
288 100 call 2 1 300 put 62 2c2c2c2c2c2c2c2c2c2c2c2c2c2c2c2c2c2c2c2c2c2c2c2c2c2c2c2c2c2c2c2c2c2c2c2c2c2c2c2c2c2c2c2c2c2c2c2c2c
164 100 call 3 4 300 putif=0 63 2c2c2c2c2c2c2c2c2c2c2c2c2c2c2c2c2c2c2c2c2c2c2c2c2c2c2c2c2c2c2c2c2c2c2c2c2c2c2c2c2c2c2c2c2c2c2c2c
438 100 call 3 4 300 del 66 -
10639 100 call 0 1 300 put 64 -
6517 100 call 0 3 300 put 61 2c2c2c2c2c2c2c2c2c2c2c2c2c2c2c2c2c2c2c2c2c2c2c2c2c2c2c2c2c2c2c2c2c2c2c2c2c2c2c2c2c2c2c2c2c2c2c2c2c2c2c2c2c2c2c2c2c2c2c2c2c2c2c
8205 100 call 3 1 300 putif=0 63 -
5928 100 call 3 4 300 putif=0 67 2c2c2c2c2c2c2c2c2c2c2c2c2c2c2c2c2c2c2c2c2c2c2c2c2c2c2c2c2c2c2c2c2c2c2c2c2c2c2c2c2c2c2c2c2c2c2c2c2c2c2c2c2c2c2c2c2c2c2c2c2c2c2c
1050 100 stop 1 0 tick 1 1
217 100 stop 1 1 tick 3 5
2125 100 stop 2 0 tick 1 2
247 100 stop 2 1 tick 0 1
893 100 stop 3 0 tick 3 6
3626 100 stop 3 1 tick 2 3
293 100 stop 4 0 tick 2 0
384 100 stop 4 1 tick 0 3
21 0 tick 4 7
21 1 take 1
21 2 take 1
21 63 take 13
21 64 take 1
21 65 take 2
21 1000 take 937
21 18446744073709551615 take 18446744073709551552
";

/// Bytes as digits, and `-` for none.
fn digits(alloc: Global, bytes: &[u8]) -> Result<String, Fail> {
    let mut text = String::new(alloc);
    for byte in bytes {
        text.push_str(&format!(in alloc; "{byte:02x}")?)?;
    }
    if bytes.is_empty() {
        text.push_str("-")?;
    }
    Ok(text)
}

/// The text of a request, as in a schedule.
fn request_text(alloc: Global, request: &Request) -> Result<String, Fail> {
    let op = match request.op {
        Op::Noop => "noop",
        Op::Put => "put",
        Op::PutIf(0) => "putif=0",
        Op::PutIf(_) => "putif",
        Op::Del => "del",
        Op::Get => "get",
    };
    let (client, seq) = (request.client, request.seq);
    let key = digits(alloc, request.key.as_bytes())?;
    let value = digits(alloc, request.value.as_bytes())?;
    Ok(format!(in alloc; "{client} {seq} {op} {key} {value}")?)
}

/// The text of what happens to a member, as in a schedule.
fn inner_text(alloc: Global, inner: &Inner) -> Result<String, Fail> {
    Ok(match inner {
        Inner::Tick { member, word } => {
            let number = member.number();
            format!(in alloc; "tick {number} {word}")?
        }
        Inner::Take { frame } => format!(in alloc; "take {frame}")?,
        Inner::Call { member, request } => {
            let number = member.number();
            let request = request_text(alloc, request)?;
            format!(in alloc; "call {number} {request}")?
        }
    })
}

/// The text of a line, as in a schedule.
fn line_text(alloc: Global, line: &Line) -> Result<String, Fail> {
    let (name, member) = match line {
        Line::Do(inner) => return inner_text(alloc, inner),
        Line::Stop { call, keep, event } => {
            let digit = u8::from(*keep);
            let event = inner_text(alloc, event)?;
            return Ok(format!(in alloc; "stop {call} {digit} {event}")?);
        }
        Line::Down(member) => ("down", member),
        Line::Up(member) => ("up", member),
        Line::Show(member) => ("show", member),
    };
    let number = member.number();
    Ok(format!(in alloc; "{name} {number}")?)
}

#[test]
fn a_seed_makes_one_line_after_the_other(rt: HostRuntime) -> Result<(), Fail> {
    let shape = Shape::new(2, 3)?;
    let mut storm = Storm::new(&shape, 7);
    let mut rows = SEVEN.lines();
    for n in 1..=60 {
        let (sent, want) = rows
            .next()
            .and_then(|row| row.split_once(" "))
            .ok_or("a row")?;
        let line = storm.next(rt.alloc(), n, sent.parse()?)?;
        assert_eq!(rt; line_text(rt.alloc(), &line)?.as_str(), want, "line {n}");
    }
    assert!(rt; rows.next().is_none());
    Ok(())
}

#[test]
fn each_kind_of_line_is_made(rt: HostRuntime) -> Result<(), Fail> {
    let shape = Shape::new(2, 3)?;
    for row in FIRSTS.lines() {
        let (seed, row) = row.split_once(" ").ok_or("a row")?;
        let (sent, want) = row.split_once(" ").ok_or("a row")?;
        let mut storm = Storm::new(&shape, seed.parse()?);
        let line = storm.next(rt.alloc(), 300, sent.parse()?)?;
        assert_eq!(rt; line_text(rt.alloc(), &line)?.as_str(), want, "seed {seed}");
    }
    Ok(())
}

#[test]
fn the_smallest_cluster_has_the_first_word_of_zero(rt: HostRuntime) -> Result<(), Fail> {
    let shape = Shape::new(1, 1)?;
    let mut storm = Storm::new(&shape, 0);
    let line = storm.next(rt.alloc(), 1, 0)?;
    assert_eq!(rt; line_text(rt.alloc(), &line)?.as_str(), "tick 0 7");
    Ok(())
}

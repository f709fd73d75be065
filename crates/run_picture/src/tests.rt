//! That pictures are drawn where there is memory, and what stands in them. What is expected was worked out by hand from the lines.
use super::*;
use craft_base::Shape;
use craft_edge::{MemSink, MemSource};
use std::alloc::Global;
use std::process::Abort;
use std::str;
use std::test::Fail;

/// How a picture of these inputs ends in a cluster of three, over devices whose listed calls fail, and what it writes.
fn run_over(
    alloc: Global,
    schedule: MemSource,
    text: &str,
    failing: Vec<u64>,
) -> Result<(PictureEnd, Vec<u8>), Fail> {
    let Ok(shape) = Shape::new(1, 1) else {
        return Err("no shape".into());
    };
    let mut schedule = schedule;
    let mut text = MemSource::new(text.as_bytes().to_vec(alloc)?, 7, Vec::new(alloc));
    let mut out = MemSink::new(4096, failing);
    let end = picture(alloc, &shape, &mut schedule, &mut text, &mut out);
    Ok((end, out.taken().to_vec(alloc)?))
}

/// The same over devices that don't fail.
fn run(alloc: Global, schedule: &str, text: &str) -> Result<(PictureEnd, Vec<u8>), Fail> {
    let schedule = MemSource::new(schedule.as_bytes().to_vec(alloc)?, 5, Vec::new(alloc));
    run_over(alloc, schedule, text, Vec::new(alloc))
}

/// How often a piece stands in a picture.
fn count_of(picture: &[u8], piece: &str) -> usize {
    let piece = piece.as_bytes();
    if piece.is_empty() {
        return 0;
    }
    picture
        .windows(piece.len())
        .filter(|part| *part == piece)
        .count()
}

/// A member asks two for their votes, of which one comes twice, and one never; another stops as it casts its vote.
const SCHEDULE: &str = "\
tick 0 0
tick 0 0
tick 0 0
take 1
take 3
take 3
take 9
stop 3 0 take 4
up 2
up 2
show 1
";

const TEXT: &str = "\
1 done
2 done
3 done
role 0 candidate 1
send 1 0 1 vote 1 0 0
send 2 0 2 vote 1 0 0
4 done
role 1 follower 1
send 3 1 0 voted 1 yes
5 done
role 0 leader 1
send 4 0 2 append 1 0 0 0 w
6 done
7 none
8 stop
9 done
10 skip
11 done
node 1 1 0 0 0
";

/// Pieces of the picture of that run, and how often each stands there.
const PIECES: [(&str, usize); 16] = [
    ("A run of 3 members: 11 events, 4 frames</title>", 1),
    // frames 1, 3 and 4, and 3 once more; frame 2 is never taken; one of each in the legend
    ("<path class=\"frame\" ", 3 + 1),
    ("<path class=\"frame again\" ", 1 + 1),
    ("class=\"lost\" ", 1 + 1),
    (
        "<title>frame 2 from 0 to 2, sent by event 3, is never taken: vote 1 0 0</title>",
        1,
    ),
    ("is never taken", 1),
    // member 0 is a follower, a candidate, and leads; member 1 follows; member 2 follows, is down, and follows
    ("<path class=\"lane follower\" ", 4 + 1),
    ("<path class=\"lane candidate\" ", 1 + 1),
    ("<path class=\"lane leader\" ", 1 + 1),
    ("<path class=\"lane down\" ", 1 + 1),
    (">leader t1</text>", 1),
    (">stop 3</text>", 1),
    // events 7 and 10 are grey
    ("<text class=\"asked grey\" ", 2),
    (">voted yes</text>", 2),
    (">append w</text>", 1),
    ("<title>11 show 1\n11 done\nnode 1 1 0 0 0\n</title>", 1),
];

#[test]
fn a_run_is_drawn(rt: HostRuntime) -> Result<(), Fail> {
    let (end, drawn) = run(rt.alloc(), SCHEDULE, TEXT)?;
    assert_eq!(rt; end, PictureEnd::End);
    for (piece, count) in PIECES {
        assert_eq!(rt; count_of(&drawn, piece), count, "of {piece}");
    }
    Ok(())
}

/// Texts below `tick 0 0`, `take 1`, and what is bad.
const BAD_TEXTS: [(&str, u64); 19] = [
    ("0 done\n", 1),
    ("2 done\n", 1),
    ("1 done", 1),
    ("1 Done\n", 1),
    ("1 drop\n", 1),
    ("1 skip\n", 1),
    ("1 stop\n", 1),
    ("role 0 follower 1\n", 1),
    ("1 done\n1 done\n", 2),
    ("1 done\nrole 1 candidate 1\n", 2),
    ("1 done\nrole 0 candidate 01\n", 2),
    ("1 done\nsend 2 0 1 vote 1 0 0\n", 2),
    ("1 done\nsend 1 0 0 vote 1 0 0\n", 2),
    ("1 done\nsend 1 0 3 vote 1 0 0\n", 2),
    ("1 done\nsend 1 0 1 vote 1 0\n", 2),
    ("1 done\nnode 0 1 0 0 0\n", 2),
    ("1 done\n2 done\n", 2),
    ("1 done\n2 none\ncommit 0 1\n", 3),
    ("1 done\n2 none\n3 done\n", 3),
];

#[test]
fn bad_lines_of_a_text_are_told(rt: HostRuntime) -> Result<(), Fail> {
    for (text, line) in BAD_TEXTS {
        let (end, drawn) = run(rt.alloc(), "tick 0 0\ntake 1\n", text)?;
        assert_eq!(rt; end, PictureEnd::BadText { line }, "of {text}");
        assert!(rt; drawn.is_empty());
    }
    Ok(())
}

#[test]
fn bad_lines_of_a_schedule_are_told(rt: HostRuntime) -> Result<(), Fail> {
    for (schedule, line) in [
        ("tick 3 0\n", 1),
        ("tick 0 0\ntick 0 0", 2),
        ("tick 0 0\n\n", 2),
    ] {
        let (end, drawn) = run(rt.alloc(), schedule, "1 done\n2 done\n")?;
        assert_eq!(rt; end, PictureEnd::BadSchedule { line }, "of {schedule}");
        assert!(rt; drawn.is_empty());
    }
    Ok(())
}

// What stands in the schedule behind the text isn't looked at.
#[test]
fn a_text_may_end_early(rt: HostRuntime) -> Result<(), Fail> {
    let (end, drawn) = run(rt.alloc(), "tick 0 0\nno line", "1 done\n")?;
    assert_eq!(rt; end, PictureEnd::End);
    assert_eq!(rt; count_of(&drawn, "1 events, 0 frames</title>"), 1);
    let (end, drawn) = run(rt.alloc(), "", "")?;
    assert_eq!(rt; end, PictureEnd::End);
    assert_eq!(rt; count_of(&drawn, "0 events, 0 frames</title>"), 1);
    Ok(())
}

#[test]
fn a_long_run_has_parts(rt: HostRuntime) -> Result<(), Fail> {
    let alloc = rt.alloc();
    let (mut schedule, mut text) = (String::new(alloc), String::new(alloc));
    for number in 1..122u64 {
        schedule.push_str("show 0\n")?;
        let line = format!(in alloc; "{number} done\nnode 0 0 - 0 0\n")?;
        text.push_str(line.as_str())?;
    }
    let (end, drawn) = run(alloc, schedule.as_str(), text.as_str())?;
    assert_eq!(rt; end, PictureEnd::End);
    assert_eq!(rt; count_of(&drawn, ">member 2</text>"), 3);
    assert_eq!(rt; count_of(&drawn, "viewBox=\"0 0 4810 1826\""), 1);
    Ok(())
}

#[test]
fn devices_that_fail_are_told(rt: HostRuntime) -> Result<(), Fail> {
    let alloc = rt.alloc();
    let schedule = MemSource::new(b"tick 0 0\n".to_vec(alloc)?, 5, vec![in alloc; 1]?);
    let (end, drawn) = run_over(alloc, schedule, "1 done\n", Vec::new(alloc))?;
    assert_eq!(rt; end, PictureEnd::ScheduleFault);
    assert!(rt; drawn.is_empty());
    let schedule = MemSource::new(b"tick 0 0\n".to_vec(alloc)?, 5, Vec::new(alloc));
    let (end, drawn) = run_over(alloc, schedule, "1 done\n", vec![in alloc; 2]?)?;
    assert_eq!(rt; end, PictureEnd::SinkFault);
    assert_eq!(rt; drawn.len(), 4096);
    Ok(())
}

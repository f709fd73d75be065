//! The members' lanes.
use crate::paper::{LEFT, column_x, lane_y, lanes_end};
use crate::part::Part;
use crate::run::{Kind, Step, Told};
use craft_base::OutOfMemory;
use entry_frames::Role;
use std::fmt::Write;
use world_model::Verdict;

/// What a member is at some moment of a run.
#[derive(Clone, Copy, Debug, PartialEq, Eq)]
pub(crate) struct Lane {
    role: Role,
    term: u64,
    runs: bool,
    /// How far it has committed.
    pub(crate) commit: u64,
}

impl Lane {
    /// A member that has never run.
    pub(crate) fn new() -> Lane {
        Lane {
            role: Role::Follower,
            term: 0,
            runs: true,
            commit: 0,
        }
    }

    /// What it is after an event of its own.
    fn after(mut self, step: &Step) -> Lane {
        match (step.verdict, step.kind) {
            (Verdict::NoFrame | Verdict::Skip, _) => return self,
            (Verdict::Stop, _) | (Verdict::Done, Kind::Down) => self.runs = false,
            (Verdict::Done, Kind::Up) => {
                self.runs = true;
                self.role = Role::Follower;
            }
            _ => {}
        }
        for told in &step.told {
            self = self.after_told(told);
        }
        self
    }

    /// What it is once it told that.
    pub(crate) fn after_told(mut self, told: &Told) -> Lane {
        match told {
            Told::Role { role, term } => {
                self.role = *role;
                self.term = *term;
            }
            Told::Commit { index } => self.commit = *index,
            Told::Cut { .. } | Told::Whole { .. } | Told::Reply { .. } => {}
        }
        self
    }

    /// How its lane is drawn.
    fn class(self) -> &'static str {
        if self.runs {
            role_word(self.role)
        } else {
            "down"
        }
    }
}

/// A role by its name.
pub(crate) fn role_word(role: Role) -> &'static str {
    match role {
        Role::Follower => "follower",
        Role::Candidate => "candidate",
        Role::Preparing => "preparing",
        Role::Leader => "leader",
    }
}

/// Draws each lane, coloured by the member's role and broken while it is down, and leaves the lanes as the part does.
pub(crate) fn push_lanes(
    drawing: &mut String,
    part: &Part<'_>,
    lanes: &mut [Lane],
) -> Result<(), OutOfMemory> {
    for (number, lane) in (0u8..u8::MAX).zip(lanes) {
        push_name(drawing, number, lane)?;
        *lane = push_lane(drawing, part, number, *lane)?;
    }
    Ok(())
}

/// Draws a member's name, and what it is where the part begins.
fn push_name(drawing: &mut String, number: u8, lane: &Lane) -> Result<(), OutOfMemory> {
    let y = lane_y(number) + 4;
    let class = lane.class();
    let term = lane.term;
    writeln!(
        drawing,
        "<text class=\"member\" x=\"20\" y=\"{y}\">member {number}</text>"
    )?;
    if term > 0 {
        let below = y + 16;
        writeln!(
            drawing,
            "<text class=\"label\" x=\"20\" y=\"{below}\">{class} t{term}</text>"
        )?;
    }
    Ok(())
}

/// Draws a lane that begins as `lane`, and answers as what it ends.
fn push_lane(
    drawing: &mut String,
    part: &Part<'_>,
    number: u8,
    lane: Lane,
) -> Result<Lane, OutOfMemory> {
    let y = lane_y(number);
    let mut now = lane;
    let mut from = LEFT;
    for (column, step) in (0u8..part.columns()).zip(part.steps) {
        if step.member != Some(number) {
            continue;
        }
        let next = now.after(step);
        if next.class() != now.class() {
            let to = column_x(column);
            push_stretch(drawing, now, y, from, to)?;
            from = to;
        }
        now = next;
    }
    push_stretch(drawing, now, y, from, lanes_end(part.columns()))?;
    Ok(now)
}

/// Draws a stretch of a lane.
fn push_stretch(
    drawing: &mut String,
    lane: Lane,
    y: u64,
    from: u64,
    to: u64,
) -> Result<(), OutOfMemory> {
    let class = lane.class();
    writeln!(
        drawing,
        "<path class=\"lane {class}\" d=\"M{from} {y}H{to}\"/>"
    )?;
    Ok(())
}

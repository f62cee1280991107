//! What stands on the sheet when the lock is closed.
use crate::sheet::{Line, Sheet};
use crate::writing::{write_in_turns, write_side_by_side};
use cg_turn::{Turn, at_most_one_seat_has_the_turn, threads_share_locks};
use std::test::Fail;

fn line(seat: u32, before: u32) -> Line {
    Line { seat, before }
}

/// The lines of a seat.
fn lines_by(rt: &HostRuntime, sheet: &Sheet, seat: u32) -> Result<Vec<u32>, Fail> {
    let mut lines = Vec::new(rt.alloc());
    for line in sheet.lines.iter() {
        if line.seat == seat {
            lines.push(line.before)?;
        }
    }
    Ok(lines)
}

/// The one seat writes all lines, and has the number 1.
#[test]
fn one_seat(rt: HostRuntime) -> Result<(), Fail> {
    let (turn, mut seats) = Turn::new(rt.alloc(), Sheet::new(rt.alloc(), 7), 1)?;
    write_in_turns(&rt, &turn, &mut seats, &[(0, 0), (0, 1), (0, 2)]);
    let sheet = turn.close(seats);
    assert_eq!(rt; sheet.heading, 7);
    assert_eq!(rt;
        sheet.lines.as_slice(),
        [line(1, 0), line(1, 1), line(1, 2)].as_slice()
    );
    Ok(())
}

/// Two seats on one thread: the lines stand in the order of the turns.
#[test]
fn two_seats_in_turns(rt: HostRuntime) -> Result<(), Fail> {
    let (turn, mut seats) = Turn::new(rt.alloc(), Sheet::new(rt.alloc(), 0), 2)?;
    write_in_turns(&rt, &turn, &mut seats, &[(1, 0), (0, 0), (0, 1), (1, 1)]);
    let sheet = turn.close(seats);
    assert_eq!(rt;
        sheet.lines.as_slice(),
        [line(2, 0), line(1, 0), line(1, 1), line(2, 1)].as_slice()
    );
    Ok(())
}

/// Eight seats, each on a thread of its own: whatever comes first, each has its lines once and in its order.
#[test]
fn eight_seats_side_by_side(rt: HostRuntime) -> Result<(), Fail> {
    let (turn, mut seats) = Turn::new(rt.alloc(), Sheet::new(rt.alloc(), 3), 8)?;
    write_side_by_side(&rt, &turn, &mut seats, 40);
    let sheet = turn.close(seats);
    assert_eq!(rt; sheet.heading, 3);
    assert_eq!(rt; sheet.lines.len(), 320);
    for seat in 1..9 {
        let lines = lines_by(&rt, &sheet, seat)?;
        assert_eq!(rt; lines.len(), 40, "of seat {seat}");
        for (place, before) in lines.iter().enumerate() {
            assert_eq!(rt; *before as usize, place, "of seat {seat}");
        }
    }
    Ok(())
}

/// The two laws at the type of the sheet.
#[test]
fn laws(_rt: HostRuntime) {
    threads_share_locks::<Sheet>();
    at_most_one_seat_has_the_turn::<Sheet>();
}

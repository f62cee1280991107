ghost use Rattle.std.specs.Prelude.{◌<◌, All, length};
ghost use Rattle.cg_turn.specs.Logs.{StartsWith};
ghost use Rattle.cg_turn.specs.Seats.{lock_of, number_of, seen_of, made_of, IsReady, AreSeats, StaysIdle, AllStayIdle};
ghost use Rattle.tests_turn.specs.Lines.{Writes};

use crate::sheet::{Line, Sheet};
use cg_turn::{Turn, TurnSeat};
use std::sync::Wait;
use std::thread;
use std::thread::Threads;

// Takes the sheet, writes a line on it if there is memory, and gives it on. True where the line was written.
fn write_line<R: Wait>(rt: &R, turn: &Turn<Sheet>, seat: &mut TurnSeat<Sheet>, before: u32) -> bool
    requires { IsReady (lock_of turn.now) seat.old }
    ensures stays { StaysIdle seat.old seat.new }
    ensures seen { StartsWith (seen_of seat.new) (seen_of seat.old) }
    ensures made { Writes (number_of seat.old) before result (made_of seat.old) (made_of seat.new) }
{
    let mut sheet = turn.take(rt, seat);
    let line = Line {
        seat: seat.number(),
        before,
    };
    match sheet.write(line) {
        Ok(()) => {
            turn.give(seat, sheet);
            true
        }
        Err(_) => {
            turn.give(seat, sheet);
            false
        }
    }
}

// Writes some lines, each under a turn of its own.
fn write_lines<R: Wait>(rt: &R, turn: &Turn<Sheet>, seat: &mut TurnSeat<Sheet>, lines: u32)
    requires { IsReady (lock_of turn.now) seat.old }
    ensures { StaysIdle seat.old seat.new }
{
    for before in 0..lines {
        write_line(rt, turn, seat, before);
    }
}

/// Lines by the seats at the places of the list, each with what stands beside it. Places that aren't there write none.
pub fn write_in_turns<R: Wait>(
    rt: &R,
    turn: &Turn<Sheet>,
    seats: &mut Vec<TurnSeat<Sheet>>,
    turns: &[(usize, u32)],
)
    requires { AreSeats (lock_of turn.now) seats.old.items }
    ensures { AreSeats (lock_of turn.now) seats.new.items }
{
    for &(place, before) in turns {
        if place < seats.len() {
            write_at(rt, turn, seats, place, before);
        }
    }
}

// A line by the seat at this place.
fn write_at<R: Wait>(
    rt: &R,
    turn: &Turn<Sheet>,
    seats: &mut Vec<TurnSeat<Sheet>>,
    place: usize,
    before: u32,
)
    requires seats { AreSeats (lock_of turn.now) seats.old.items }
    requires place { place < length seats.old.items }
    ensures { AreSeats (lock_of turn.now) seats.new.items }
{
    write_line(rt, turn, &mut seats[place], before);
}

/// Some lines by each seat, in as many threads as there are seats.
pub fn write_side_by_side<R: Threads + Wait + Sync>(
    rt: &R,
    turn: &Turn<Sheet>,
    seats: &mut Vec<TurnSeat<Sheet>>,
    lines: u32,
)
    requires { AreSeats (lock_of turn.now) seats.old.items }
    ensures { AreSeats (lock_of turn.now) seats.new.items }
{
    write_each(rt, turn, seats.as_mut_slice(), lines);
}

// Some lines by each of these seats.
fn write_each<R: Threads + Wait + Sync>(
    rt: &R,
    turn: &Turn<Sheet>,
    seats: &mut [TurnSeat<Sheet>],
    lines: u32,
)
    requires { All (λ seat. IsReady (lock_of turn.now) seat) seats.old }
    ensures { AllStayIdle seats.old seats.new }
{
    let count = seats.len();
    if count == 0 {
        return;
    }
    thread::for_each_mut(
        rt,
        seats,
        count,
        &|_, seat| { write_lines(rt, turn, seat, lines) },
    );
}

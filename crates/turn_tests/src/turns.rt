ghost use Rattle.std.specs.Prelude.{◌≡◌, ◌≤◌, IfOk};
ghost use Rattle.turn_cell.specs.Turns.{IsPassOf, number_of, left_of};

use std::alloc::Global;
use std::sync::Wait;
use std::test::Fail;
use std::thread::{Threads, join};
use turn_cell::{Busy, CloseNo, Mark, Marks, Pass, TurnCell, leave_mark, try_to_leave_mark};

// As many turns as are asked for.
fn turns<R: Wait>(rt: &R, cell: &TurnCell<Marks>, mut pass: Pass<Marks>, count: u32) -> Pass<Marks>
    requires own { IsPassOf cell.now pass }
    requires left { count ≤ left_of pass }
    ensures own { IsPassOf cell.now result }
{
    let by = pass.number();
    for round in 0..count {
        leave_mark(rt, cell, &mut pass, Mark { by, round });
    }
    pass
}

// A cell with room for some marks, and its two passes.
fn two(alloc: Global, room: usize) -> Result<(TurnCell<Marks>, Pass<Marks>, Pass<Marks>), Fail>
    ensures own { IfOk result (λ r. IsPassOf r.0 r.1 × IsPassOf r.0 r.2) }
    ensures numbers { IfOk result (λ r. (number_of r.1 ≡ 0) × (number_of r.2 ≡ 1) × (left_of r.1 ≡ 281474976710655) × (left_of r.2 ≡ 281474976710655)) }
{
    let marks = Vec::with_capacity(alloc, room)?;
    let list = Marks { marks, full: false };
    let Ok((cell, mut passes)) = TurnCell::new(alloc, list, 2) else {
        return Err(Fail::new("there was no memory"));
    };
    let Some(second) = passes.pop() else {
        return Err(Fail::new("a pass is missing"));
    };
    let Some(first) = passes.pop() else {
        return Err(Fail::new("a pass is missing"));
    };
    Ok((cell, first, second))
}

#[test]
fn a_turn_that_another_has_is_refused(rt: HostRuntime) -> Result<(), Fail> {
    let (cell, mut first, mut second) = two(rt.alloc(), 2)?;
    let mark = Mark { by: 0, round: 0 };
    let mut turn = match first.try_turn(&cell) {
        Ok(turn) => turn,
        Err(_) => panic!(rt; "the first turn was refused"),
    };
    let refused = try_to_leave_mark(&cell, &mut second, Mark { by: 1, round: 0 });
    turn.value().add(mark);
    turn.finish(&mark);
    assert!(rt;
        matches!(
            refused,
            Err(Busy {
                serving: 0,
                next: 1
            })
        )
    );
    assert!(rt; try_to_leave_mark(&cell, &mut second, Mark { by: 1, round: 1 }).is_ok());
    assert!(rt; first.left() == 281_474_976_710_654 && second.left() == 281_474_976_710_654);
    let mut passes = Vec::with_capacity(rt.alloc(), 2)?;
    passes.push_reserved(first);
    let no = match cell.close(passes) {
        Ok(_) => panic!(rt; "a pass was missing"),
        Err(no) => no,
    };
    assert!(rt; no.made == 2 && no.passes.len() == 1);
    let CloseNo {
        cell,
        mut passes,
        made: _,
    } = no;
    passes.push_reserved(second);
    match cell.close(passes) {
        Ok(closed) => {
            let marks = [mark, Mark { by: 1, round: 1 }];
            assert!(rt; closed.turns == 2 && closed.value.marks.as_slice() == marks.as_slice());
        }
        Err(_) => panic!(rt; "no pass was missing"),
    }
    Ok(())
}

// The turns of two passes in two threads.
fn both<R: Threads + Wait + Sync>(
    rt: &R,
    cell: &TurnCell<Marks>,
    first: Pass<Marks>,
    second: Pass<Marks>,
) -> (Pass<Marks>, Pass<Marks>)
    requires own { IsPassOf cell.now first × IsPassOf cell.now second }
    requires left { (100 ≤ left_of first) × (100 ≤ left_of second) }
    ensures own { IsPassOf cell.now result.0 × IsPassOf cell.now result.1 }
{
    join(
        rt,
        || -> Pass<Marks>
            requires { IsPassOf cell.now first × (100 ≤ left_of first) }
            ensures { IsPassOf cell.entry.now result }
        { turns(rt, cell, first, 100) },
        || -> Pass<Marks>
            requires { IsPassOf cell.now second × (100 ≤ left_of second) }
            ensures { IsPassOf cell.entry.now result }
        { turns(rt, cell, second, 100) },
    )
}

#[test]
fn two_threads_take_turns(rt: HostRuntime) -> Result<(), Fail> {
    let (cell, first, second) = two(rt.alloc(), 200)?;
    let mut passes = Vec::with_capacity(rt.alloc(), 2)?;
    let (first, second) = both(&rt, &cell, first, second);
    passes.push_reserved(first);
    passes.push_reserved(second);
    match cell.close(passes) {
        Ok(closed) => {
            assert!(rt;
                closed.turns == 200 && closed.value.marks.len() == 200 && !closed.value.full
            );
            for by in 0..2 {
                let mut round = 0;
                for mark in &closed.value.marks {
                    if mark.by == by {
                        assert_eq!(rt; mark.round, round);
                        round = round.wrapping_add(1);
                    }
                }
                assert_eq!(rt; round, 100);
            }
        }
        Err(_) => panic!(rt; "no pass was missing"),
    }
    Ok(())
}

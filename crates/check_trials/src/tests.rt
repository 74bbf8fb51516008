use checker::check;
use plan::Planned;
use program::{Assembled, Counts, Name, Unit};
use std::process::Abort;
use std::test::Fail;

// A refusal: the number of its cause, and its place.
#[derive(Clone, Copy, PartialEq, Eq)]
struct Refusal(u32, i64);

// The check of the program with so much code in these cells. Its plan and the visit list are left in the tables.
fn judge(
    rt: &impl Abort,
    cells: &[i32],
    code: usize,
    units: &[Unit],
    plan: &mut [Option<Planned>],
    visits: &mut [u32],
) -> Result<(), Refusal> {
    let counts = Counts {
        cells: cells.len(),
        code,
        data: 0,
        heap: 0,
        labels: 0,
        units: units.len(),
    };
    let program = Assembled::new(counts).expect(rt, "a program has these counts");
    check(program, cells, units, plan, visits)
        .map(|_| ())
        .map_err(|refused| Refusal(refused.fault.number(), refused.fault.place().number()))
}

// The program alone in 16 cells or more, with tables of 64 places.
fn trial(
    rt: &impl Abort,
    cells: &[i32],
    code: usize,
    units: &[Unit],
    answer: Result<(), Refusal>,
) -> Result<(), Fail> {
    let mut plan = [None; 64];
    let mut visits = [7; 64];
    assert!(rt; judge(rt, cells, code, units, &mut plan, &mut visits) == answer);
    Ok(())
}

// The program net, with the offset of its first LOAD and the count of its RET.
fn net(offset: i32, count: i32) -> [i32; 24] {
    [
        39, 1, 1, 40, 1, -55, 1, 11, 35, 27, 42, 36, 37, 38, 30, offset, 30, 3, 2, 31, 5, 38, 41,
        count,
    ]
}

fn net_unit(entry: u32) -> Unit {
    Unit {
        name: Name::empty(),
        entry,
        arguments: 2,
        results: 1,
    }
}

// Body and depth of a place in one number.
// Stays: -1 for an address without a place, so that the plan that is wanted is a plain list of numbers.
fn depth(planned: Option<Planned>) -> i32 {
    planned.map_or(-1, |planned| {
        1000 * i32::from(planned.body) + i32::from(planned.depth)
    })
}

// The plan of net is the one of docs/CHECK.md, and the visit list is zero.
#[test]
fn plan_of_net(rt: HostRuntime) -> Result<(), Fail> {
    let mut plan = [Some(Planned { body: 9, depth: 9 }); 26];
    let mut visits = [7; 25];
    let answer = judge(&rt, &net(4, 2), 24, &[net_unit(11)], &mut plan, &mut visits);
    assert!(rt; answer == Ok(()));
    let wanted = [
        0, -1, 1, -1, 2, -1, 3, -1, -1, 1, 0, -1, -1, -1, 1000, -1, 1001, -1, 1002, 1001, -1, 1000,
        -1, -1, -1, -1,
    ];
    for (planned, wanted) in plan.iter().zip(wanted) {
        assert_eq!(rt; depth(*planned), wanted);
    }
    for visit in visits {
        assert_eq!(rt; visit, 0);
    }
    Ok(())
}

#[test]
fn variants_of_net(rt: HostRuntime) -> Result<(), Fail> {
    trial(&rt, &net(5, 2), 24, &[net_unit(11)], Ok(()))?;
    trial(&rt, &net(6, 2), 24, &[net_unit(11)], Err(Refusal(18, 14)))?;
    trial(&rt, &net(2, 2), 24, &[net_unit(11)], Err(Refusal(18, 14)))?;
    trial(&rt, &net(4, 1), 24, &[net_unit(11)], Err(Refusal(16, 21)))?;
    trial(&rt, &net(4, 2), 24, &[net_unit(12)], Err(Refusal(14, 12)))?;
    trial(
        &rt,
        &net(4, 2),
        24,
        &[net_unit(11), net_unit(11)],
        Err(Refusal(14, 11)),
    )?;
    trial(&rt, &net(4, 2), 23, &[net_unit(11)], Err(Refusal(13, 22)))?;
    trial(&rt, &net(4, 2), 24, &[], Err(Refusal(16, 6)))
}

#[test]
fn depths_and_ways(rt: HostRuntime) -> Result<(), Fail> {
    let again = [1, 1, 20, 0, 0, 0, 0, 0, 0, 0, 0, 0, 0, 0, 0, 0];
    trial(&rt, &again, 4, &[], Err(Refusal(20, 0)))?;
    let deep = [39, 1000, 42, 0, 0, 0, 0, 0, 0, 0, 0, 0, 0, 0, 0, 0];
    trial(&rt, &deep, 3, &[], Ok(()))?;
    trial(&rt, &deep, 4, &[], Err(Refusal(13, 3)))?;
    trial(&rt, &deep, 0, &[], Err(Refusal(15, 0)))?;
    let deeper = [39, 1000, 1, 1, 42, 0, 0, 0, 0, 0, 0, 0, 0, 0, 0, 0];
    trial(&rt, &deeper, 5, &[], Err(Refusal(19, 2)))?;
    let off = [20, -5, 42, 0, 0, 0, 0, 0, 0, 0, 0, 0, 0, 0, 0, 0];
    trial(&rt, &off, 3, &[], Err(Refusal(15, -5)))?;
    let shallow = [31, 0, 42, 0, 0, 0, 0, 0, 0, 0, 0, 0, 0, 0, 0, 0];
    trial(&rt, &shallow, 3, &[], Err(Refusal(17, 0)))
}

// Short tables and another memory: nothing is touched.
#[test]
fn untouched(rt: HostRuntime) -> Result<(), Fail> {
    let cells = [42; 16];
    let mut plan = [Some(Planned { body: 9, depth: 9 }); 3];
    let mut visits = [7; 4];
    assert!(rt; judge(&rt, &cells, 4, &[], &mut plan, &mut visits) == Err(Refusal(12, 0)));
    assert_eq!(rt; depth(plan[0]), 9009);
    assert_eq!(rt; visits[0], 7);
    Ok(())
}

// A full memory of HALT that begins with so many branches, each after a PUSH 0, to the targets of their numbers.
fn branches<F: Fn(u16) -> i32>(count: u16, target: F) -> [i32; 65536]
    requires { F.IsAlwaysCallable target }
{
    let mut cells = [42; 65536];
    for (k, four) in (0..count).zip(cells.chunks_exact_mut(4)) {
        four.copy_from_slice(&[1, 0, 21, target(k)]);
    }
    cells
}

// Every branch goes back to an address that has its place.
#[test]
fn long_programs(rt: HostRuntime) -> Result<(), Fail> {
    let cells = branches(16383, |k| 4 * i32::from(k));
    let mut plan = [None; 65536];
    let mut visits = [0; 65536];
    assert!(rt; judge(&rt, &cells, 65533, &[], &mut plan, &mut visits) == Ok(()));
    Ok(())
}

// Every branch goes far on, to an address that has no place yet.
#[test]
fn far_branches(rt: HostRuntime) -> Result<(), Fail> {
    let cells = branches(8192, |k| 65535 - i32::from(k));
    let mut plan = [None; 65536];
    let mut visits = [0; 65536];
    assert!(rt; judge(&rt, &cells, 65536, &[], &mut plan, &mut visits) == Ok(()));
    Ok(())
}

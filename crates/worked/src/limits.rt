use ltlf::operator::Operator;
use task::Task;

// The number of the refusal, or 0: the tests below compare with that number, and keep their values.
fn refusal(marks: u8, operators: &[Operator]) -> u8 {
    match Task::compile(marks, operators) {
        Ok(_) => 0,
        Err(fault) => fault.number(),
    }
}

// The number of states, or 0 for a refusal: a number too, for the same reason.
fn states(marks: u8, operators: &[Operator]) -> u8 {
    match Task::compile(marks, operators) {
        Ok(task) => task.states(),
        Err(_) => 0,
    }
}

// Just inside each limit, and just outside.
#[test]
fn each_limit(rt: HostRuntime) {
    let mut nots = [Operator::Not; 65];
    nots[64] = Operator::True;
    assert_eq!(rt; refusal(1, &nots[1..65]), 0);
    assert_eq!(rt; refusal(1, &nots[0..65]), 7);
    let mut nexts = [Operator::Next; 8];
    nexts[7] = Operator::True;
    assert_eq!(rt; refusal(1, &nexts[1..8]), 0);
    assert_eq!(rt; refusal(1, &nexts[0..8]), 8);
    assert_eq!(rt; refusal(2, &[Operator::Mark(1)]), 0);
    assert_eq!(rt; refusal(2, &[Operator::Mark(2)]), 6);
    assert_eq!(rt; refusal(6, &[Operator::Mark(5)]), 0);
    assert_eq!(rt; refusal(7, &[Operator::Mark(5)]), 6);
    assert_eq!(rt; refusal(0, &[Operator::True]), 6);
    assert_eq!(rt; refusal(1, &[]), 4);
    assert_eq!(rt; refusal(1, &[Operator::And, Operator::True]), 4);
    assert_eq!(rt; refusal(1, &[Operator::True, Operator::True]), 4);
}

// Of two questions with the answer no, the earlier one refuses.
#[test]
fn in_order(rt: HostRuntime) {
    assert_eq!(rt; refusal(0, &[Operator::Not]), 4);
    let mut marked = [Operator::Not; 65];
    marked[64] = Operator::Mark(1);
    assert_eq!(rt; refusal(1, &marked), 6);
    let mut nexts = [Operator::Next; 65];
    nexts[64] = Operator::True;
    assert_eq!(rt; refusal(1, &nexts), 7);
}

// Mark 0, and mark 1 five letters later: 33 states after eventually, 65 after an until from mark 2.
#[test]
fn many_states(rt: HostRuntime) {
    let mut later = [Operator::Next; 9];
    later[0] = Operator::Eventually;
    later[1] = Operator::And;
    later[2] = Operator::Mark(0);
    later[8] = Operator::Mark(1);
    assert_eq!(rt; states(2, &later), 33);
    let mut until = [Operator::Next; 10];
    until[0] = Operator::Until;
    until[1] = Operator::Mark(2);
    until[2] = Operator::And;
    until[3] = Operator::Mark(0);
    until[9] = Operator::Mark(1);
    assert_eq!(rt; refusal(3, &until), 10);
    // with one next more it has seven temporal operators too, which is asked first
    let mut deeper = [Operator::Next; 11];
    deeper[0] = Operator::Until;
    deeper[1] = Operator::Mark(2);
    deeper[2] = Operator::And;
    deeper[3] = Operator::Mark(0);
    deeper[10] = Operator::Mark(1);
    assert_eq!(rt; refusal(3, &deeper), 8);
}

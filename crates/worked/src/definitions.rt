use crate::bore_operators;
use ltlf::operator::Operator;
use std::test::Fail;
use task::Task;

// The states of the worked task, from the code.
#[test]
fn worked_states(rt: HostRuntime) -> Result<(), Fail> {
    let task = Task::compile(2, &bore_operators())?;
    assert_eq!(rt; task.letters(), 4);
    assert_eq!(rt; task.states(), 5);
    assert_eq!(rt; task.forecasts(0), Some(170));
    assert_eq!(rt; task.forecasts(1), Some(238));
    assert_eq!(rt; task.forecasts(2), Some(250));
    assert_eq!(rt; task.forecasts(3), Some(254));
    assert_eq!(rt; task.forecasts(4), Some(255));
    assert_eq!(rt; task.forecasts(5), None);
    assert_eq!(rt; task.accepts(3), Some(false));
    assert_eq!(rt; task.accepts(4), Some(true));
    assert_eq!(rt; task.accepts(5), None);
    Ok(())
}

// Lists of letters, and numbers out of range.
#[test]
fn worked_letters(rt: HostRuntime) -> Result<(), Fail> {
    let task = Task::compile(2, &bore_operators())?;
    assert_eq!(rt; task.satisfied_by(&[0, 2, 0, 1, 0, 2]), Some(true));
    assert_eq!(rt; task.satisfied_by(&[0, 2, 0, 1, 0]), Some(false));
    assert_eq!(rt; task.satisfied_by(&[3]), Some(false));
    assert_eq!(rt; task.satisfied_by(&[3, 3]), Some(true));
    assert_eq!(rt; task.satisfied_by(&[]), Some(false));
    assert_eq!(rt; task.satisfied_by(&[3, 4]), None);
    assert_eq!(rt; task.satisfied_by(&[4]), None);
    assert_eq!(rt; task.first(3), Some(1));
    assert_eq!(rt; task.first(4), None);
    assert_eq!(rt; task.next(1, 2), Some(4));
    assert_eq!(rt; task.next(5, 0), None);
    assert_eq!(rt; task.next(4, 4), None);
    Ok(())
}

// The least number of letters to acceptance, and none where nothing leads there.
#[test]
fn worked_distances(rt: HostRuntime) -> Result<(), Fail> {
    let task = Task::compile(2, &bore_operators())?;
    assert_eq!(rt; task.distance(0), Some(2));
    assert_eq!(rt; task.distance(1), Some(1));
    assert_eq!(rt; task.distance(2), Some(1));
    assert_eq!(rt; task.distance(4), Some(0));
    assert_eq!(rt; task.distance(5), None);
    let never = [Operator::Always, Operator::Not, Operator::Mark(0)];
    let safe = Task::compile(1, &never)?;
    assert_eq!(rt; safe.distance(0), Some(0));
    assert_eq!(rt; safe.distance(1), None);
    Ok(())
}

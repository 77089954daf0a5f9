//! Tickets of several seats.
use bep_history::{Chair, History};
use std::marker::Brand;
use std::test::Fail;

#[test]
fn tickets_rise_from_one(rt: HostRuntime) -> Result<(), Fail> {
    let (history, mut seat) = History::begin(rt.alloc(), &Vec::new(rt.alloc()))?;
    let first = history.draw(&rt, &mut seat);
    let mut other = history.fresh();
    let second = history.draw(&rt, &mut other);
    history.give_up(&mut seat);
    let third = history.draw(&rt, &mut seat);
    history.join(&mut seat, other);
    let mut receipt = history.receipt(&mut seat);
    history.learn(&mut receipt);
    let fourth = history.draw(&rt, &mut receipt);
    assert!(rt; [first, second, third, fourth] == [1, 2, 3, 4]);
    Ok(())
}

#[test]
fn where_nobody_sits_tickets_rise_too(rt: HostRuntime) -> Result<(), Fail> {
    let (history, mut seat) = History::begin(rt.alloc(), &Vec::new(rt.alloc()))?;
    let mut nobody = Chair::<Brand>::nobody();
    let mut other = nobody.split(&history);
    let first = nobody.draw(&rt, &history);
    let second = other.draw(&rt, &history);
    nobody.tell_both(&history, &mut other, None);
    other.tell(&history, None);
    nobody.give(&history, &mut seat);
    let third = history.draw(&rt, &mut seat);
    assert!(rt; [first, second, third] == [1, 2, 3]);
    Ok(())
}

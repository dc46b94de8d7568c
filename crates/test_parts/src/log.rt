//! A log of commands in memory: that calls succeed, and that numbers go on over a replace.
use command_log::{CommandLog, LogFault, LogPlace};
use sqlite::MemStore;
use std::alloc::Global;
use std::test::Fail;

fn texts(alloc: Global, lines: &[&str]) -> Result<Vec<String>, Fail> {
    let mut texts = Vec::new(alloc);
    for line in lines {
        texts.push(String::from_str(alloc, line)?)?;
    }
    Ok(texts)
}

fn log_of(alloc: Global, lines: &[&str]) -> Result<CommandLog<MemStore>, Fail> {
    let mut log = CommandLog::open_in_memory(alloc)?;
    let texts = texts(alloc, lines)?;
    log.append(&texts)?;
    Ok(log)
}

#[test]
fn appends_and_reads(rt: HostRuntime) -> Result<(), Fail> {
    let alloc = rt.alloc();
    let mut log = log_of(alloc, &[])?;
    assert_eq!(rt; log.read()?.len(), 0);
    let two = texts(alloc, &["one", "two"])?;
    log.append(&two)?;
    log.append(&two)?;
    let lines = log.read()?;
    assert_eq!(rt; lines.len(), 4);
    assert_eq!(rt; lines[2].as_str(), "one");
    assert_eq!(rt; lines[3].as_str(), "two");
    Ok(())
}

#[test]
fn replaces(rt: HostRuntime) -> Result<(), Fail> {
    let alloc = rt.alloc();
    let mut log = log_of(alloc, &["one", "two", "three"])?;
    let other = texts(alloc, &["four"])?;
    log.replace(&other)?;
    let lines = log.read()?;
    assert_eq!(rt; lines.len(), 1);
    assert_eq!(rt; lines[0].as_str(), "four");
    Ok(())
}

#[test]
fn numbers_go_on_over_a_replace(rt: HostRuntime) -> Result<(), Fail> {
    let alloc = rt.alloc();
    let mut log = log_of(alloc, &["one", "two"])?;
    let old = log.read_batch(LogPlace::start(), 3)?;
    let other = texts(alloc, &["three"])?;
    log.replace(&other)?;
    log.append(&other)?;
    let new = log.read_batch(old.next, 3)?;
    assert_eq!(rt; new.lines.len(), 2);
    Ok(())
}

#[test]
fn reads_in_steps(rt: HostRuntime) -> Result<(), Fail> {
    let alloc = rt.alloc();
    let mut log = log_of(alloc, &["one", "two", "three"])?;
    let first = log.read_batch(LogPlace::start(), 2)?;
    assert_eq!(rt; first.lines.len(), 2);
    assert_eq!(rt; first.lines[1].as_str(), "two");
    let second = log.read_batch(first.next, 2)?;
    assert_eq!(rt; second.lines.len(), 1);
    assert_eq!(rt; second.lines[0].as_str(), "three");
    let third = log.read_batch(second.next, 2)?;
    assert_eq!(rt; third.lines.len(), 0);
    Ok(())
}

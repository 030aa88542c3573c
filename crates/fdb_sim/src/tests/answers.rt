// What each answer is printed as.
use bytes::Bytes;
use fdb_core::{Answered, Outcome, Verdict};
use fdb_keys::{Items, Refusal};
use fdb_play::{Kind, RefusalLine, push_answer};
use std::alloc::Global;
use std::process::Abort;
use std::test::Fail;

fn check_answer(
    rt: &impl Abort,
    alloc: Global,
    kind: Kind,
    answered: Answered,
    line: &str,
) -> Result<(), Fail> {
    let mut text = String::new(alloc);
    push_answer(&mut text, kind, &answered)?;
    assert_eq!(rt; text.as_str(), line);
    Ok(())
}

fn check_refusal(rt: &impl Abort, alloc: Global, refusal: Refusal, line: &str) -> Result<(), Fail> {
    let refused = RefusalLine(refusal);
    let text = format!(in alloc; "{refused}")?;
    assert_eq!(rt; text.as_str(), line);
    Ok(())
}

#[test]
fn values(rt: HostRuntime) -> Result<(), Fail> {
    check_answer(&rt, rt.alloc(), Kind::Get, Answered::Value(None), "none")?;
    let empty = Answered::Value(Some(Bytes::new()));
    check_answer(&rt, rt.alloc(), Kind::Get, empty, "value %")?;
    let bytes = Bytes::from_static(b"aZ09._/\x00-%\xff ");
    check_answer(
        &rt,
        rt.alloc(),
        Kind::Get,
        Answered::Value(Some(bytes)),
        "value aZ09._/%00%2d%25%ff%20",
    )
}

#[test]
fn verdicts(rt: HostRuntime) -> Result<(), Fail> {
    let list = vec![in rt.alloc();
        (0, Verdict::Yes),
        (2, Verdict::Conflict),
        (3, Verdict::Old),
    ]?;
    let verdicts = Answered::Verdicts(Items::from_vec(list));
    check_answer(
        &rt,
        rt.alloc(),
        Kind::Resolve,
        verdicts,
        "verdict 0=yes 2=conflict 3=old",
    )
}

#[test]
fn outcomes(rt: HostRuntime) -> Result<(), Fail> {
    let commit = Outcome::Commit {
        version: 100,
        place: 0,
    };
    let list = vec![in rt.alloc(); commit, Outcome::Conflict, Outcome::Old]?;
    let decided = Answered::Decided(Items::from_vec(list));
    check_answer(
        &rt,
        rt.alloc(),
        Kind::Decide,
        decided,
        "decided 0=commit 1=conflict 2=old",
    )?;
    let list = vec![in rt.alloc(); (7, commit), (1, Outcome::Conflict), (4, Outcome::Old)]?;
    let answers = Answered::Answers(Items::from_vec(list));
    check_answer(
        &rt,
        rt.alloc(),
        Kind::Answer,
        answers,
        "answer 7=100/0 1=1020 4=1007",
    )
}

#[test]
fn refusals(rt: HostRuntime) -> Result<(), Fail> {
    let cases = [
        (Refusal::NotYet(100), "refused 9002 NotYet 100"),
        (Refusal::Repeated(3), "refused 9007 Repeated"),
        (Refusal::NoMemory, "refused 9001 NoMemory"),
        (Refusal::FutureVersion, "refused 1009 FutureVersion"),
        (Refusal::WrongState, "refused 9014 WrongState"),
        (Refusal::Unknown, "refused 9016 Unknown"),
    ];
    for (refusal, line) in cases {
        check_refusal(&rt, rt.alloc(), refusal, line)?;
    }
    Ok(())
}

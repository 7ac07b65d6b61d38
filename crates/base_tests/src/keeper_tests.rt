// The keepers in memory: rows that are put, erased and loaded, and the calls that are to fail.
use doc_tree::{Bytes, Text};
use outside_keeper::{
    Change, Changes, KeepFault, Keeper, MemKeeper, NeverFailingKeeper, Row, RowKey,
};
use std::alloc::Global;
use std::fmt::Write as _;
use std::test::Fail;

fn key(alloc: Global, org: &str, kind: &str, name: &str) -> Result<RowKey, Fail> {
    let org = Text::from_str(alloc, org)?;
    let kind = Text::from_str(alloc, kind)?;
    let name = Text::from_str(alloc, name)?;
    Ok(RowKey { org, kind, name })
}

// What a list asks for: `ORG KIND NAME BODY` puts a row, and a body of `-` erases it.
fn changes_of(alloc: Global, list: &[[&str; 4]]) -> Result<Changes, Fail> {
    let mut changes = Changes::new(alloc);
    for [org, kind, name, body] in list {
        let key = key(alloc, org, kind, name)?;
        changes.push(change_of(alloc, key, body)?)?;
    }
    Ok(changes)
}

fn change_of(alloc: Global, key: RowKey, body: &str) -> Result<Change, Fail> {
    if body == "-" {
        return Ok(Change::Erase(key));
    }
    Ok(Change::Put(key, Bytes::from_slice(alloc, body.as_bytes())?))
}

// Makes changes, and tells what was answered and how often the keeper has failed.
fn commit<K: Keeper>(
    alloc: Global,
    keeper: &mut K,
    list: &[[&str; 4]],
    told: &mut String,
) -> Result<(), Fail> {
    let changes = changes_of(alloc, list)?;
    match keeper.commit(alloc, &changes) {
        Ok(()) => told.push_str("committed")?,
        Err(fault) => write!(told, "{fault}")?,
    }
    Ok(writeln!(told, ", {} faults", keeper.faults())?)
}

// Tells all rows, or why there are none.
fn load<K: Keeper>(alloc: Global, keeper: &mut K, told: &mut String) -> Result<(), Fail> {
    match keeper.load(alloc) {
        Ok(rows) => tell(told, rows.as_slice())?,
        Err(fault) => tell_fault(told, fault)?,
    }
    Ok(writeln!(told, "{} faults", keeper.faults())?)
}

fn tell_fault(told: &mut String, fault: KeepFault) -> Result<(), Fail> {
    Ok(write!(told, "{fault}, ")?)
}

fn tell(told: &mut String, rows: &[Row]) -> Result<(), Fail> {
    for (key, body) in rows {
        write!(
            told,
            "{} {} {} {}, ",
            key.org,
            key.kind,
            key.name,
            body.len()
        )?;
    }
    Ok(())
}

fn change_and_load(
    alloc: Global,
    keeper: &mut NeverFailingKeeper,
    told: &mut String,
) -> Result<(), Fail> {
    load(alloc, keeper, told)?;
    commit(
        alloc,
        keeper,
        &[
            ["b", "node", "x", "1"],
            ["a", "node", "y", "22"],
            ["a", "acl", "node/y", ""],
        ],
        told,
    )?;
    load(alloc, keeper, told)?;
    commit(
        alloc,
        keeper,
        &[
            ["a", "node", "y", "333"],
            ["b", "node", "x", "-"],
            ["b", "none", "x", "-"],
        ],
        told,
    )?;
    load(alloc, keeper, told)?;
    commit(
        alloc,
        keeper,
        &[
            ["a", "role", "r", "1"],
            ["a", "role", "r", "-"],
            ["a", "role", "r", "4444"],
        ],
        told,
    )?;
    load(alloc, keeper, told)
}

#[test]
fn rows_are_loaded_in_the_order_of_their_keys(rt: HostRuntime) -> Result<(), Fail> {
    let alloc = rt.alloc();
    let mut keeper = NeverFailingKeeper::new(alloc);
    let mut told = String::new(alloc);
    change_and_load(alloc, &mut keeper, &mut told)?;
    assert_eq!(rt;
        told.as_str(),
        "0 faults\n\
         committed, 0 faults\n\
         a acl node/y 0, a node y 2, b node x 1, 0 faults\n\
         committed, 0 faults\n\
         a acl node/y 0, a node y 3, 0 faults\n\
         committed, 0 faults\n\
         a acl node/y 0, a node y 3, a role r 4, 0 faults\n"
    );
    Ok(())
}

fn fail_and_go_on(alloc: Global, keeper: &mut MemKeeper, told: &mut String) -> Result<(), Fail> {
    commit(alloc, keeper, &[["a", "node", "y", "22"]], told)?;
    load(alloc, keeper, told)?;
    commit(
        alloc,
        keeper,
        &[["a", "node", "x", "1"], ["a", "node", "y", "-"]],
        told,
    )?;
    load(alloc, keeper, told)?;
    commit(alloc, keeper, &[["a", "node", "x", "1"]], told)?;
    load(alloc, keeper, told)
}

#[test]
fn a_keeper_fails_at_the_planned_calls_and_keeps_its_rows(rt: HostRuntime) -> Result<(), Fail> {
    let alloc = rt.alloc();
    let mut keeper = MemKeeper::new(alloc, vec![in alloc; 2, 3, 9]?);
    keeper.put(key(alloc, "a", "org", "")?, Bytes::constant(b"{}"))?;
    let mut told = String::new(alloc);
    fail_and_go_on(alloc, &mut keeper, &mut told)?;
    tell(&mut told, keeper.rows())?;
    assert_eq!(rt;
        told.as_str(),
        "committed, 0 faults\n\
         keeper fault, 1 faults\n\
         keeper fault, 2 faults\n\
         a node y 2, a org  2, 2 faults\n\
         committed, 2 faults\n\
         a node x 1, a node y 2, a org  2, 2 faults\n\
         a node x 1, a node y 2, a org  2, "
    );
    Ok(())
}

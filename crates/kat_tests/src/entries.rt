//! The entries of a table, worked out by hand.
use kat_expr::Entries;
use kat_num::Value;
use std::alloc::Global;
use std::process::Abort;
use std::test::Fail;

const A: Value = Value::Name(0x61_0000_0000_0000_0000_0000_0000_0000);

const B: Value = Value::Name(0x62_0000_0000_0000_0000_0000_0000_0000);

const TRUE: Value = Value::Bool(true);

fn check_keys(rt: &impl Abort, alloc: Global, entries: &mut Entries) -> Result<(), Fail> {
    for key in &[Value::Num(-3), Value::Num(0), Value::Num(9), A, B] {
        let value = Value::Num(entries.as_slice().len() as i128 + 1);
        assert!(rt; entries.goes_behind(*key));
        entries.push(alloc, *key, value)?;
    }
    for key in &[TRUE, Value::Num(10), A, B] {
        assert!(rt; !entries.goes_behind(*key));
    }
    let rows = [
        (Value::Num(-4), 7),
        (Value::Num(-3), 1),
        (Value::Num(0), 2),
        (Value::Num(1), 7),
        (Value::Num(9), 3),
        (Value::Num(10), 7),
        (Value::Name(0), 7),
        (A, 4),
        (B, 5),
        (TRUE, 7),
    ];
    for (key, want) in &rows {
        assert!(rt; entries.get(*key, Value::Num(7)) == Value::Num(*want));
    }
    Ok(())
}

#[test]
fn keys_of_a_table(rt: HostRuntime) -> Result<(), Fail> {
    let mut entries = Entries::new(rt.alloc());
    check_keys(&rt, rt.alloc(), &mut entries)
}

//! Times of values that are changed in loops.
use crate::benches::measuring::measured;
use std::alloc::{AllocError, Global};
use std::io;
use tcl_lists::nested::{remove_key, set_element, set_value};
use tcl_text::integer::Integers;
use tcl_text::text::Text;
use tcl_value::value::{Value, ValueError};

/// How often the entries of a dict are changed, and a literal is read.
const CHANGES: u32 = 1_000_000;

/// How many elements or keys stand in a list or dict whose parts are changed.
const PARTS: usize = 1000;

/// What is done to a value, so often.
#[derive(Clone, Copy)]
enum Work {
    Increments,
    Appends,
    Pushes,
    Sets,
    /// In an inner list of so many elements.
    InnerSets(usize),
    /// In an inner dict of so many keys.
    InnerEntries(u32),
    /// From an inner dict of so many keys.
    InnerRemovals(u32),
    InnerAppends,
    InnerPushes,
    KeysAdded,
}

/// The work, what it is called, and how often it is done.
const WORKS: [(&str, Work, u32); 19] = [
    ("10,000,000 increments", Work::Increments, 10_000_000),
    ("100,000 appends to a text", Work::Appends, 100_000),
    ("1,000,000 appends to a text", Work::Appends, 1_000_000),
    ("100,000 appends to a list", Work::Pushes, 100_000),
    ("1,000,000 appends to a list", Work::Pushes, 1_000_000),
    ("100,000 changes of an element", Work::Sets, 100_000),
    ("1,000,000 changes of an element", Work::Sets, 1_000_000),
    (
        "10,000 changes in an inner list of 1,000",
        Work::InnerSets(1_000),
        10_000,
    ),
    (
        "10,000 changes in an inner list of 10,000",
        Work::InnerSets(10_000),
        10_000,
    ),
    (
        "10,000 changes in an inner dict of 1,000",
        Work::InnerEntries(1_000),
        10_000,
    ),
    (
        "10,000 changes in an inner dict of 10,000",
        Work::InnerEntries(10_000),
        10_000,
    ),
    (
        "10,000 removals from an inner dict of 1,000",
        Work::InnerRemovals(1_000),
        10_000,
    ),
    (
        "10,000 removals from an inner dict of 10,000",
        Work::InnerRemovals(10_000),
        10_000,
    ),
    (
        "100,000 appends to the text of a key",
        Work::InnerAppends,
        100_000,
    ),
    (
        "1,000,000 appends to the text of a key",
        Work::InnerAppends,
        1_000_000,
    ),
    (
        "100,000 appends to the list of a key",
        Work::InnerPushes,
        100_000,
    ),
    (
        "1,000,000 appends to the list of a key",
        Work::InnerPushes,
        1_000_000,
    ),
    ("100,000 new keys", Work::KeysAdded, 100_000),
    ("1,000,000 new keys", Work::KeysAdded, 1_000_000),
];

/// What a number is after it was counted up so often.
fn increments(times: u32) -> i64 {
    let mut value = Value::from_int(0);
    'times: for _ in 0..times {
        if let Ok(n) = value.as_int(Integers::Tcl8) {
            value.set_int(n.wrapping_add(1));
        }
    }
    value.as_int(Integers::Tcl8).unwrap_or(0)
}

/// How long a text is to which four bytes were added so often.
fn appends(alloc: Global, times: u32) -> usize {
    let mut value = Value::empty();
    'times: for _ in 0..times {
        let _ = value.append(alloc, "abcd");
    }
    value.text_len()
}

/// How long the text of a list is to which so many numbers were added.
fn pushes(alloc: Global, times: u32) -> usize {
    let mut value = Value::empty();
    'times: for i in 0..times {
        let _ = value.push(alloc, Value::from_int(i64::from(i)));
    }
    value.text_len()
}

/// How long the text of a list is whose elements were changed in turn, so often.
fn sets(alloc: Global, times: u32) -> usize {
    let mut value = Value::empty();
    'times: for _ in 0..PARTS {
        let _ = value.push(alloc, Value::empty());
    }
    'times: for i in 0..times {
        let _ = value.set_at(alloc, i as usize % PARTS, Value::from_int(i64::from(i)));
    }
    value.text_len()
}

/// A list of so many numbers and another element.
fn inner_list(alloc: Global, parts: usize) -> Value {
    let mut inner = Value::empty();
    'times: for _ in 0..parts {
        let _ = inner.push(alloc, Value::from_int(0));
    }
    let mut value = Value::empty();
    let _ = value.push(alloc, inner);
    let _ = value.push(alloc, Value::empty());
    value
}

/// The places 0 and this one, as indexes.
fn place_inside(alloc: Global, place: u32) -> Result<Vec<Value>, AllocError> {
    let mut path = Vec::new(alloc);
    path.push(Value::from_int(0))?;
    path.push(Value::from_int(i64::from(place)))?;
    Ok(path)
}

/// How long the text of a list is in which one stands whose elements were changed in turn, so
/// often.
fn inner_sets(alloc: Global, parts: usize, times: u32) -> usize {
    let mut value = inner_list(alloc, parts);
    'times: for i in 0..times {
        if let Ok(path) = place_inside(alloc, i % 1000) {
            let new = Value::from_int(i64::from(i));
            let _ = set_element(alloc, Integers::Tcl8, &mut value, &path, new);
        }
    }
    value.text_len()
}

/// A dict of one key, whose value is this one.
fn one_key(alloc: Global, key: &Value, inner: Value) -> Value {
    let mut value = Value::empty();
    let _ = value.set_key(alloc, key, inner);
    value
}

/// A dict of a dict of so many numbers as keys, whose values are 0.
fn inner_dict(alloc: Global, parts: u32) -> Value {
    let mut inner = Value::empty();
    'times: for i in 0..parts {
        let key = Value::from_int(i64::from(i));
        let _ = inner.set_key(alloc, &key, Value::from_int(0));
    }
    one_key(alloc, &Value::from_int(0), inner)
}

/// How long the text of a dict is in which one stands whose values were changed in turn, so often.
fn inner_entries(alloc: Global, parts: u32, times: u32) -> usize {
    let mut value = inner_dict(alloc, parts);
    'times: for i in 0..times {
        if let Ok(path) = place_inside(alloc, i % 1000) {
            let new = Value::from_int(i64::from(i));
            let _ = set_value(alloc, &mut value, &path, new);
        }
    }
    value.text_len()
}

/// How long the text of a dict is in which one stands that got a key behind its own and lost it
/// again, so often.
fn inner_removals(alloc: Global, parts: u32, times: u32) -> usize {
    let mut value = inner_dict(alloc, parts);
    'times: for _ in 0..times {
        if let Ok(path) = place_inside(alloc, parts) {
            let row = [Value::from_int(0)];
            let key = Value::from_int(i64::from(parts));
            let _ = set_value(alloc, &mut value, &path, Value::from_int(0));
            let _ = remove_key(alloc, &mut value, &row, &key);
        }
    }
    value.text_len()
}

/// How long the text of a dict is to whose one value four bytes were added so often.
fn inner_appends(alloc: Global, times: u32) -> usize {
    let key = [Value::from_int(0)];
    let mut value = one_key(alloc, &Value::from_int(0), Value::empty());
    'times: for _ in 0..times {
        if let Ok(more) = Text::new(alloc, "abcd") {
            value.append_inside(alloc, &key, more);
        }
    }
    value.text_len()
}

/// How long the text of a dict is to whose one list so many numbers were added.
fn inner_pushes(alloc: Global, times: u32) -> usize {
    let key = [Value::from_int(0)];
    let mut two = Value::empty();
    let _ = two.push(alloc, Value::from_int(0));
    let _ = two.push(alloc, Value::from_int(0));
    let mut value = one_key(alloc, &Value::from_int(0), two);
    'times: for i in 0..times {
        value.extend_inside(alloc, &key, &[Value::from_int(i64::from(i))]);
    }
    value.text_len()
}

/// How long the text of a dict is whose values were changed in turn, so often.
fn entries(alloc: Global, keys: &[Value], times: u32) -> usize {
    let mut value = Value::empty();
    'times: for i in 0..times {
        if let Some(key) = keys.get(i as usize % PARTS) {
            let _ = value.set_key(alloc, key, Value::from_int(i64::from(i)));
        }
    }
    value.text_len()
}

/// How long the text of a dict is to which so many keys were added.
fn keys_added(alloc: Global, times: u32) -> usize {
    let mut value = Value::empty();
    'times: for i in 0..times {
        let key = Value::from_int(i64::from(i));
        let _ = value.set_key(alloc, &key, Value::empty());
    }
    value.text_len()
}

/// How many elements were counted in a literal whose list was read so often.
fn reads(alloc: Global, literal: &mut Value, times: u32) -> usize {
    let mut count = 0usize;
    'times: for _ in 0..times {
        if let Ok(list) = literal.as_list(alloc) {
            count = count.wrapping_add(list.len());
        }
    }
    count
}

/// The keys of a dict: so many numbers.
fn keys(alloc: Global) -> Result<Vec<Value>, ValueError> {
    let mut keys = Vec::new(alloc);
    'times: for i in 0..PARTS {
        let mut text = String::new(alloc);
        write!(text, "key{i}")?;
        keys.push(Value::from_text(Text::from_string(alloc, text)?)?)?;
    }
    Ok(keys)
}

/// A literal of that many words.
fn literal(alloc: Global) -> Result<Value, ValueError> {
    let mut text = String::new(alloc);
    'times: for i in 0..PARTS {
        write!(text, "{{word {i}}} ")?;
    }
    Value::from_text(Text::from_string(alloc, text)?)
}

/// What comes of work that is done so often.
fn came_of(alloc: Global, work: Work, times: u32) -> usize {
    match work {
        Work::Increments => usize::try_from(increments(times)).unwrap_or(0),
        Work::Appends => appends(alloc, times),
        Work::Pushes => pushes(alloc, times),
        Work::Sets => sets(alloc, times),
        Work::InnerSets(parts) => inner_sets(alloc, parts, times),
        Work::InnerEntries(parts) => inner_entries(alloc, parts, times),
        Work::InnerRemovals(parts) => inner_removals(alloc, parts, times),
        Work::InnerAppends => inner_appends(alloc, times),
        Work::InnerPushes => inner_pushes(alloc, times),
        Work::KeysAdded => keys_added(alloc, times),
    }
}

/// Does work so often, and tells what came of it and how long it took.
fn measure_work(rt: &HostRuntime, name: &str, work: Work, times: u32) -> io::Result<()> {
    measured!(rt, name, came_of(rt.alloc(), work, times));
    Ok(())
}

/// Does all of the work.
fn measure_works(rt: &HostRuntime) -> io::Result<()> {
    'works: for (name, work, times) in WORKS {
        measure_work(rt, name, work, times)?;
    }
    Ok(())
}

/// Changes of a dict's entries.
fn measure_entries(rt: &HostRuntime, keys: &[Value]) -> io::Result<()> {
    let alloc = rt.alloc();
    measured!(
        rt,
        "100,000 changes of an entry",
        entries(alloc, keys, CHANGES / 10)
    );
    measured!(
        rt,
        "1,000,000 changes of an entry",
        entries(alloc, keys, CHANGES)
    );
    Ok(())
}

/// Readings of a literal as a list.
fn measure_readings(rt: &HostRuntime, literal: &mut Value) -> io::Result<()> {
    let alloc = rt.alloc();
    measured!(
        rt,
        "1,000,000 readings of a literal's list",
        reads(alloc, literal, CHANGES)
    );
    Ok(())
}

/// Measures changes of values.
pub(crate) fn measure(rt: &HostRuntime) -> io::Result<()> {
    measure_works(rt)?;
    if let Ok(keys) = keys(rt.alloc()) {
        measure_entries(rt, keys.as_slice())?;
    }
    if let Ok(mut literal) = literal(rt.alloc()) {
        measure_readings(rt, &mut literal)?;
    }
    Ok(())
}

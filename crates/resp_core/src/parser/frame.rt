//! Rows whose values are being read.
ghost use Rattle.std.specs.Prelude.{◌≡◌, ℕ, List, Some, None, IfOk};
ghost use Rattle.resp_core.specs.View.{view};
ghost use Rattle.resp_core.specs.Reading.{Splits, grouped, group_at, value_at};
ghost use Rattle.resp_core.specs.Frames.{rest_of};
ghost use Rattle.resp_core.specs.declared.parser.marker.Marker.TheVariants as rows;
ghost use Rattle.resp_core.specs.declared.parser.frame.Frame.TheVariants as frames;
ghost use Rattle.resp_core.specs.Placing.{Opens, Names, Puts};
ghost use Rattle.resp_core.specs.Room.{room_at_opening};

use crate::parser::marker::Marker;
use crate::parser::stop::Stop;
use crate::push_kind::kind_in;
use crate::value::{PushKind, Value};
use std::alloc::Global;
use std::mem::replace;

/// A row that is open: the values that it has, and how many come behind the one that is being read.
#[derive(Drop)]
pub(crate) enum Frame {
    Array(Vec<Value>, u64),
    Set(Vec<Value>, u64),
    /// Pairs, a key where its value is being read, and how many pairs come behind this one.
    Map(Vec<(Value, Value)>, Option<Value>, u64),
    /// The same; where no key and no pair is left, the inner value is being read.
    Attribute(Vec<(Value, Value)>, Option<Value>, u64),
    /// A push whose first value is being read.
    Naming(u64),
    Push(PushKind, Vec<Value>, u64),
}

/// What a row is at its beginning: without values it is whole.
#[derive(Drop)]
pub(crate) enum Opened {
    Whole(Value),
    Open(Frame),
}

fn open_array(alloc: Global, count: u64) -> Opened
    ensures opens { (k : ℕ) → (bs : List ℕ)
        → Opens k bs result (grouped rows.Array (group_at (value_at k) rows.Array count bs)) }
    ensures room { room_at_opening result ≡ 0 }
{
    let items = Vec::new(alloc);
    if count == 0 {
        return Opened::Whole(Value::Array(items));
    }
    Opened::Open(Frame::Array(items, count - 1))
}

fn open_set(alloc: Global, count: u64) -> Opened
    ensures opens { (k : ℕ) → (bs : List ℕ)
        → Opens k bs result (grouped rows.Set (group_at (value_at k) rows.Set count bs)) }
    ensures room { room_at_opening result ≡ 0 }
{
    let items = Vec::new(alloc);
    if count == 0 {
        return Opened::Whole(Value::Set(items));
    }
    Opened::Open(Frame::Set(items, count - 1))
}

fn open_map(alloc: Global, count: u64) -> Opened
    requires { Splits rows.Map count }
    ensures opens { (k : ℕ) → (bs : List ℕ)
        → Opens k bs result (grouped rows.Map (group_at (value_at k) rows.Map count bs)) }
    ensures room { room_at_opening result ≡ 0 }
{
    let pairs = Vec::new(alloc);
    if count < 2 {
        return Opened::Whole(Value::Map(pairs));
    }
    Opened::Open(Frame::Map(pairs, None, count / 2 - 1))
}

fn open_attribute(alloc: Global, count: u64) -> Opened
    requires { Splits rows.Attribute count }
    ensures opens { (k : ℕ) → (bs : List ℕ)
        → Opens k bs result (grouped rows.Attribute (group_at (value_at k) rows.Attribute count bs)) }
    ensures room { room_at_opening result ≡ 0 }
{
    Opened::Open(Frame::Attribute(Vec::new(alloc), None, count / 2))
}

fn open_push(alloc: Global, count: u64) -> Opened
    ensures opens { (k : ℕ) → (bs : List ℕ)
        → Opens k bs result (grouped rows.Push (group_at (value_at k) rows.Push count bs)) }
    ensures room { room_at_opening result ≡ 0 }
{
    if count == 0 {
        let kind = PushKind::Other(String::new(alloc));
        let items = Vec::new(alloc);
        return Opened::Whole(Value::Push { kind, items });
    }
    Opened::Open(Frame::Naming(count - 1))
}

/// A row of so many values, none of which was read.
pub(crate) fn open_row(alloc: Global, marker: Marker, count: u64) -> Opened
    requires { Splits marker count }
    ensures opens { (k : ℕ) → (bs : List ℕ)
        → Opens k bs result (grouped marker (group_at (value_at k) marker count bs)) }
    ensures room { room_at_opening result ≡ 0 }
{
    match marker {
        Marker::Set => open_set(alloc, count),
        Marker::Map => open_map(alloc, count),
        Marker::Attribute => open_attribute(alloc, count),
        Marker::Push => open_push(alloc, count),
        _ => open_array(alloc, count),
    }
}

#[inline(always)]
fn put_into_array(
    alloc: Global,
    items: &mut Vec<Value>,
    to_come: &mut u64,
    value: Value,
) -> Result<Option<Value>, Stop>
    ensures { (k : ℕ) → (bs : List ℕ)
        → Puts k bs result (frames.Array items.new to_come.new)
        (rest_of k (frames.Array items.old to_come.old) (view value, bs)) }
{
    items.push(value)?;
    if *to_come == 0 {
        return Ok(Some(Value::Array(replace(items, Vec::new(alloc)))));
    }
    *to_come -= 1;
    Ok(None)
}

fn put_into_set(
    alloc: Global,
    items: &mut Vec<Value>,
    to_come: &mut u64,
    value: Value,
) -> Result<Option<Value>, Stop>
    ensures { (k : ℕ) → (bs : List ℕ)
        → Puts k bs result (frames.Set items.new to_come.new)
        (rest_of k (frames.Set items.old to_come.old) (view value, bs)) }
{
    items.push(value)?;
    if *to_come == 0 {
        return Ok(Some(Value::Set(replace(items, Vec::new(alloc)))));
    }
    *to_come -= 1;
    Ok(None)
}

fn put_into_push(
    alloc: Global,
    kind: &mut PushKind,
    items: &mut Vec<Value>,
    to_come: &mut u64,
    value: Value,
) -> Result<Option<Value>, Stop>
    ensures { (k : ℕ) → (bs : List ℕ)
        → Puts k bs result (frames.Push kind.new items.new to_come.new)
        (rest_of k (frames.Push kind.old items.old to_come.old) (view value, bs)) }
{
    items.push(value)?;
    if *to_come == 0 {
        let kind = replace(kind, PushKind::Disconnection);
        let items = replace(items, Vec::new(alloc));
        return Ok(Some(Value::Push { kind, items }));
    }
    *to_come -= 1;
    Ok(None)
}

/// A key, or the value of one.
fn put_into_map(
    alloc: Global,
    pairs: &mut Vec<(Value, Value)>,
    key: &mut Option<Value>,
    to_come: &mut u64,
    value: Value,
) -> Result<Option<Value>, Stop>
    ensures { (k : ℕ) → (bs : List ℕ)
        → Puts k bs result (frames.Map pairs.new key.new to_come.new)
        (rest_of k (frames.Map pairs.old key.old to_come.old) (view value, bs)) }
{
    let Some(first) = key.take() else {
        *key = Some(value);
        return Ok(None);
    };
    pairs.push((first, value))?;
    if *to_come == 0 {
        return Ok(Some(Value::Map(replace(pairs, Vec::new(alloc)))));
    }
    *to_come -= 1;
    Ok(None)
}

/// A key, the value of one, or the inner value.
fn put_into_attribute(
    alloc: Global,
    pairs: &mut Vec<(Value, Value)>,
    key: &mut Option<Value>,
    to_come: &mut u64,
    value: Value,
) -> Result<Option<Value>, Stop>
    ensures { (k : ℕ) → (bs : List ℕ)
        → Puts k bs result (frames.Attribute pairs.new key.new to_come.new)
        (rest_of k (frames.Attribute pairs.old key.old to_come.old) (view value, bs)) }
{
    if let Some(first) = key.take() {
        pairs.push((first, value))?;
        return Ok(None);
    }
    if *to_come == 0 {
        let inner = Box::new(alloc, value)?;
        let attributes = replace(pairs, Vec::new(alloc));
        return Ok(Some(Value::Attribute { inner, attributes }));
    }
    *key = Some(value);
    *to_come -= 1;
    Ok(None)
}

/// The first value of a push.
fn name(alloc: Global, value: Value, to_come: u64) -> Result<Opened, Stop>
    ensures names { (k : ℕ) → (bs : List ℕ)
        → Names k bs result (rest_of k (frames.Naming to_come) (view value, bs)) }
    ensures room { IfOk result (λ o. room_at_opening o ≡ 0) }
{
    let kind = kind_in(value)?;
    let items = Vec::new(alloc);
    if to_come == 0 {
        return Ok(Opened::Whole(Value::Push { kind, items }));
    }
    Ok(Opened::Open(Frame::Push(kind, items, to_come - 1)))
}

impl Frame {
    /// Puts in the value that was being read, and answers what is whole by that, if it was the last.
    #[inline(always)]
    pub(crate) fn put(&mut self, alloc: Global, value: Value) -> Result<Option<Value>, Stop>
        ensures { (k : ℕ) → (bs : List ℕ) → Puts k bs result self.new (rest_of k self.old (view value, bs)) }
    {
        match self {
            Frame::Array(items, to_come) => put_into_array(alloc, items, to_come, value),
            _ => self.put_into_any(alloc, value),
        }
    }

    /// The same of every row. It is apart so that the compiled way of arrays is free of the other rows.
    #[inline(never)]
    fn put_into_any(&mut self, alloc: Global, value: Value) -> Result<Option<Value>, Stop>
        ensures { (k : ℕ) → (bs : List ℕ) → Puts k bs result self.new (rest_of k self.old (view value, bs)) }
    {
        match self {
            Frame::Array(items, to_come) => put_into_array(alloc, items, to_come, value),
            Frame::Set(items, to_come) => put_into_set(alloc, items, to_come, value),
            Frame::Push(kind, items, to_come) => put_into_push(alloc, kind, items, to_come, value),
            Frame::Map(pairs, key, to_come) => put_into_map(alloc, pairs, key, to_come, value),
            Frame::Attribute(pairs, key, to_come) => {
                put_into_attribute(alloc, pairs, key, to_come, value)
            }
            Frame::Naming(to_come) => {
                let to_come = *to_come;
                match name(alloc, value, to_come)? {
                    Opened::Whole(push) => Ok(Some(push)),
                    Opened::Open(push) => {
                        *self = push;
                        Ok(None)
                    }
                }
            }
        }
    }
}

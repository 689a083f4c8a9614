//! Whether two TOML values are the same.
ghost use Rattle.std.specs.Prelude.{◌≡◌, IsTrue};
ghost use Rattle.toml.specs.View.{view, array_view, table_view};

use jsonptr_value::is_same_float;
use toml::value::{Array, Date, Datetime, Offset, Time};
use toml::{Table, Value};

/// Returns whether the two values are the same. Floats are so if both are NaN, or have the same bits.
#[cycle(same)]
pub fn is_same(left: &Value, right: &Value) -> bool
    ensures { IsTrue result → view left.now ≡ view right.now }
{
    match left {
        Value::String(text) => match right {
            Value::String(other) => text.as_str() == other.as_str(),
            _ => false,
        },
        Value::Integer(integer) => match right {
            Value::Integer(other) => *integer == *other,
            _ => false,
        },
        Value::Float(float) => match right {
            Value::Float(other) => is_same_float(*float, *other),
            _ => false,
        },
        Value::Boolean(truth) => match right {
            Value::Boolean(other) => *truth == *other,
            _ => false,
        },
        Value::Datetime(datetime) => match right {
            Value::Datetime(other) => is_same_datetime(*datetime, *other),
            _ => false,
        },
        Value::Array(elements) => match right {
            Value::Array(others) => same_elements(elements, others),
            _ => false,
        },
        Value::Table(members) => match right {
            Value::Table(others) => same_members(members, others),
            _ => false,
        },
    }
}

/// Returns whether the two date-times are the same.
fn is_same_datetime(left: Datetime, right: Datetime) -> bool
    ensures { IsTrue result → left ≡ right }
{
    is_same_date(left.date, right.date)
        && is_same_time(left.time, right.time)
        && is_same_offset(left.offset, right.offset)
}

/// Returns whether the two dates are the same.
fn is_same_date(left: Option<Date>, right: Option<Date>) -> bool
    ensures { IsTrue result → left ≡ right }
{
    match (left, right) {
        (Some(date), Some(other)) => {
            date.year == other.year && date.month == other.month && date.day == other.day
        }
        (None, None) => true,
        _ => false,
    }
}

/// Returns whether the two times are the same.
fn is_same_time(left: Option<Time>, right: Option<Time>) -> bool
    ensures { IsTrue result → left ≡ right }
{
    match (left, right) {
        (Some(time), Some(other)) => {
            time.hour == other.hour
                && time.minute == other.minute
                && time.second == other.second
                && time.nanosecond == other.nanosecond
        }
        (None, None) => true,
        _ => false,
    }
}

/// Returns whether the two offsets are the same.
fn is_same_offset(left: Option<Offset>, right: Option<Offset>) -> bool
    ensures { IsTrue result → left ≡ right }
{
    match (left, right) {
        (Some(Offset::Z), Some(Offset::Z)) => true,
        (Some(Offset::Custom { minutes }), Some(Offset::Custom { minutes: other })) => {
            minutes == other
        }
        (None, None) => true,
        _ => false,
    }
}

/// Returns whether two arrays have the same elements.
#[cycle(same)]
fn same_elements(left: &Array, right: &Array) -> bool
    ensures { IsTrue result → array_view left.now ≡ array_view right.now }
{
    if left.len() != right.len() {
        return false;
    }
    for (index, element) in left.iter().enumerate() {
        if !is_same(element, &right[index]) {
            return false;
        }
    }
    true
}

/// Returns whether two tables have the same keys and the same members.
///
/// Goes over both at once, since both have their keys in ascending order.
#[cycle(same)]
fn same_members(left: &Table, right: &Table) -> bool
    ensures { IsTrue result → table_view left.now ≡ table_view right.now }
{
    if left.len() != right.len() {
        return false;
    }
    let mut others = right.iter();
    for (key, member) in left.iter() {
        let Some((name, other)) = others.next() else {
            return false;
        };
        if key.as_str() != name.as_str() || !is_same(member, other) {
            return false;
        }
    }
    true
}

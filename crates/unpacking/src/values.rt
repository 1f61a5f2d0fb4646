// Reading a value at a form.
#![tactic(auto, using(crate::proofs::Laws::Steps::steps), unfolding(rows::specs::Readings::read_octets, rows::specs::Readings::read_value))]

ghost use Rattle.std.specs.Prelude.{◌≡◌};
ghost use Rattle.octets.specs.Found.{of_found};
ghost use Rattle.texts.specs.declared.forms.Form.{Form};
ghost use Rattle.rows.specs.Readings.{read_octets};

use crate::dates::date;
use crate::times::time;
use answers::Bits;
use texts::{DateForm, Form, TimeForm, Value};
use types::YearRow;

// A date alone.
fn read_date(row: YearRow, form: DateForm, octets: &[u8]) -> Option<Value>
    ensures { result ≡ of_found (read_octets row (Form.Date form) octets.now) }
{
    let (date, _) = date(octets, row, form)?;
    Some(Value::Date(date))
}

// A time alone.
fn read_time(row: YearRow, form: TimeForm, octets: &[u8]) -> Option<Value>
    ensures { result ≡ of_found (read_octets row (Form.Time form) octets.now) }
{
    let (time, _) = time(octets, Bits { count: 0 }, form)?;
    Some(Value::Time(time))
}

// A date with a time.
fn read_date_time(row: YearRow, before: DateForm, form: TimeForm, octets: &[u8]) -> Option<Value>
    ensures { result ≡ of_found (read_octets row (Form.DateTime before form) octets.now) }
{
    let (date, next) = date(octets, row, before)?;
    let (time, _) = time(octets, next, form)?;
    Some(Value::DateTime(date, time))
}

// What octets give at a form: a value, or nothing that can be read as one.
pub fn unpack(row: YearRow, form: Form, octets: &[u8]) -> Option<Value>
    ensures { result ≡ of_found (read_octets row form octets.now) }
{
    match form {
        Form::Date(date) => read_date(row, date, octets),
        Form::Time(time) => read_time(row, time, octets),
        Form::DateTime(date, time) => read_date_time(row, date, time, octets),
    }
}

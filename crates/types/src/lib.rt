// Type descriptions: what a type says of its values, ready types, limits, and which types select the same rows.
#![tactic(auto)]

pub mod numbers;
pub mod rows;
pub mod types;
pub mod years;

pub use rows::same_rows;
pub use types::{AnyType, DateType, Limits, Name, Parts, TimeType, Type, TypeFound, TypeRead};
pub use years::{PlainYears, SignedYears, YearRow, YearSetting, Years, year_setting_at};
